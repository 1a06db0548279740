//! Counts over the networks of a range: by kind and prefix, without data, faults, and distinct offsets.
#![tactic(auto)]

pub mod laws;
mod report;
mod tally;

pub use report::{Report, ReportError, report_on};
