//! The command `diff`: what changed between two files.
#![tactic(auto)]

mod changes;
mod comparison;
mod counts;
mod differences;
mod same;
mod shown;
mod texts;
mod two_databases;

pub use comparison::diff;
