//! What values cost a reading, and which records of a section can be read: those within the limits, with texts for keys.
#![tactic(auto)]

mod checked_records;
mod cost;
mod kept_costs;

pub use checked_records::check_records;
pub use kept_costs::KeptCosts;
