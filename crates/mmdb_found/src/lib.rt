//! What lookups found along paths, as values and as JSON.
#![tactic(auto)]

mod found;

pub use found::{found_json, value_along, write_found};
