//! The check of a value and of all that it leads to, with a memory of the offsets that were found good.
#![tactic(auto)]

pub mod checked;
/// The check of a section's first value.
pub mod first_value;
mod inline;
pub mod laws;
mod work;
