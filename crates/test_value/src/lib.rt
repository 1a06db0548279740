//! Tests of values: any value, typed reads, single steps, limits, errors and equalities, and of checks of a
//! section. Beside them stand a record and a list that are read by hand, one that the loop of all records reads, and types
//! of one's own, known by their meaning and by a relation of their own.
#![tactic(auto)]

pub mod lone;
pub mod numbers;
pub mod probe;
pub mod span;
pub mod system_number;
#[cfg(test)]
mod tests;
