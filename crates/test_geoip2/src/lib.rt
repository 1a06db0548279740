//! Tests of the GeoIP2 records: each struct with all its fields, worked rows with printed texts, equality,
//! and running out of memory.
#![tactic(auto)]

#[cfg(test)]
mod tests;
