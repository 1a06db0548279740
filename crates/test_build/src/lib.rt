//! Tests of files that are made of rows.
#![tactic(auto)]

#[cfg(test)]
mod tests;
