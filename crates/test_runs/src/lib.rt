//! Runs of the program `mmdb` in tests: over words, files and lines that a test makes.
#![tactic(auto)]

pub mod numbers;
pub mod program;
pub mod trees;
