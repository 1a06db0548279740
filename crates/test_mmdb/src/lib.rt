//! Tests of the program `mmdb`: its words, what `show`, `info` and `verify` write, and what fails.
#![tactic(auto)]

#[cfg(test)]
mod tests;
