//! Tests of what `mmdb export` and `diff` write.
#![tactic(auto)]

#[cfg(test)]
mod tests;
