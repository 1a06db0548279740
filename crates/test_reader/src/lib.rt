//! Tests of readers: files, their metadata, lookups of addresses, walks, paths, and verifications.
#![tactic(auto)]

#[cfg(test)]
mod tests;
