//! Tests of what `mmdb enrich` adds, and of the JSON that the program writes.
#![tactic(auto)]

#[cfg(test)]
mod tests;
