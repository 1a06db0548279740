//! Tests of the program: its arguments, the files that it opens, what it writes, the sinks that take it, and lines and
//! lists without memory.
#![tactic(auto)]

#[cfg(test)]
mod tests;
