//! Tests of the rows that a filter passes, and of what it adds behind them.
#![tactic(auto)]

#[cfg(test)]
mod tests;
