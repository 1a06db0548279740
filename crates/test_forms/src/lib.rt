//! What no clause says of networks that are chosen by conditions on values, of rows of columns and of addresses that are asked: that
//! they come where there is memory.
#![tactic(auto)]

#[cfg(test)]
mod asked;
#[cfg(test)]
mod conditions;
#[cfg(test)]
mod databases;
#[cfg(test)]
mod rows;
