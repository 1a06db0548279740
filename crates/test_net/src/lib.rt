//! Tests of networks: which texts are read, with which errors, and what is printed; of joined blocks; of addresses in texts and
//! lines of JSON; and of tables.
#![tactic(auto)]

#[cfg(test)]
mod blocks;
#[cfg(test)]
mod lines;
#[cfg(test)]
mod listed;
#[cfg(test)]
mod networks;
#[cfg(test)]
mod readings;
#[cfg(test)]
mod texts;
