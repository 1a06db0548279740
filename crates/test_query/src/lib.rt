//! What no clause says of chosen networks: that they come where there is memory, and what is printed of them.
#![tactic(auto)]

#[cfg(test)]
mod answers;
#[cfg(test)]
mod databases;
#[cfg(test)]
mod outputs;
#[cfg(test)]
mod parts;
#[cfg(test)]
mod queries;
#[cfg(test)]
mod records;
#[cfg(test)]
mod several;
