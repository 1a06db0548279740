//! The command `install`: a MaxMind DB file that takes another one's place.
#![tactic(auto)]

mod change;
mod command;
mod percent;

pub use command::install;
