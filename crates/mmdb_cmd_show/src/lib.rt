//! The commands `show`, `info` and `verify`: what a database has for addresses, what it says of itself, and whether it is
//! whole.
#![tactic(auto)]

mod answer;
mod asked;
mod command;
mod countable;
mod databases;
mod fields;
mod information;
mod parts;
mod verification;

pub use command::show;
pub use information::{describe, info};
pub use verification::verify;
