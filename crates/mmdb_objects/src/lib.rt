//! Lines that are objects of JSON, and the address at a path in each.
#![tactic(auto)]

mod lexemes;
mod objects;
mod one_pass;
mod step;

pub use objects::{Line, ReadLine, read_line};
pub use step::PathStep;
