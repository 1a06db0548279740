//! The data section of a MaxMind DB file, made value by value: equal values are written once, one after the other, and pointers
//! lead to them. `in_line` makes it anew, with each value that is used once in place of its pointer.
#![tactic(auto)]

mod header;
pub mod laws;
mod moved;
mod pointer;
mod scalar;
mod section;
mod uses;
mod value;
mod write;

pub use header::{MOST_SIZE, push_header};
pub use moved::{MovedSection, in_line};
pub use scalar::{push_number, push_text};
pub use section::{Section, SectionError};
pub use value::{Number, SectionPart, WrittenValue};
