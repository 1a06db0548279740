//! Sets of offsets of a section.
#![tactic(auto)]

mod offset_set;

pub use offset_set::OffsetSet;
