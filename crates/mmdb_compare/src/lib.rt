//! What changed between two databases: their networks side by side, as the largest blocks in which each has one answer,
//! values of both that are read side by side, and what is kept of pairs of records.
#![tactic(auto)]

mod contents;
mod equality;
pub mod laws;
mod pairs;
mod place;
mod side;
mod together;
mod walk;
mod walk_list;

pub use equality::SideBySide;
pub use pairs::{KnownPairs, Offsets};
pub use side::Side;
pub use together::{Together, TogetherPart, TogetherStretch};
pub use walk::UnreadLeaf;
pub use walk_list::AskedDatabase;
