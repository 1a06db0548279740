//! The search tree of a MaxMind DB file, made of entries: blocks of addresses in order, each with the offset of the value
//! that its addresses have.
#![tactic(auto)]

mod bytes;
mod entry;
pub mod laws;
mod node;
mod plant;
mod size;
mod tree;

pub use entry::{IpVersion, NodeEntry, all_fit, are_ordered};
pub use size::RecordSize;
pub use tree::{SearchTree, TreeError, search_tree};
