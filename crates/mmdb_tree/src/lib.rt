//! The search tree of a MaxMind DB file: its nodes, walks along the bits of addresses, one by one and side by side,
//! tables of where their first sixteen bits lead, and walks of the whole tree.
#![tactic(auto)]

mod few_stops;
mod group;
mod nodes;
mod record;
mod table;
mod walked;

pub use group::FoundLeaf;
pub use nodes::{Descent, Nodes, read_node};
pub use record::{SEPARATOR, TreeRecord};
pub use table::Table;
pub use walked::{Point, WalkEnd, Walked, Walker};
