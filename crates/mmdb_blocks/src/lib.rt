//! Joins ascending blocks of addresses into the fewest that have the same addresses: block by block, with as much
//! memory as is taken at the start. It knows nothing of files, nor of what addresses are: IPv4 addresses are passed
//! as numbers below 2 ^ 32, with prefixes of 96 and more. Ranges are added to a set of addresses here and taken away from
//! it, and the lists that firewalls read are written.
#![tactic(auto)]

mod block;
mod delta;
mod except;
mod joiner;
mod kind;
pub mod laws;
mod list;
mod listed;
mod network;
mod ranges;
mod syntax;
mod waiting;

pub use block::Block;
pub use delta::blocks_without;
pub use joiner::{JoinError, Joiner};
pub use kind::{BlockKind, Kinds};
pub use list::{BlocksError, List, Taken};
pub use listed::listed_blocks;
pub use ranges::{BlockRange, Ranges, RangesError};
pub use syntax::{Syntax, is_list_value, is_set_name, is_table_name, is_variable_name};
