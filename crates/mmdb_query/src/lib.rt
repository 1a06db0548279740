//! What one database has for an address or a network, or several have: one answer, which conditions choose, and which is put
//! into rows, into sets of addresses or into lists.
#![tactic(auto)]

mod address_blocks;
mod addresses;
mod answer;
mod choice;
mod each;
mod error;
pub mod laws;
mod listing;
mod many;
mod numbered;
mod outline;
mod part;
mod rows;
mod segment;
mod sink;
mod template;
mod values;
mod walk;

pub use address_blocks::{AddressBlocks, blocks, list_all};
pub use addresses::{Addresses, gather, gather_all, gather_part};
pub use answer::{Answer, NetworkBlock};
pub use choice::{Choice, Conditions};
pub use each::put_each;
pub use error::{Fault, Faults, QueryError, WriteError};
pub use listing::{Listing, list_part};
pub use many::Many;
pub use part::{Clipped, Part};
pub use rows::{Rows, export_rows};
pub use segment::Segment;
pub use sink::Sink;
pub use template::Template;
pub use values::outline_along;
pub use walk::{One, UnreadLeaf, Walk};
