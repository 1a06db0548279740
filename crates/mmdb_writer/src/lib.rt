//! Writes MaxMind DB files: of networks with values, the bytes of a file that says of each address what the networks say.
#![tactic(auto)]

mod certify;
mod entries;
mod error;
mod keys;
mod layout;
mod limits;
mod metadata;
mod options;
mod row;
mod values;
mod write;
mod writer;

pub use error::WriteError;
pub use limits::ValueError;
pub use mmdb_nodes::{IpVersion, RecordSize};
pub use options::{Options, OptionsError};
pub use row::{Row, RowError};
pub use writer::{Writer, write_database};
