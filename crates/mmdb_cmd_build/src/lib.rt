//! The command `build`: a MaxMind DB file of lines of JSON or rows of cells that say which networks have which values.
#![tactic(auto)]

mod bad_rows;
mod cells;
mod check;
mod columns;
mod command;
mod entry;
mod error;
mod finish;
mod gather;
mod input_rows;
mod json_lines;
mod kept;
mod known;
mod like;
mod networks;
mod notes;
mod pieces;
mod plan;
mod range;
mod replaceable;
mod reserved;
mod rows;
mod scalars;
mod spans;
mod summary;
mod taken;
mod task;
mod types;
mod unmet;
mod values;

pub use cells::Cells;
pub use columns::Columns;
pub use command::build;
pub use entry::{RowAddresses, RowEntry, Values};
pub use error::{BadRow, InputError, Reason};
pub use input_rows::{MOST_ROW, RowRead, read_row};
pub use json_lines::{JsonLines, RANGE, RECORD};
pub use networks::network_of;
pub use range::{AddressRange, RangeNetworks};
pub use scalars::{type_name, type_of};
pub use types::Types;
