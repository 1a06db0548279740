//! A filter over rows, lines or rows of CSV: each is written whole, with something added before its last bytes.
#![tactic(auto)]

mod at_hand;
mod batch;
mod chunk;
mod counts;
mod filter;
pub mod laws;
mod live;
mod pass;
mod put;
mod quotes;
mod refill;
mod rows;
mod runs;
mod text;

pub use batch::has_room;
pub use chunk::read_chunk;
pub use counts::{Counts, Outcome};
pub use filter::{Added, Additions, Filtered, Progress, filter_rows};
pub use live::Live;
pub use quotes::put_csv_cell;
pub use rows::{RowPosition, Rows, first_row};
pub use runs::{either_from, here_or_from};
pub use text::{MOST_ASKED, MOST_SEEN};
