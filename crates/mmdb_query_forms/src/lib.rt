//! Conditions on values and rows of columns, over whatever databases have.
#![tactic(auto)]

mod all_of;
mod along;
mod column;
mod columns;
mod kept;
pub mod laws;
mod scratch;
mod whole;

pub use all_of::AllOf;
pub use along::Along;
pub use column::{Column, ColumnSource};
pub use columns::{Columns, RowForm};
pub use scratch::ColumnScratch;
