//! The command `export`: the chosen networks of a range, with what their records have or as the fewest blocks.
#![tactic(auto)]

mod absent_paths;
mod adjusted;
mod asked;
mod blocks;
mod conditions;
mod delta;
mod gathering;
mod inputs;
mod listed_values;
mod listing;
mod look;
mod looked;
mod meant;
mod missing;
mod names;
mod networks;
mod reports;
mod rows;
mod several;
mod spelling;
mod task;
mod value_lines;

pub use delta::list_diff;
pub use networks::export;
