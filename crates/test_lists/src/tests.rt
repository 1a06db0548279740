//! What no clause says of lists, rows and differences: worked texts, statuses and errors.
mod asserted;
mod bounds;
mod diffs;
mod exports;
mod faults;
mod kept_rows;
mod lists;
mod several_export;
mod shared;
