//! What no clause says of rows: rows around a piece, faults of the input, the output and memory, and CSV.
mod ahead;
mod behind;
mod cells;
mod ends;
mod faults;
mod pieces;
mod quotes;
mod streams;
