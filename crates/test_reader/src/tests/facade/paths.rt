//! Paths to values inside records: worked rows, printed texts, limits and running out of memory.
mod answers;
mod limits;
mod memory;
mod steps;
mod vectors;
