//! What no clause says: worked runs over files and bytes, sinks that end, printed texts, and running out of memory.
mod asserts;
mod calls;
mod constructors;
mod errors;
mod growths;
mod lines;
mod lists;
mod long_lists;
mod memory;
mod prefixes;
mod programs;
mod reads;
mod reports;
mod runs;
mod sink;
mod sinks;
mod writes;
