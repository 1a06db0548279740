//! Verifications: verdicts on files, the positions that they take, and running out of memory.
//!
//! An error of the metadata or of the data has the offset of the value that is rejected, counted from the file's
//! start, or the place to which a pointer leads. What is wrong with the tree or the separator has no place.
mod few;
mod files;
mod memory;
mod orders;
mod records;
mod verdicts;
