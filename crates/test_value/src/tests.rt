//! What no clause says: worked rows over public calls, printed texts, and running out of memory.
//!
//! The offset in an error is the decoder's when it fails: that of the value that is asked for, or, where
//! the bytes of a text, a number or a header are read and then found wrong, the place after them.
mod checks;
mod equalities;
mod errors;
mod limits;
mod memory;
mod offsets;
mod own_types;
mod steps;
mod typed;
mod values;
