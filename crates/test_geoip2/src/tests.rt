//! What no clause says: worked rows over public calls, printed texts, and running out of memory.
mod calls;
mod equalities;
mod fields;
mod laws;
mod memory;
mod parts;
mod reads;
mod rows;
mod section;
