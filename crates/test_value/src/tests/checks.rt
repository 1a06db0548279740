//! Checks of a section: verdicts, hostile values, and running out of memory.
//!
//! The offset in an error is that of the value that is rejected; of a pointer to a place under check, or past the
//! section, it is the place to which the pointer leads.
mod hostile;
mod memory;
mod sections;
mod verdicts;
