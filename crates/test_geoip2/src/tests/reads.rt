//! Reads of sections, one after the other.
use mmdb_vectors::failures::Failures;
use std::alloc::Global;

/// The section of the row at hand, and the rows that came out wrong.
#[derive(Drop)]
pub struct Reads {
    pub alloc: Global,
    pub failures: Failures,
    pub room: Vec<u8>,
}

impl Reads {
    pub fn new(alloc: Global) -> Reads {
        Reads {
            alloc,
            failures: Failures::new(alloc),
            room: Vec::new(alloc),
        }
    }

    /// The failures as an error, where there is one.
    pub fn verdict(self) -> Result<(), Failures> {
        self.failures.verdict()
    }
}
