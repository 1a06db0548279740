//! Inputs that may wait for what comes later.
use std::alloc::Allocator;
use std::io::{BufRead, BufReader, Read};

/// An input that says whether a read comes next, which may wait for what comes later.
pub trait Live: BufRead {
    /// Whether all that was read is consumed.
    fn is_drained(&self) -> bool;
}

impl<R: Read, A: Allocator> Live for BufReader<R, A> {
    #[inline(always)]
    fn is_drained(&self) -> bool {
        self.buffer().is_empty()
    }
}

/// Bytes at hand, of which no read waits.
impl Live for &[u8] {
    fn is_drained(&self) -> bool {
        false
    }
}
