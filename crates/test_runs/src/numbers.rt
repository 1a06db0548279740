//! Numbers of which tests are made.

/// Numbers that follow from a seed.
#[derive(Clone, Copy)]
pub struct Numbers {
    pub state: u64,
}

impl Numbers {
    /// The next one, below a count.
    pub fn below(&mut self, count: usize) -> usize {
        self.state = self
            .state
            .wrapping_mul(0x5851_F42D_4C95_7F2D)
            .wrapping_add(0x1405_7B7E_F767_814F);
        (self.state >> 33) as usize % count.max(1)
    }
}
