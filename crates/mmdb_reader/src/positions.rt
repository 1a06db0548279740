//! Positions of a walk over the search tree.
ghost use Rattle.std.specs.Prelude.{◌≡◌};

use crate::walked::DatabaseWalker;
use std::convert::AsSlice;

/// A number of the tree, with the bits that lead to it: the first `prefix` bits of an address whose
/// other bits are zero. Its fields fill its size: bytes between them would be copied in pieces.
#[derive(Clone, Copy)]
pub(crate) struct Position {
    pub(crate) address: u128,
    pub(crate) number: usize,
    pub(crate) prefix: usize,
}

/// Where every walk begins.
pub(crate) const ROOT: Position = Position {
    address: 0,
    number: 0,
    prefix: 0,
};

impl Position {
    ghost use Rattle.mmdb_reader.specs.Positions.{IsAt, is_high_at};
    ghost use Rattle.mmdb_reader.specs.Working.{HasHalves, half_of};

    /// Whether this is the node with a number, reached by bits that are an address of 2^32 or more.
    #[inline(always)]
    pub(crate) fn is_high_at(&self, number: usize) -> bool
        ensures { result ≡ is_high_at self.now number }
    {
        self.number == number && self.address >= 1 << 32
    }

    /// The lower or the upper half of the addresses of this position.
    #[inline(always)]
    pub(crate) fn half<S: AsSlice<u8> + Drop>(
        self,
        walker: &DatabaseWalker<'_, S>,
        right: bool,
    ) -> Position
        requires at { IsAt walker.now.reader.now self }
        requires halves { HasHalves walker.now.reader.now self }
        ensures { result ≡ half_of walker.now.reader.now self right }
    {
        let size = 1u128 << (walker.tree.width - self.prefix - 1);
        Position {
            address: if right {
                self.address + size
            } else {
                self.address
            },
            number: walker.tree.nodes.half(self.number, right),
            prefix: self.prefix + 1,
        }
    }
}
