//! Blocks of addresses.
ghost use Rattle.std.specs.Prelude.{◌≡◌, ◌+◌, ◌-◌, ◌%◌, ◌^◌, ◌<◌, ◌≤◌, ◌↔◌, IsTrue};

/// The addresses that begin with the same bits: `prefix` of them, at most 128, and the first of the
/// addresses, whose other bits are 0.
#[derive(Clone, Copy, Debug, PartialEq, Eq)]
pub struct Block {
    pub first: u128,
    pub prefix: u8,
}

impl Block {
    ghost use Rattle.mmdb_blocks.specs.Blocks.{IsBlock, AreHalves, size, end, whole};

    /// Whether the prefix is at most 128, and the bits after it are 0.
    pub fn is_block(&self) -> bool
        ensures { IsTrue result ↔ IsBlock self.now }
    {
        let first = self.first;
        self.prefix <= 128 && first & bits_after(self.prefix) == 0
    }

    /// The last address of the block.
    pub fn last(&self) -> u128
        requires { IsBlock self.now }
        ensures { result + 1 ≡ end self.now }
    {
        self.first + bits_after(self.prefix)
    }

    /// The largest block that begins at `first` and ends at `last` or before.
    pub fn largest(first: u128, last: u128) -> Block
        requires { first ≤ last }
        ensures block { IsBlock result }
        ensures first { result.first ≡ first }
        ensures within { end result ≤ last + 1 }
    {
        // no smaller prefix has a block that begins there
        let aligned = 128 - first.trailing_zeros().min(128);
        for prefix in aligned as u8..128 {
            let block = Block { first, prefix };
            if block.is_block() && block.last() <= last {
                return block;
            }
        }
        Block { first, prefix: 128 }
    }

    // Whether it is the left half of a block.
    fn is_left(&self) -> bool
        requires { IsBlock self.now }
        ensures { IsTrue result
            ↔ ((0 < self.now.prefix) × (self.now.first % size (whole self.now) ≡ 0)) }
    {
        self.prefix > 0 && self.first & bits_after(self.prefix - 1) == 0
    }

    // Whether the other one begins where this one ends.
    fn is_before(&self, right: Block) -> bool
        requires { IsBlock self.now }
        ensures { IsTrue result ↔ (right.first ≡ end self.now) }
    {
        right.first > 0 && right.first - 1 == self.last()
    }

    // Whether the two are the halves of one block.
    pub(crate) fn is_left_half(&self, right: Block) -> bool
        requires { IsBlock self.now }
        ensures { IsTrue result ↔ AreHalves self.now right }
    {
        if self.prefix != right.prefix {
            return false;
        }
        self.is_before(right) && self.is_left()
    }

    // The block of which this is the left half.
    pub(crate) fn whole(&self) -> Block
        ensures { result ≡ whole self.now }
    {
        Block {
            first: self.first,
            prefix: self.prefix.saturating_sub(1),
        }
    }
}

// A number whose bits are 1 after the prefix.
fn bits_after(prefix: u8) -> u128
    requires { prefix ≤ 128 }
    ensures { result + 1 ≡ 2 ^ (128 - prefix) }
{
    if prefix == 0 {
        return u128::MAX;
    }
    (1 << (128 - prefix)) - 1
}
