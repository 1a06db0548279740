//! Entries: blocks of addresses, each with the offset of a value, or with none.
ghost use Rattle.std.specs.Prelude.{◌≡◌, ◌≤◌, ◌<◌, ◌^◌, ◌+◌, ◌↔◌, ℕ, length, take, drop, IfSome, IsTrue};
ghost use Rattle.std.specs.List.{AllByRecursion};
ghost use Rattle.mmdb_blocks.specs.Blocks.{IsBlock};
ghost use Rattle.mmdb_nodes.specs.Entries.{width, block_of, IsEntry, ComesBefore, IsOrdered, offset_after};
ghost use Rattle.mmdb_nodes.specs.Working.{IsInside, IsSmaller, Follows, Precedes, HasOffsetBelow, IsUnder};

use mmdb_blocks::Block;

/// Which addresses a tree has: those of IPv4, or those of IPv6, in which the ones of IPv4 follow 96 zero bits
/// ("IPv4 addresses in an IPv6 tree" of the MaxMind DB File Format Specification 2.0).
#[derive(Clone, Copy, Debug, PartialEq, Eq)]
pub enum IpVersion {
    V4,
    V6,
}

impl IpVersion {
    /// How many bits an address has: 32 or 128.
    pub fn width(self) -> u8
        ensures { result ≡ width self }
    {
        match self {
            IpVersion::V4 => 32,
            IpVersion::V6 => 128,
        }
    }

    // The address whose bits are all 1.
    fn last_address(self) -> u128
        ensures { result + 1 ≡ 2 ^ width self }
    {
        match self {
            IpVersion::V4 => u128::from(u32::MAX),
            IpVersion::V6 => u128::MAX,
        }
    }
}

/// The addresses that begin with the same `prefix` bits, at most 128, and the offset of their value in the data section, in
/// bytes, or none where they are to have no value. `first` is the first of these addresses. IPv4 addresses are numbers below
/// 2^32, with prefixes of 96 and more.
#[derive(Clone, Copy, Debug, PartialEq, Eq)]
pub struct NodeEntry {
    pub first: u128,
    pub prefix: u8,
    pub offset: Option<u32>,
}

// A list of City's size has 5.8 million entries.
const _: () = prove!(size_of::<NodeEntry>() == 32);

impl NodeEntry {
    /// The entry of a block, whose addresses have the value at an offset, or none.
    pub fn new(block: Block, offset: Option<u32>) -> NodeEntry
        ensures block { block_of result ≡ block }
        ensures offset { result.offset ≡ offset }
    {
        NodeEntry {
            first: block.first,
            prefix: block.prefix,
            offset,
        }
    }

    /// The block that has its addresses.
    pub fn block(&self) -> Block
        ensures { result ≡ block_of self.now }
    {
        Block {
            first: self.first,
            prefix: self.prefix,
        }
    }

    /// Whether a tree of this version can have it before a data section of `data_len` bytes: it is a block of addresses of that
    /// version, and its offset, if it has one, is one of the section.
    pub fn fits(&self, version: IpVersion, data_len: usize) -> bool
        ensures { IsTrue result ↔ IsEntry version data_len self.now }
    {
        let block = self.block();
        block.is_block()
            && block.last() <= version.last_address()
            && self.has_offset_below(data_len)
    }

    // Whether its offset, if it has one, is below a bound.
    fn has_offset_below(&self, bound: usize) -> bool
        ensures { IsTrue result ↔ HasOffsetBelow bound self.now }
    {
        match self.offset {
            None => true,
            Some(offset) => (offset as usize) < bound,
        }
    }

    // Whether it begins before the other one, or where that one begins and with no longer prefix.
    fn comes_before(&self, other: &NodeEntry) -> bool
        ensures { IsTrue result ↔ ComesBefore self.now other.now }
    {
        self.first < other.first || self.first == other.first && self.prefix <= other.prefix
    }
}

/// Whether entries are in order: by their first addresses, and of those that begin alike the shorter prefix first.
pub fn are_ordered(entries: &[NodeEntry]) -> bool
    ensures { IsTrue result ↔ IsOrdered entries.now }
{
    for i in 1..entries.len() {
        if !entries[i - 1].comes_before(&entries[i]) {
            return false;
        }
    }
    true
}

/// Whether a tree of this version can have all entries before a data section of `data_len` bytes, as `NodeEntry::fits` says of
/// each.
pub fn all_fit(entries: &[NodeEntry], version: IpVersion, data_len: usize) -> bool
    ensures { IsTrue result ↔ AllByRecursion (IsEntry version data_len) entries.now }
{
    for entry in entries {
        if !entry.fits(version, data_len) {
            return false;
        }
    }
    true
}

// Passes the entries for all of a block of `2 ^ free` addresses: the offset that its addresses have after those, and the
// other entries.
pub(crate) fn skip_whole(
    entries: &[NodeEntry],
    free: u8,
    found: Option<u32>,
) -> (Option<u32>, &[NodeEntry])
    requires free { free ≤ 128 }
    requires ordered { IsOrdered entries.now }
    ensures value { (first a : ℕ) → AllByRecursion (IsInside first free) entries.now → a < 2 ^ free
        → offset_after result.0 result.1.now (first + a)
        ≡ offset_after found entries.now (first + a) }
    ensures inside { (first : ℕ) → AllByRecursion (IsInside first free) entries.now
        → AllByRecursion (IsInside first free) result.1.now }
    ensures smaller { (first : ℕ) → AllByRecursion (IsInside first free) entries.now
        → AllByRecursion (IsSmaller free) result.1.now }
    ensures ordered { IsOrdered result.1.now }
    ensures offsets { (bound : ℕ) → AllByRecursion (HasOffsetBelow bound) entries.now
        → IfSome found (IsUnder bound)
        → AllByRecursion (HasOffsetBelow bound) result.1.now × IfSome result.0 (IsUnder bound) }
{
    let prefix = 128 - free;
    let mut found = found;
    for (i, entry) in entries.iter().enumerate() {
        if entry.prefix != prefix {
            return (found, &entries[i..]);
        }
        found = entry.offset;
    }
    (found, &entries[entries.len()..])
}

// How many entries begin before an address.
pub(crate) fn cut_at(entries: &[NodeEntry], middle: u128) -> usize
    requires { IsOrdered entries.now }
    ensures bound { result ≤ length entries.now }
    ensures before { AllByRecursion (Precedes middle) (take result entries.now) }
    ensures after { AllByRecursion (Follows middle) (drop result entries.now) }
{
    entries.partition_point(|entry| entry.first < middle)
}
