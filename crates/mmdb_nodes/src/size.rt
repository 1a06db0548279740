//! Sizes of records.
ghost use Rattle.std.specs.Prelude.{◌≡◌, ◌≤◌, ◌<◌, ◌+◌, ◌^◌, IfSome, IfNone, IsTrue};
ghost use Rattle.mmdb_tree.specs.Tree.{is_record_size};
ghost use Rattle.mmdb_nodes.specs.Trees.{bits_in, IsSizeFor, IsLeastSize, most_numbers, numbers_of};

use mmdb_tree::SEPARATOR;

/// How many bits a record of a node has ("Node Layout" of the MaxMind DB File Format Specification 2.0).
#[derive(Clone, Copy, Debug, PartialEq, Eq)]
pub enum RecordSize {
    Bits24,
    Bits28,
    Bits32,
}

impl RecordSize {
    /// How many that are.
    pub fn bits(self) -> u16
        ensures { result ≡ bits_in self }
    {
        match self {
            RecordSize::Bits24 => 24,
            RecordSize::Bits28 => 28,
            RecordSize::Bits32 => 32,
        }
    }

    // How many numbers a record of this size can have.
    fn room(self) -> u128
        ensures { result ≡ 2 ^ bits_in self }
    {
        1 << self.bits()
    }

    // The least size whose records can have `numbers` numbers.
    fn least(numbers: u128) -> Option<RecordSize>
        ensures some { IfSome result (IsLeastSize numbers) }
        ensures none { IfNone result (2 ^ 32 < numbers) }
    {
        if numbers <= RecordSize::Bits24.room() {
            Some(RecordSize::Bits24)
        } else if numbers <= RecordSize::Bits28.room() {
            Some(RecordSize::Bits28)
        } else if numbers <= RecordSize::Bits32.room() {
            Some(RecordSize::Bits32)
        } else {
            None
        }
    }

    // The size that was asked for, or else the least, where its records can have all numbers of a tree.
    pub(crate) fn for_tree(
        asked: Option<RecordSize>,
        node_count: usize,
        data_len: usize,
    ) -> Option<RecordSize>
        ensures some { IfSome result (IsSizeFor asked (numbers_of node_count data_len)) }
        ensures none { IfNone result (most_numbers asked < numbers_of node_count data_len) }
    {
        let numbers = node_count as u128 + SEPARATOR as u128 + data_len as u128;
        match asked {
            None => RecordSize::least(numbers),
            Some(size) if numbers <= size.room() => Some(size),
            Some(_) => None,
        }
    }
}
