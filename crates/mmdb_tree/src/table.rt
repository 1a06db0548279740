//! Tables of the first sixteen bits of addresses.
ghost use Rattle.std.specs.Prelude.{◌≡◌, ℕ, ◌+◌, ◌^◌, ◌<◌, ◌≤◌, true, false, IfOk, length, []};

use crate::nodes::{Descent, Nodes};
use std::alloc::{AllocError, Global};

/// How many bits of an address a table is for.
const TABLE_BITS: u8 = 16;

/// Where the walks of addresses are after their first sixteen bits, or where they left the nodes before: for each string of
/// sixteen bits, in the order of the numbers that they give, a number of the tree, and after how many bits it is reached. The
/// two are kept apart, since only walks that have left the nodes ask for the second.
#[derive(Drop)]
pub struct Table {
    pub numbers: Vec<u32>,
    pub depths: Vec<u8>,
}

impl Table {
    /// A table without entries.
    pub fn empty(alloc: Global) -> Table
        ensures { (result.numbers.items ≡ []) × (result.depths.items ≡ []) }
    {
        Table {
            numbers: Vec::new(alloc),
            depths: Vec::new(alloc),
        }
    }
}

// A number of the tree, and after how many bits it is reached.
#[derive(Clone, Copy)]
struct Entry {
    number: u32,
    taken: u8,
}

impl Entry {
    // Made of its parts, and so without the bytes that fill it up.
    #[inline(always)]
    fn new(number: u32, taken: u8) -> Entry
        ensures { (result.number ≡ number) × (result.taken ≡ taken) }
    {
        Entry { number, taken }
    }
}

impl Nodes<'_> {
    ghost use Rattle.mmdb_tree.specs.Nodes.{tree_in, EndsByTable, ReadsByTable};
    ghost use Rattle.mmdb_tree.specs.Table.{IsFull, IsTable};
    ghost use Rattle.mmdb_tree.specs.Working.{Follows, HasLevel};
    ghost use Rattle.mmdb_net.specs.Bits.{bits_of};

    // Where a walk that has come to an entry goes on by a bit of 0, and by one of 1. A walk that has left the nodes stays
    // where it is.
    #[inline(always)]
    fn halves(&self, entry: Entry, taken: u8) -> (Entry, Entry)
        requires { taken < 16 }
        ensures lower { Follows (tree_in self.now) taken false entry result.0 }
        ensures upper { Follows (tree_in self.now) taken true entry result.1 }
    {
        let (number, before) = (entry.number, entry.taken);
        let node = number as usize;
        if node >= self.node_count {
            return (Entry::new(number, before), Entry::new(number, before));
        }
        let lower = Entry::new(self.left(node) as u32, taken + 1);
        let upper = Entry::new(self.right(node) as u32, taken + 1);
        (lower, upper)
    }

    // Has the first entries for strings of one bit more, from the last back: both halves of an entry go where no entry
    // is that is still to be read. No read waits for another.
    #[inline(always)]
    fn spread_level(&self, numbers: &mut [u32], depths: &mut [u8], taken: u8)
        requires taken { taken < 16 }
        requires numbers { length numbers.old ≡ 65536 }
        requires depths { length depths.old ≡ 65536 }
        requires node_count { self.now.node_count < 2 ^ 32 }
        ensures level { (start : ℕ)
            → HasLevel (tree_in self.now) start taken numbers.old depths.old
            → HasLevel (tree_in self.now) start (taken + 1) numbers.new depths.new }
        ensures numbers { length numbers.new ≡ 65536 }
        ensures depths { length depths.new ≡ 65536 }
    {
        let mut left = 1usize << taken;
        while left > 0 {
            left -= 1;
            let entry = Entry::new(numbers[left], depths[left]);
            let (lower, upper) = self.halves(entry, taken);
            numbers[2 * left] = lower.number;
            depths[2 * left] = lower.taken;
            numbers[2 * left + 1] = upper.number;
            depths[2 * left + 1] = upper.taken;
        }
    }

    // Fills a table over nodes whose size of records is known where it is called.
    #[inline(always)]
    fn fill_levels(&self, numbers: &mut [u32], depths: &mut [u8], start: usize)
        requires numbers { length numbers.old ≡ 65536 }
        requires depths { length depths.old ≡ 65536 }
        requires start { start < self.now.node_count }
        requires node_count { self.now.node_count < 2 ^ 32 }
        ensures { IsFull (tree_in self.now) start numbers.new depths.new }
    {
        numbers[0] = start as u32;
        depths[0] = 0;
        for taken in 0..TABLE_BITS {
            self.spread_level(numbers, depths, taken);
        }
    }

    /// Fills a table of the walks that begin at a node: for each string of sixteen bits, in the order of the numbers that
    /// they give, where the walk is and after how many bits. It is made in place, a level of the tree at a time, by code for
    /// each size of records.
    pub fn fill_table(&self, numbers: &mut [u32], depths: &mut [u8], start: usize)
        requires numbers { length numbers.old ≡ 65536 }
        requires depths { length depths.old ≡ 65536 }
        requires start { start < self.now.node_count }
        requires node_count { self.now.node_count < 2 ^ 32 }
        ensures { IsFull (tree_in self.now) start numbers.new depths.new }
    {
        match self.record_size {
            24 => self.with_size(24).fill_levels(numbers, depths, start),
            28 => self.with_size(28).fill_levels(numbers, depths, start),
            _ => self.with_size(32).fill_levels(numbers, depths, start),
        }
    }

    /// The table of the walks that begin at a number, where that is a node. Else one without entries. It fails only where
    /// there is no memory.
    pub fn table(&self, alloc: Global, start: usize) -> Result<Table, AllocError>
        requires { self.now.node_count < 2 ^ 32 }
        ensures { IfOk result (λ table. IsTable (tree_in self.now) start table) }
    {
        if start >= self.node_count {
            return Ok(Table::empty(alloc));
        }
        let mut numbers = Vec::from_elem(alloc, 0, 1 << TABLE_BITS)?;
        let mut depths = Vec::from_elem(alloc, 0, 1 << TABLE_BITS)?;
        self.fill_table(&mut numbers, &mut depths, start);
        Ok(Table { numbers, depths })
    }

    /// Walks along the 32 bits of an IPv4 address, for whose first sixteen a table has where they lead ("Search
    /// Lookup Algorithm" of the MaxMind DB File Format Specification 2.0). Of the nodes only those after the table's
    /// entry are counted as read.
    #[inline(always)]
    pub fn descend_ipv4(&self, numbers: &[u32], depths: &[u8], bits: u32) -> Descent
        requires numbers { length numbers.now ≡ 65536 }
        requires depths { length depths.now ≡ 65536 }
        ensures reached { EndsByTable (tree_in self.now) numbers.now depths.now
            (bits_of 32 bits) result }
        ensures bound { (result.number < 2 ^ 32) × (result.taken < 512) }
        ensures read { ReadsByTable (tree_in self.now) numbers.now depths.now result }
    {
        let index = (bits >> 16) as usize;
        let number = numbers[index] as usize;
        if number >= self.node_count {
            return Descent {
                number,
                taken: usize::from(depths[index]),
                read: 0,
            };
        }
        let rest = self.descend(number, u64::from(bits), 16);
        Descent {
            number: rest.number,
            taken: usize::from(TABLE_BITS) + rest.taken,
            read: rest.read,
        }
    }

    /// Walks along the 128 bits of an IPv6 address, for whose first sixteen a table has where they lead. Of the nodes
    /// only those after the table's entry are counted as read. Most walks end in the table, and none of these asks for the
    /// other bits.
    #[inline(always)]
    pub fn descend_ipv6(&self, numbers: &[u32], depths: &[u8], bits: u128) -> Descent
        requires numbers { length numbers.now ≡ 65536 }
        requires depths { length depths.now ≡ 65536 }
        ensures reached { EndsByTable (tree_in self.now) numbers.now depths.now
            (bits_of 128 bits) result }
        ensures bound { (result.number < 2 ^ 32) × (result.taken < 512) }
        ensures read { ReadsByTable (tree_in self.now) numbers.now depths.now result }
    {
        let index = (bits >> 112) as usize;
        let number = numbers[index] as usize;
        if number >= self.node_count {
            return Descent {
                number,
                taken: usize::from(depths[index]),
                read: 0,
            };
        }
        let high = self.descend(number, (bits >> 64) as u64, 48);
        let low = self.descend(high.number, (bits % (1 << 64)) as u64, 64);
        Descent {
            number: low.number,
            taken: usize::from(TABLE_BITS) + high.taken + low.taken,
            read: high.read + low.read,
        }
    }
}
