//! Walks of several addresses, side by side.
ghost use Rattle.std.specs.Prelude.{◌≡◌, ℕ, ◌*◌, ◌<◌, ◌≤◌, Bool, List, false, nat_lt, MatchOption, get_or, length, slice_index};
ghost use Rattle.mmdb_net.specs.Address.{bits_of_address};
ghost use Rattle.mmdb_tree.specs.Working.{AreWordsOf, BeginsWith};

use crate::nodes::Nodes;
use std::net::IpAddr;

// Nodes of no more bytes are mostly read from a core's caches, where a walk waits less for a read than a walk beside
// others costs: Country files have 8 to 9 MB of nodes, City files 40 MB and more.
const CACHED: usize = 16 << 20;

/// Where the walk of an address is: at a number of the tree, after how many bits of the address.
#[derive(Clone, Copy, Default)]
pub struct FoundLeaf {
    pub number: u32,
    pub taken: u32,
}

impl FoundLeaf {
    /// Where the walk of an address is, by a table in which its first sixteen bits are the index.
    #[inline(always)]
    pub fn entered(numbers: &[u32], depths: &[u8], index: usize) -> FoundLeaf
        requires numbers { index < length numbers.now }
        requires depths { index < length depths.now }
        ensures number { result.number ≡ slice_index numbers.now index }
        ensures taken { result.taken ≡ slice_index depths.now index }
    {
        FoundLeaf {
            number: numbers[index],
            taken: u32::from(depths[index]),
        }
    }
}

// The bit of an address at an index, the highest at 0; none after its last.
#[inline(always)]
fn bit_at(address: IpAddr, index: u8) -> Option<bool>
    requires { index < 128 }
    ensures { MatchOption result
        (length (bits_of_address address) ≤ index)
        (λ right. (index < length (bits_of_address address))
        × (right ≡ get_or (bits_of_address address) index false)) }
{
    match address {
        IpAddr::V4(v4) if index < 32 => Some((v4.to_bits() >> (31 - index)) % 2 == 1),
        IpAddr::V4(_) => None,
        IpAddr::V6(v6) => Some((v6.to_bits() >> (127 - index)) % 2 == 1),
    }
}

// The first 32 bits of an address.
#[inline(always)]
fn first_word(address: IpAddr) -> u32
    ensures { BeginsWith result (bits_of_address address) }
{
    match address {
        IpAddr::V4(v4) => v4.to_bits(),
        IpAddr::V6(v6) => (v6.to_bits() >> 96) as u32,
    }
}

// The first 32 bits of each of these addresses.
fn first_words(addresses: &[IpAddr], words: &mut [u32; 64])
    requires few { length addresses.now ≤ 64 }
    ensures words { AreWordsOf addresses.now words.new }
{
    for i in 0..addresses.len() {
        words[i] = first_word(addresses[i]);
    }
}

// Whether one of these addresses is of IPv4.
fn has_ipv4(addresses: &[IpAddr]) -> bool {
    for address in addresses {
        if address.is_ipv4() {
            return true;
        }
    }
    false
}

// The numbers of all lanes, ascending.
fn all_lanes() -> [u8; 64] {
    let mut lanes = [0; 64];
    for i in 0..64u8 {
        lanes[usize::from(i)] = i;
    }
    lanes
}

impl Nodes<'_> {
    ghost use Rattle.mmdb_tree.specs.Nodes.{tree_in};
    ghost use Rattle.mmdb_tree.specs.Groups.{AllEnd, most_cached};
    ghost use Rattle.mmdb_tree.specs.Tree.{node_bytes};
    ghost use Rattle.mmdb_tree.specs.Working.{AllWalkOn, AlongWords, WalksOn, WalksToEnd, IsBitsOf};

    // One bit more of a walk that has taken `taken` bits and is on a node; any other stays.
    #[inline(always)]
    fn step_word(&self, leaf: FoundLeaf, word: u32, taken: u32) -> FoundLeaf
        requires { taken < 32 }
        ensures { (bits : List Bool) → BeginsWith word bits
            → WalksOn (tree_in self.now) bits leaf result }
    {
        let number = leaf.number as usize;
        if number >= self.node_count || leaf.taken != taken {
            return leaf;
        }
        let right = (word >> (31 - taken)) % 2 == 1;
        FoundLeaf {
            number: self.child(number, right) as u32,
            taken: taken + 1,
        }
    }

    // Where a walk ends.
    #[inline(never)]
    fn finish(&self, leaf: FoundLeaf, address: IpAddr) -> FoundLeaf
        ensures { WalksToEnd (tree_in self.now) (bits_of_address address) leaf result }
    {
        let mut number = leaf.number;
        for taken in leaf.taken..128 {
            if number as usize >= self.node_count {
                return FoundLeaf { number, taken };
            }
            let Some(right) = bit_at(address, taken as u8) else {
                return FoundLeaf { number, taken };
            };
            number = self.child(number as usize, right) as u32;
        }
        FoundLeaf { number, taken: 128 }
    }

    // A step of each walk that is listed and is on a node, and how many these are; they stay on the list. Nothing rests
    // on the list: a walk whose lane is left out is finished by itself.
    #[inline(always)]
    fn step_words(
        &self,
        words: &[u32; 64],
        leaves: &mut [FoundLeaf; 64],
        lanes: &mut [u8; 64],
        count: usize,
        taken: u32,
    ) -> usize
        requires count { count ≤ 64 }
        requires taken { taken < 32 }
        ensures walks { AllWalkOn (AlongWords words.now) (tree_in self.now) leaves.old leaves.new }
        ensures kept { result ≤ count }
    {
        let mut kept = 0;
        for j in 0..count {
            let lane = lanes[j];
            let i = usize::from(lane % 64);
            let leaf = leaves[i];
            let number = leaf.number as usize;
            if number < self.node_count {
                leaves[i] = self.step_word(leaf, words[i], taken);
                lanes[kept] = lane;
                kept += 1;
            }
        }
        kept
    }

    // Goes on with the walks of a group, whose first sixteen bits are taken, side by side and up to their 32nd bit: a
    // step of each, so that none waits for what another one reads.
    #[inline(always)]
    fn walk_group(&self, addresses: &[IpAddr], words: &[u32; 64], leaves: &mut [FoundLeaf; 64])
        requires few { length addresses.now ≤ 64 }
        requires words { AreWordsOf addresses.now words.now }
        ensures { AllWalkOn (IsBitsOf addresses.now) (tree_in self.now) leaves.old leaves.new }
    {
        let mut lanes = all_lanes();
        let mut count = addresses.len();
        for taken in 16..32u32 {
            if count == 0 {
                return;
            }
            count = self.step_words(words, leaves, &mut lanes, count, taken);
        }
    }

    // These nodes, with the size of their records as the caller names it.
    #[inline(always)]
    pub(crate) fn with_size(&self, record_size: u16) -> Nodes<'_>
        requires { record_size ≡ self.now.record_size }
        ensures { tree_in result ≡ tree_in self.now }
    {
        Nodes {
            bytes: self.bytes,
            node_count: self.node_count,
            record_size,
        }
    }

    // Goes on with the walks of a group, by code of its own for each size of records.
    #[inline(always)]
    fn walk_by_size(&self, addresses: &[IpAddr], words: &[u32; 64], leaves: &mut [FoundLeaf; 64])
        requires few { length addresses.now ≤ 64 }
        requires words { AreWordsOf addresses.now words.now }
        ensures { AllWalkOn (IsBitsOf addresses.now) (tree_in self.now) leaves.old leaves.new }
    {
        match self.record_size {
            24 => self.with_size(24).walk_group(addresses, words, leaves),
            28 => self.with_size(28).walk_group(addresses, words, leaves),
            _ => self.walk_group(addresses, words, leaves),
        }
    }

    // Brings each walk of a group to its end; nearly all are there.
    #[inline(always)]
    fn finish_all(&self, addresses: &[IpAddr], leaves: &mut [FoundLeaf; 64])
        requires { length addresses.now ≤ 64 }
        ensures { AllEnd (tree_in self.now) addresses.now leaves.old leaves.new }
    {
        for i in 0..addresses.len() {
            let number = leaves[i].number as usize;
            if number < self.node_count {
                leaves[i] = self.finish(leaves[i], addresses[i]);
            }
        }
    }

    /// Whether these nodes are more bytes than a core's share of the caches, so that walks wait for memory.
    #[inline(always)]
    pub fn outgrow_caches(&self) -> bool
        ensures { result
            ≡ nat_lt most_cached (self.now.node_count * node_bytes self.now.record_size) }
    {
        self.node_count * usize::from(self.record_size / 4) > CACHED
    }

    // Whether walks of these addresses are faster side by side. Those of IPv6 mostly end in the table.
    fn gain_side_by_side(&self, addresses: &[IpAddr]) -> bool {
        self.outgrow_caches() && has_ipv4(addresses)
    }

    /// Goes on with the walks of up to 64 addresses, which have taken their first sixteen bits, to the end of each
    /// ("Search Lookup Algorithm" of the MaxMind DB File Format Specification 2.0). Over nodes that the caches hold, and
    /// where no address is of IPv4, one walk is finished after the other: making words and a list costs more than the
    /// reads that are waited for.
    pub fn go_on(&self, addresses: &[IpAddr], leaves: &mut [FoundLeaf; 64])
        requires { length addresses.now ≤ 64 }
        ensures { AllEnd (tree_in self.now) addresses.now leaves.old leaves.new }
    {
        if self.gain_side_by_side(addresses) {
            let mut words = [0; 64];
            first_words(addresses, &mut words);
            self.walk_by_size(addresses, &words, leaves);
        }
        self.finish_all(addresses, leaves);
    }
}
