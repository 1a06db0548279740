//! The nodes of the search tree, and the walk over them.
ghost use Rattle.std.specs.Prelude.{◌≡◌, ℕ, ◌+◌, ◌*◌, ◌/◌, ◌%◌, ◌^◌, ◌<◌, ◌≤◌, ◌==◌, if◌then◌else◌, length, slice_index, IsTrue, true, false};
ghost use Rattle.mmdb_tree.specs.Tree.{is_record_size, node_bytes, three_bytes, four_bytes, child};

/// The number that a node has for a bit of an address, where `bytes` begin with the nodes of a tree
/// ("Node Layout" of the MaxMind DB File Format Specification 2.0). A record has `record_size` bits,
/// and `side` is the bit.
#[tactic(auto, unfolding(crate::specs::Tree::child))]
pub fn read_node(bytes: &[u8], record_size: u16, node: usize, side: usize) -> usize
    requires size { IsTrue (is_record_size record_size) }
    requires side { side < 2 }
    requires within { (node + 1) * node_bytes record_size ≤ length bytes.now }
    ensures number { result ≡ child bytes.now record_size node (side == 1) }
    ensures bound { result < 2 ^ 32 }
{
    match record_size {
        24 => number_at(0, bytes, node * 6 + side * 3),
        28 => {
            let at = node * 7;
            let middle = bytes[at + 3];
            if side == 0 {
                number_at(middle >> 4, bytes, at)
            } else {
                number_at(middle & 0x0f, bytes, at + 4)
            }
        }
        32 => {
            let at = node * 8 + side * 4;
            number_at(bytes[at], bytes, at + 1)
        }
        _ => unreachable!(),
    }
}

// The number with this highest byte, and the three bytes at a place below it.
fn number_at(high: u8, bytes: &[u8], at: usize) -> usize
    requires { at + 3 ≤ length bytes.now }
    ensures number { result ≡ 2 ^ 24 * high + three_bytes bytes.now at }
    ensures bound { result < 2 ^ 32 }
{
    u32::from_be_bytes([high, bytes[at], bytes[at + 1], bytes[at + 2]]) as usize
}

// The number in the four bytes at a place, the highest first.
#[inline(always)]
fn word_at(bytes: &[u8], at: usize) -> u32
    requires { at + 4 ≤ length bytes.now }
    ensures value { result ≡ four_bytes bytes.now at }
    ensures bytes { (k : ℕ) → k < 4 → slice_index bytes.now (at + k) < 256 }
{
    u32::from_be_bytes([bytes[at], bytes[at + 1], bytes[at + 2], bytes[at + 3]])
}

// The highest four bits of a record of 28 bits, in the middle byte of a node. Without a branch, since a bit of an
// address is hard to predict.
#[inline(always)]
fn high_bits(middle: u8, right: bool) -> u32
    ensures right { right ≡ true → result ≡ middle % 16 }
    ensures left { right ≡ false → result ≡ middle / 16 }
{
    (u32::from(middle) << (u32::from(right) * 4)) % 256 / 16
}

/// The nodes of a tree, in the bytes that begin with them; the separator's sixteen bytes follow ("Binary Search Tree
/// Section" of the MaxMind DB File Format Specification 2.0). A record has `record_size` bits, a node two records.
#[derive(Clone, Copy)]
pub struct Nodes<'a> {
    pub bytes: &'a [u8],
    pub node_count: usize,
    pub record_size: u16,
    pub ghost size: { IsTrue (is_record_size record_size) },
    pub ghost room: { node_count * node_bytes record_size + 16 ≤ length bytes.now },
}

/// Where a walk ended: at a number of the tree, after how many bits, and how many nodes were read for it.
#[derive(Clone, Copy)]
pub struct Descent {
    pub number: usize,
    pub taken: usize,
    pub read: usize,
}

impl Nodes<'_> {
    ghost use Rattle.mmdb_tree.specs.Nodes.{tree_in, EndsAt};
    ghost use Rattle.mmdb_tree.specs.Tree.{step};
    ghost use Rattle.mmdb_net.specs.Bits.{bits_of, zero_bits};

    /// Walks from a number along the lowest `width` bits of an address, the highest of them first, until it
    /// leaves the nodes or has taken all bits ("Search Lookup Algorithm" of the MaxMind DB File Format
    /// Specification 2.0). A walk from a number that is no node takes no bit.
    #[inline(always)]
    pub fn descend(&self, start: usize, address: u64, width: usize) -> Descent
        requires width { width ≤ 64 }
        ensures reached { EndsAt (tree_in self.now) start (bits_of width address) result }
        ensures bound { start < 2 ^ 32 → result.number < 2 ^ 32 }
        ensures within { result.taken ≤ width }
        ensures read { result.read ≡ result.taken }
    {
        let mut number = start;
        for taken in 0..width {
            if number >= self.node_count {
                return Descent {
                    number,
                    taken,
                    read: taken,
                };
            }
            let right = (address >> (width - 1 - taken)) % 2 == 1;
            number = self.child(number, right);
        }
        Descent {
            number,
            taken: width,
            read: width,
        }
    }

    /// The number that a node has for a bit of an address, the left one for 0 ("Node Layout" of the specification), from
    /// a load of four bytes: the byte after a record of three is one of the tree or of the separator.
    #[tactic(auto, unfolding(crate::specs::Tree::step, crate::specs::Tree::child))]
    #[inline(always)]
    pub fn child(&self, node: usize, right: bool) -> usize
        requires { node < self.now.node_count }
        ensures bound { result < 2 ^ 32 }
        ensures value { result ≡ step (tree_in self.now) node right }
    {
        let side = usize::from(right);
        let number = match self.record_size {
            24 => word_at(self.bytes, node * 6 + side * 3) >> 8,
            28 => {
                let at = node * 7;
                let low = word_at(self.bytes, at + side * 4) >> 8;
                low + high_bits(self.bytes[at + 3], right) * (1 << 24)
            }
            32 => word_at(self.bytes, node * 8 + side * 4),
            _ => unreachable!(),
        };
        number as usize
    }

    /// The left number of a node, as `child` has it for 0. The four highest bits of a record of 28 bits are in the last
    /// byte of the load.
    #[tactic(auto, unfolding(crate::specs::Tree::step, crate::specs::Tree::child))]
    #[inline(always)]
    pub fn left(&self, node: usize) -> usize
        requires { node < self.now.node_count }
        ensures bound { result < 2 ^ 32 }
        ensures value { result ≡ step (tree_in self.now) node false }
    {
        let number = match self.record_size {
            24 => word_at(self.bytes, node * 6) >> 8,
            28 => {
                let word = word_at(self.bytes, node * 7);
                (word >> 8) + word % 256 / 16 * (1 << 24)
            }
            32 => word_at(self.bytes, node * 8),
            _ => unreachable!(),
        };
        number as usize
    }

    /// The right number of a node, as `child` has it for 1. A record of 28 bits is the end of one load.
    #[tactic(auto, unfolding(crate::specs::Tree::step, crate::specs::Tree::child))]
    #[inline(always)]
    pub fn right(&self, node: usize) -> usize
        requires { node < self.now.node_count }
        ensures bound { result < 2 ^ 32 }
        ensures value { result ≡ step (tree_in self.now) node true }
    {
        let number = match self.record_size {
            24 => word_at(self.bytes, node * 6 + 3) >> 8,
            28 => word_at(self.bytes, node * 7 + 3) % (1 << 28),
            32 => word_at(self.bytes, node * 8 + 4),
            _ => unreachable!(),
        };
        number as usize
    }

    /// The right or the left number of a node, as `child` has it, for a caller who knows the side: then it is no work to
    /// choose it.
    #[inline(always)]
    pub fn half(&self, node: usize, right: bool) -> usize
        requires { node < self.now.node_count }
        ensures bound { result < 2 ^ 32 }
        ensures value { result ≡ step (tree_in self.now) node right }
    {
        if right {
            self.right(node)
        } else {
            self.left(node)
        }
    }

    /// Where IPv4 begins: after the 96 zero bits of an IPv6 database, as far as the walk takes them, and at node 0
    /// of an IPv4 one ("IPv4 addresses in an IPv6 tree" of the specification). The database is of IPv6 where
    /// `ip_version` is 6.
    pub fn ipv4_start(&self, ip_version: u16) -> Descent
        ensures reached { let bits = zero_bits (if ip_version == 6 then 96 else 0) in
            EndsAt (tree_in self.now) 0 bits result }
        ensures within { result.taken ≤ 96 }
    {
        if ip_version == 6 {
            let first = self.descend(0, 0, 32);
            let then = self.descend(first.number, 0, 64);
            Descent {
                number: then.number,
                taken: first.taken + then.taken,
                read: first.read + then.read,
            }
        } else {
            self.descend(0, 0, 0)
        }
    }
}
