//! Lookups in databases over bytes and tables that C holds.
ghost use Rattle.std.specs.Prelude.{◌≡◌, ◌<◌, ◌≤◌, ◌^◌, ◌+◌, ◌*◌, ◌≢◌, ◌==◌, if◌then◌else◌, length, true, false};
ghost use Rattle.mmdb_net.specs.Bits.{bits_of};
ghost use Rattle.mmdb_tree.specs.Descents.{Descends};
ghost use Rattle.mmdb_tree.specs.Nodes.{tree_in};
ghost use Rattle.mmdb_reader.specs.File.{Database};
ghost use Rattle.mmdb_reader.specs.Lookup.{outcome_of};
ghost use Rattle.mmdb_c.specs.Opened.{IsOpened, IsOf, IsOfFile, ReportsIpv4, ReportsIpv6, HasNoIpv6, IsChild};
ghost use Rattle.mmdb_c.specs.Opened.{outcome_reported, tree};

use crate::status::{CORRUPT_TREE, FOUND, IPV6_IN_IPV4, NO_DATA};
use mmdb_reader::Nodes;
use mmdb_tree::TreeRecord;

/// The numbers of a database: of its metadata, where its data section and its marker begin, and where IPv4
/// begins in its tree, after how many bits.
#[repr(C)]
#[derive(Clone, Copy)]
pub struct Facts {
    pub node_count: usize,
    pub ipv4_start: usize,
    pub data_start: usize,
    pub marker: usize,
    pub build_epoch: u64,
    pub record_size: u16,
    pub ip_version: u16,
    pub major_version: u16,
    pub minor_version: u16,
    pub ipv4_depth: u8,
}

/// A database that was opened. C keeps the bytes, the tables and the numbers as `mmdb_c_open` left them.
#[repr(C)]
pub struct Db<'a> {
    pub facts: Facts,
    pub file: &'a [u8],
    pub ipv4_numbers: &'a [u32],
    pub ipv4_depths: &'a [u8],
    pub ipv6_numbers: &'a [u32],
    pub ipv6_depths: &'a [u8],
    ghost is_of: { IsOfFile file.now facts },
    ghost opened: { IsOpened file.now facts
        ipv4_numbers.now ipv4_depths.now ipv6_numbers.now ipv6_depths.now },
}

/// What a lookup found: the status 0 and the offset of a value in the data section, 1 where the address has
/// no data, 2 where its leaf leads nowhere, or 11; and how many bits the leaf has.
#[repr(C)]
#[derive(Clone, Copy)]
pub struct Found {
    pub status: u32,
    pub netmask: u32,
    pub offset: usize,
}

// Where a walk along an address ended, and after how many bits.
#[derive(Clone, Copy)]
struct ReachedLeaf {
    number: usize,
    taken: usize,
}

impl Db<'_> {
    #[inline(always)]
    pub(crate) fn nodes(&self) -> Nodes<'_>
        ensures tree { tree_in result ≡ tree self.now.file.now self.now.facts }
        ensures count { result.node_count ≡ self.now.facts.node_count }
    {
        Nodes {
            bytes: self.file,
            node_count: self.facts.node_count,
            record_size: self.facts.record_size,
        }
    }

    // Where an IPv4 address leads, where IPv4 begins on a node.
    #[inline(always)]
    fn leaf_ipv4(&self, bits: u32) -> ReachedLeaf
        requires { self.now.facts.ipv4_start < self.now.facts.node_count }
        ensures reached { let facts = self.now.facts in
            Descends (tree self.now.file.now facts) facts.ipv4_start (bits_of 32 bits)
            result.taken result.number }
        ensures few { result.taken ≤ 32 }
    {
        let nodes = self.nodes();
        let descent = nodes.descend_ipv4(self.ipv4_numbers, self.ipv4_depths, bits);
        ReachedLeaf {
            number: descent.number,
            taken: descent.taken,
        }
    }

    #[inline(always)]
    fn leaf_ipv6(&self, bits: u128) -> ReachedLeaf
        requires { self.now.facts.ip_version ≡ 6 }
        ensures reached { let facts = self.now.facts in
            Descends (tree self.now.file.now facts) 0 (bits_of 128 bits)
            result.taken result.number }
        ensures few { result.taken ≤ 128 }
    {
        let nodes = self.nodes();
        let descent = nodes.descend_ipv6(self.ipv6_numbers, self.ipv6_depths, bits);
        ReachedLeaf {
            number: descent.number,
            taken: descent.taken,
        }
    }

    // How many zero bits come before an IPv4 address.
    #[inline(always)]
    pub(crate) fn before_ipv4(&self) -> u32
        ensures value { result ≡ (if self.now.facts.ip_version == 6 then 96 else 0) }
        ensures few { result ≤ 96 }
    {
        if self.facts.ip_version == 6 { 96 } else { 0 }
    }

    // What a number of the tree stands for.
    #[inline(always)]
    #[tactic(auto, unfolding(mmdb_reader::specs::Lookup::outcome_of))]
    pub(crate) fn found(&self, number: usize, netmask: u32) -> Found
        ensures status { result.status ≤ 2 }
        ensures outcome { (db : Database) →
            IsOf db self.now.facts → outcome_reported result ≡ outcome_of db number }
        ensures netmask { result.netmask ≡ netmask }
    {
        let data_len = self.facts.marker - self.facts.data_start;
        let (status, offset) = match TreeRecord::of(number, self.facts.node_count, data_len) {
            TreeRecord::Node(_) => (NO_DATA, 0),
            TreeRecord::Empty => (NO_DATA, 0),
            TreeRecord::Data(offset) => (FOUND, offset),
            TreeRecord::Invalid => (CORRUPT_TREE, 0),
        };
        Found {
            status,
            netmask,
            offset,
        }
    }
}

/// What the database has for an IPv4 address, whose bits spell a number.
#[unsafe(no_mangle)]
pub extern "C" fn mmdb_c_lookup_v4(db: &Db<'_>, bits: u32) -> Found
    ensures { ReportsIpv4 db.now.file.now bits result }
{
    if db.facts.ipv4_start >= db.facts.node_count {
        return db.found(db.facts.ipv4_start, u32::from(db.facts.ipv4_depth));
    }
    let leaf = db.leaf_ipv4(bits);
    db.found(leaf.number, db.before_ipv4() + leaf.taken as u32)
}

/// What the database has for an IPv6 address, whose bits come in two halves of 64. The status is 11 where it
/// has IPv4 alone.
#[unsafe(no_mangle)]
pub extern "C" fn mmdb_c_lookup_v6(db: &Db<'_>, high: u64, low: u64) -> Found
    ensures answered { ReportsIpv6 db.now.file.now (high * 2 ^ 64 + low) result }
    ensures not_asked { HasNoIpv6 db.now.file.now → result.status ≡ 11 }
{
    if db.facts.ip_version != 6 {
        return Found {
            status: IPV6_IN_IPV4,
            netmask: 0,
            offset: 0,
        };
    }
    let leaf = db.leaf_ipv6(u128::from(high) * (1 << 64) + u128::from(low));
    db.found(leaf.number, leaf.taken as u32)
}

/// The numbers that a node has for the bits 0 and 1, each a node or a leaf's number.
#[repr(C)]
#[derive(Clone, Copy)]
pub struct Children {
    pub left: usize,
    pub right: usize,
}

/// Both numbers of a node.
#[unsafe(no_mangle)]
pub extern "C" fn mmdb_c_children(db: &Db<'_>, node: usize) -> Children
    requires { node < db.now.facts.node_count }
    ensures left { IsChild db.now.file.now node false result.left }
    ensures right { IsChild db.now.file.now node true result.right }
{
    let nodes = db.nodes();
    Children {
        left: nodes.left(node),
        right: nodes.right(node),
    }
}
