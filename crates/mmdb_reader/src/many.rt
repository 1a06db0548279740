//! Lookups of several addresses, whose walks go on side by side.
ghost use Rattle.std.specs.Prelude.{◌≡◌, ℕ, ◌<◌, ◌≤◌, ◌^◌, ◌⊎◌, ◌↔◌, IfOk, IfErr, IfSome, MatchOption, length, slice_index_or, nat_eq, nat_lt};
ghost use Rattle.std.specs.declared.net.ip_addr.IpAddr.{IpAddr as SpecIpAddr};
ghost use Rattle.mmdb_format.specs.Error.{OfDatabase, OfInput, kind_of, FailsAs};
ghost use Rattle.mmdb_net.specs.Address.{bits_of_address};

use crate::lookup_result::{LookupResult, NumberedAddress};
use crate::reader::{Leaf, Reader};
use mmdb_format::error::MaxMindDbError;
use mmdb_tree::FoundLeaf;
use std::convert::AsSlice;
use std::net::IpAddr;

// Where the walk of an address ends: at a number of the tree, after how many bits of the address.
#[derive(Clone, Copy)]
pub(crate) struct Reached {
    pub(crate) number: usize,
    pub(crate) taken: usize,
}

impl Reached {
    #[inline(always)]
    pub(crate) fn at(leaf: FoundLeaf) -> Reached
        ensures { result ≡ record { number = leaf.number; taken = leaf.taken } }
    {
        Reached {
            number: leaf.number as usize,
            taken: leaf.taken as usize,
        }
    }

    #[inline(always)]
    fn leaf(self) -> FoundLeaf
        requires { (self.number < 2 ^ 32) × (self.taken < 2 ^ 32) }
        ensures { result ≡ record { number = self.number; taken = self.taken } }
    {
        FoundLeaf {
            number: self.number as u32,
            taken: self.taken as u32,
        }
    }
}

// How many addresses are walked side by side.
const GROUP: usize = 64;

impl<S: AsSlice<u8> + Drop> Reader<S> {
    ghost use Rattle.mmdb_reader.specs.Found.{database_asked, leaf_of, offset_found, shown_as_ipv4};
    ghost use Rattle.mmdb_reader.specs.File.{tree_of, tree_len};
    ghost use Rattle.mmdb_tree.specs.Groups.{most_cached};
    ghost use Rattle.mmdb_tree.specs.Descents.{Walks};
    ghost use Rattle.mmdb_reader.specs.Lookup.{CanAsk, Answers, IsInvalidAt, outcome_at};
    ghost use Rattle.mmdb_reader.specs.Many.{IsLookup};
    ghost use Rattle.mmdb_reader.specs.Working.{IsLeafAt, block_of};
    ghost use Rattle.mmdb_reader.specs.Shown.{is_shown_as_ipv4};
    ghost use Rattle.mmdb_reader.specs.Many.{HasWalk, IsFoundFor, first_number};

    /// Whether the search tree has more than 16 MiB, a core's share of the caches: then lookups of many addresses at once
    /// are faster than one by one.
    #[inline(always)]
    pub fn outgrows_caches(&self) -> bool
        ensures { result ≡ nat_lt most_cached (tree_len self.now) }
    {
        self.nodes().outgrow_caches()
    }

    // Where the walks of addresses end, one walk after the other.
    fn find_each(&self, addresses: &[IpAddr], leaves: &mut [FoundLeaf])
        requires { length leaves.old ≡ length addresses.now }
        ensures length { length leaves.new ≡ length leaves.old }
        ensures found { (i : ℕ) (a : SpecIpAddr) (d : _) → i < length addresses.now
            → IsFoundFor self.now (slice_index_or addresses.now i a)
            (slice_index_or leaves.new i d) }
    {
        for i in 0..addresses.len() {
            leaves[i] = self.walk_one(&addresses[i]).leaf();
        }
    }

    // Where the walks of up to 64 addresses end.
    fn walk_group(&self, addresses: &[IpAddr], leaves: &mut [FoundLeaf; 64])
        requires { length addresses.now ≤ 64 }
        ensures { (i : ℕ) (a : SpecIpAddr) (d : _) → i < length addresses.now
            → IsFoundFor self.now (slice_index_or addresses.now i a)
            (slice_index_or leaves.new i d) }
    {
        for i in 0..addresses.len() {
            leaves[i] = self.begin(addresses[i]);
        }
        self.nodes().go_on(addresses, leaves);
    }

    /// Finds the leaves of the first addresses, up to 64 of them, and says of how many.
    pub(crate) fn find_group(&self, addresses: &[IpAddr], leaves: &mut [FoundLeaf; 64]) -> usize
        ensures some { 0 < length addresses.now → 0 < result }
        ensures few { result ≤ 64 }
        ensures within { result ≤ length addresses.now }
        ensures found { (i : ℕ) (a : SpecIpAddr) (d : _) → i < result
            → IsFoundFor self.now (slice_index_or addresses.now i a)
            (slice_index_or leaves.new i d) }
    {
        let count = if addresses.len() < GROUP {
            addresses.len()
        } else {
            GROUP
        };
        self.walk_group(&addresses[..count], leaves);
        count
    }

    // Where the walks of addresses end, up to 64 of which are walked together.
    fn find_groups(&self, addresses: &[IpAddr], leaves: &mut [FoundLeaf])
        requires { length leaves.old ≡ length addresses.now }
        ensures length { length leaves.new ≡ length leaves.old }
        ensures found { (i : ℕ) (a : SpecIpAddr) (d : _) → i < length addresses.now
            → IsFoundFor self.now (slice_index_or addresses.now i a)
            (slice_index_or leaves.new i d) }
    {
        let mut group = [FoundLeaf::default(); GROUP];
        let mut done = 0;
        while done < addresses.len() {
            let count = self.find_group(&addresses[done..], &mut group);
            leaves[done..done + count].copy_from_slice(&group[..count]);
            done += count;
        }
    }

    /// Where the walks of addresses end, for `lookup_found`: each in its place of `leaves`. Both kinds may be mixed. In a
    /// tree that outgrows the caches up to 64 of them are walked together, side by side where one is of IPv4, and else one
    /// is walked after the other. No memory is taken.
    pub fn find_leaves(&self, addresses: &[IpAddr], leaves: &mut [FoundLeaf])
        requires { length leaves.old ≡ length addresses.now }
        ensures length { length leaves.new ≡ length leaves.old }
        ensures found { (i : ℕ) (a : SpecIpAddr) (d : _) → i < length addresses.now
            → IsFoundFor self.now (slice_index_or addresses.now i a)
            (slice_index_or leaves.new i d) }
    {
        if self.outgrows_caches() {
            self.find_groups(addresses, leaves);
        } else {
            self.find_each(addresses, leaves);
        }
    }

    // Where the first sixteen bits of an address lead, from a table.
    #[inline(always)]
    fn begin(&self, address: IpAddr) -> FoundLeaf
        ensures { HasWalk self.now address
            → Walks (tree_of self.now) (first_number self.now address) (bits_of_address address)
            result.taken result.number }
    {
        match address {
            IpAddr::V4(v4) if self.ipv4_start < self.metadata.node_count as usize => {
                let table = &self.ipv4_table;
                FoundLeaf::entered(&table.numbers, &table.depths, (v4.to_bits() >> 16) as usize)
            }
            IpAddr::V6(v6) if self.metadata.ip_version == 6 => {
                let table = &self.ipv6_table;
                FoundLeaf::entered(
                    &table.numbers,
                    &table.depths,
                    (v6.to_bits() >> 112) as usize,
                )
            }
            _ => FoundLeaf {
                number: self.metadata.node_count,
                taken: 0,
            },
        }
    }

    /// Where the walk of an address ends.
    #[inline(always)]
    pub(crate) fn walk_one(&self, address: &IpAddr) -> Reached
        ensures found { IsFoundFor self.now address.now
            (record { number = result.number; taken = result.taken }) }
        ensures bound { (result.number < 2 ^ 32) × (result.taken < 2 ^ 32) }
    {
        let nodes = self.nodes();
        match address {
            IpAddr::V4(v4) if self.ipv4_start < nodes.node_count => {
                let table = &self.ipv4_table;
                let walk = nodes.descend_ipv4(&table.numbers, &table.depths, v4.to_bits());
                Reached {
                    number: walk.number,
                    taken: walk.taken,
                }
            }
            IpAddr::V6(v6) if self.metadata.ip_version == 6 => {
                let table = &self.ipv6_table;
                let walk = nodes.descend_ipv6(&table.numbers, &table.depths, v6.to_bits());
                Reached {
                    number: walk.number,
                    taken: walk.taken,
                }
            }
            _ => Reached {
                number: nodes.node_count,
                taken: 0,
            },
        }
    }

    /// What `lookup` answers for an address, from where its walk was found to end.
    #[inline(always)]
    pub(crate) fn answer_found(
        &self,
        address: &IpAddr,
        found: Reached,
    ) -> Result<LookupResult<'_, S>, MaxMindDbError>
        requires { IsFoundFor self.now address.now
            (record { number = found.number; taken = found.taken }) }
        ensures { IsLookup self.now address.now result }
    {
        let leaf = self.leaf_found(address, found);
        self.answer_of(address, leaf)
    }

    /// What `lookup` answers for an address, from where its walk was found to end.
    #[inline(always)]
    pub fn lookup_found(
        &self,
        address: IpAddr,
        leaf: FoundLeaf,
    ) -> Result<LookupResult<'_, S>, MaxMindDbError>
        requires found { IsFoundFor self.now address leaf }
        ensures answered { IfOk result
            (λ r. Answers self.now address (leaf_of r) (outcome_at (offset_found r))) }
        ensures shown { IfOk result (λ r. shown_as_ipv4 r ≡ is_shown_as_ipv4 self.now address) }
        ensures database { IfOk result (λ r. database_asked r ≡ self.now) }
        ensures of_input { FailsAs OfInput result ↔ ¬ (CanAsk self.now address) }
        ensures of_database { FailsAs OfDatabase result ↔ IsInvalidAt self.now address }
        ensures no_other { IfErr result (λ e. (kind_of e ≡ OfInput) ⊎ (kind_of e ≡ OfDatabase)) }
    {
        self.answer_found(&address, Reached::at(leaf))
    }

    // The leaf on an address's bits, or none where IPv6 is asked of an IPv4 database.
    #[inline(always)]
    fn leaf_found(&self, address: &IpAddr, found: Reached) -> Option<Leaf>
        requires found { IsFoundFor self.now address.now
            (record { number = found.number; taken = found.taken }) }
        ensures found { MatchOption result
            (¬ (CanAsk self.now address.now))
            (λ leaf. IsLeafAt self.now address.now (block_of self.now leaf) leaf.number) }
        ensures shown { IfSome result
            (λ leaf. nat_eq leaf.address.width 32 ≡ is_shown_as_ipv4 self.now address.now) }
    {
        let nodes = self.nodes();
        match address {
            IpAddr::V4(_) if self.ipv4_start >= nodes.node_count => Some(Leaf {
                number: self.ipv4_start,
                address: NumberedAddress::ipv6(0),
                prefix: usize::from(self.ipv4_depth),
            }),
            IpAddr::V4(v4) => Some(Leaf {
                number: found.number,
                address: NumberedAddress::ipv4(v4.to_bits()),
                prefix: found.taken,
            }),
            IpAddr::V6(_) if self.metadata.ip_version != 6 => None,
            IpAddr::V6(v6) => Some(Leaf {
                number: found.number,
                address: NumberedAddress::ipv6(v6.to_bits()),
                prefix: found.taken,
            }),
        }
    }
}
