//! The networks of a database, one after another.
ghost use Rattle.std.specs.Prelude.{◌≡◌, ◌+◌, ◌≤◌, ◌<◌, ◌⊎◌, ◌↔◌, [], ◌∷◌, ◌++◌, IfOk, IfErr, MatchOption, Some, option_map, take};
ghost use Rattle.std.specs.Result.{result_ok};
ghost use Rattle.std.specs.Vec.{vec_capacity};
ghost use Rattle.mmdb_format.specs.Error.{OfDatabase, OfInput, OfMemory, kind_of, FailsAs};
ghost use Rattle.mmdb_net.specs.Bits.{bits_of, bit_of};
ghost use Rattle.mmdb_net.specs.Network.{ip_of, prefix_of};
ghost use Rattle.mmdb_reader.specs.File.{width};
ghost use Rattle.mmdb_reader.specs.Positions.{IsStack, HidesAliases};

use crate::lookup_result::{LookupResult, NumberedAddress};
use crate::offsets::counted_from_start;
use crate::options::WithinOptions;
use crate::positions::{Position, ROOT};
use crate::reader::Reader;
use crate::walked::DatabaseWalker;
use mmdb_decode::peek::empty_container;
use mmdb_format::error::MaxMindDbError;
use mmdb_format::message::{Message, Text};
use mmdb_net::IpNetwork;
use mmdb_tree::TreeRecord;
use std::alloc::Global;
use std::convert::AsSlice;
use std::net::{IpAddr, Ipv4Addr, Ipv6Addr};

/// The networks of a range that are still to come, in ascending order.
///
/// A leaf that is faulty is one `InvalidDatabase` in its place, and the others come after it. No item
/// takes memory.
#[derive(Drop)]
pub struct Within<'de, S: AsSlice<u8> + Drop> {
    pub(crate) walker: DatabaseWalker<'de, S>,
    pub(crate) options: WithinOptions,
    pub(crate) hidden: usize,
    pub(crate) stack: Vec<Position>,
    pub(crate) ghost placed: { IsStack walker.reader.now (vec_capacity stack) stack.items },
    pub(crate) ghost hides: { HidesAliases walker.reader.now options hidden },
}

// The first bits of a range in a database, with zeros before IPv4.
#[derive(Clone, Copy)]
struct RangeBits {
    address: u128,
    prefix: u8,
}

impl RangeBits {
    // Whether a bit of the address is set, counted from the lowest.
    fn has_bit(&self, place: usize) -> bool
        requires { place < 128 }
        ensures { result ≡ bit_of self.now.address place }
    {
        (self.address >> place) % 2 == 1
    }
}

// The error for a database that is not as its format says.
pub(crate) fn invalid(text: Text) -> MaxMindDbError
    ensures { kind_of result ≡ OfDatabase }
{
    MaxMindDbError::InvalidDatabase {
        message: Message::Fixed(text),
        offset: None,
    }
}

// The error for an IPv6 range that is asked of an IPv4 database.
fn ipv6_range_in_ipv4() -> MaxMindDbError
    ensures { kind_of result ≡ OfInput }
{
    MaxMindDbError::InvalidInput {
        message: Message::Fixed(Text::Ipv6InIpv4Range),
    }
}

impl<S: AsSlice<u8> + Drop> Reader<S> {
    ghost use Rattle.mmdb_reader.specs.Items.{item_view, item_of_leaf, items_of};
    ghost use Rattle.mmdb_reader.specs.Listing.{finding_at, listed};
    ghost use Rattle.mmdb_reader.specs.Positions.{IsAt, bits_to};
    ghost use Rattle.mmdb_reader.specs.Found.{database_asked, leaf_of, offset_found, shown_as_ipv4};
    ghost use Rattle.mmdb_reader.specs.ShownLeaf.{begins_with_zeros, is_leaf_shown_as_ipv4};
    ghost use Rattle.mmdb_reader.specs.Shown.{block_in};
    ghost use Rattle.mmdb_reader.specs.Lookup.{CanAsk};
    ghost use Rattle.mmdb_reader.specs.Enumeration.{database_walked, items_to_come, positions_reserved, ListsRange};
    ghost use Rattle.mmdb_reader.specs.Ranges.{positions_for};
    ghost use Rattle.mmdb_reader.specs.Stops.{has_few_stops};
    ghost use Rattle.mmdb_reader.specs.Working.{IsRangeOf, finding_of_answer, FaultsAreOfDatabase};

    // What a leaf that leads to a number is listed with, if it is listed: a fault, or the offset of its
    // value, if it has one.
    #[tactic(auto, unfolding(crate::specs::Listing::finding_at))]
    #[inline(always)]
    fn finding(
        &self,
        number: usize,
        options: WithinOptions,
    ) -> Option<Result<Option<usize>, MaxMindDbError>>
        ensures value { finding_of_answer result ≡ finding_at self.now options number }
        ensures faults { FaultsAreOfDatabase result }
    {
        let place = match self.record_at(number) {
            TreeRecord::Node(_) => return Some(Err(invalid(Text::TreeTooDeep))),
            TreeRecord::Invalid => return Some(Err(invalid(Text::InvalidLocation))),
            TreeRecord::Empty if options.includes_without_data() => return Some(Ok(None)),
            TreeRecord::Empty => return None,
            TreeRecord::Data(place) => place,
        };
        if !options.skips_empty() {
            return Some(Ok(Some(place)));
        }
        match empty_container(self.data_section(), place) {
            Ok(true) => None,
            Ok(false) => Some(Ok(Some(place))),
            Err(error) => Some(Err(counted_from_start(error, self.data_start()))),
        }
    }

    // Whether the bits to a position of an IPv6 database begin with the 96 zeros before IPv4.
    #[inline(always)]
    fn is_behind_zeros(&self, position: Position) -> bool
        requires at { IsAt self.now position }
        requires ipv6 { width self.now ≡ 128 }
        ensures { result ≡ begins_with_zeros 96 (bits_to self.now position) }
    {
        position.prefix >= 96 && position.address < 1 << 32
    }

    // Whether the leaf at a position is shown as an IPv4 network.
    #[inline(always)]
    fn shows_as_ipv4(&self, position: Position) -> bool
        requires { IsAt self.now position }
        ensures { result ≡ is_leaf_shown_as_ipv4 self.now (bits_to self.now position) }
    {
        self.width() == 32 || self.has_ipv4_subtree() && self.is_behind_zeros(position)
    }

    // The leaf at a position, with the offset of its value.
    #[inline(always)]
    fn leaf_at(&self, position: Position, offset: Option<usize>) -> LookupResult<'_, S>
        requires { IsAt self.now position }
        ensures database { database_asked result ≡ self.now }
        ensures leaf { leaf_of result ≡ bits_to self.now position }
        ensures offset { offset_found result ≡ offset }
        ensures shown { shown_as_ipv4 result
            ≡ is_leaf_shown_as_ipv4 self.now (bits_to self.now position) }
    {
        if self.shows_as_ipv4(position) {
            return LookupResult {
                reader: self,
                offset,
                address: NumberedAddress {
                    bits: position.address,
                    width: 32,
                },
                prefix: position.prefix - (usize::from(self.width()) - 32),
            };
        }
        LookupResult {
            reader: self,
            offset,
            address: NumberedAddress {
                bits: position.address,
                width: 128,
            },
            prefix: position.prefix,
        }
    }

    // The item for the leaf at a position.
    #[inline(always)]
    fn item(
        &self,
        position: Position,
        finding: Result<Option<usize>, MaxMindDbError>,
    ) -> Result<LookupResult<'_, S>, MaxMindDbError>
        requires at { IsAt self.now position }
        requires faults { FaultsAreOfDatabase (Some finding) }
        ensures value { Some (item_view result)
            ≡ option_map (item_of_leaf self.now (bits_to self.now position)) (finding_of_answer (Some finding)) }
        ensures database { IfOk result (λ r. database_asked r ≡ self.now) }
    {
        Ok(self.leaf_at(position, finding?))
    }

    // The first bits of a range, unless it is an IPv6 range and the database has no IPv6.
    fn range_of(&self, network: IpNetwork) -> Option<RangeBits>
        ensures { MatchOption result (¬ CanAsk self.now (ip_of network))
            (λ range. IsRangeOf self.now network range.address range.prefix) }
    {
        let prefix = network.prefix();
        match network.ip() {
            IpAddr::V4(address) => Some(RangeBits {
                address: u128::from(address.to_bits()),
                prefix: self.width() - 32 + prefix,
            }),
            IpAddr::V6(_) if self.width() == 32 => None,
            IpAddr::V6(address) => Some(RangeBits {
                address: address.to_bits(),
                prefix,
            }),
        }
    }

    /// The networks of a range, in ascending order, each once: the leaves of the tree that lie in the
    /// range, or the one that holds it, with its own wider network.
    ///
    /// Takes all memory at once, for one position more than the bits after the range's prefix. An IPv6
    /// range asked of an IPv4 database is `InvalidInput`; else only memory runs out.
    pub fn within(
        &self,
        alloc: Global,
        network: IpNetwork,
        options: WithinOptions,
    ) -> Result<Within<'_, S>, MaxMindDbError>
        ensures listing { IfOk result (λ w. ListsRange w options (block_in self.now network)) }
        ensures listed { IfOk result
            (λ w. items_to_come w
            ≡ items_of self.now (listed self.now options (block_in self.now network))) }
        ensures database { IfOk result (λ w. database_walked w ≡ self.now) }
        ensures reserved { IfOk result (λ w. positions_reserved w ≡ positions_for network) }
        ensures of_input { FailsAs OfInput result ↔ ¬ CanAsk self.now (ip_of network) }
        ensures no_other { IfErr result (λ e. (kind_of e ≡ OfInput) ⊎ (kind_of e ≡ OfMemory)) }
    {
        let Some(range) = self.range_of(network) else {
            return Err(ipv6_range_in_ipv4());
        };
        let mut stack = Vec::with_capacity(alloc, usize::from(self.width() - range.prefix) + 1)?;
        let walker = self.walker();
        let hidden = walker.hidden_number(options);
        if let Some(position) = walker.start(range, options, hidden) {
            stack.push_reserved(position);
        }
        Ok(Within {
            hidden,
            walker,
            options,
            stack,
        })
    }

    /// All networks of the database, in ascending order: those within 0.0.0.0/0, or ::/0 where it has
    /// IPv6. Only memory can run out.
    pub fn networks(
        &self,
        alloc: Global,
        options: WithinOptions,
    ) -> Result<Within<'_, S>, MaxMindDbError>
        ensures listing { IfOk result (λ w. ListsRange w options []) }
        ensures listed { IfOk result
            (λ w. items_to_come w ≡ items_of self.now (listed self.now options [])) }
        ensures database { IfOk result (λ w. database_walked w ≡ self.now) }
        ensures reserved { IfOk result (λ w. positions_reserved w ≡ width self.now + 1) }
        ensures no_other { IfErr result (λ e. kind_of e ≡ OfMemory) }
    {
        let whole = if self.width() == 32 {
            IpAddr::V4(Ipv4Addr::UNSPECIFIED)
        } else {
            IpAddr::V6(Ipv6Addr::UNSPECIFIED)
        };
        self.within(alloc, IpNetwork::new(whole, 0)?, options)
    }

    /// Whether the tree below a range leads to no more networks than its nodes can have: a walk there stops, at leaves and
    /// at aliases, at most three times for each node of the tree, and once more. So it is where no node is reached twice;
    /// where it is not, a list of the range may go on for as long as there are addresses. It takes as many steps at most.
    ///
    /// Takes all memory at once, for as many points as an address has bits. An IPv6 range asked of an IPv4 database is
    /// `InvalidInput`; else only memory runs out.
    pub fn has_few_networks(
        &self,
        alloc: Global,
        network: IpNetwork,
    ) -> Result<bool, MaxMindDbError>
        ensures few { IfOk result
            (λ few. few ≡ has_few_stops self.now (block_in self.now network)) }
        ensures of_input { FailsAs OfInput result ↔ ¬ CanAsk self.now (ip_of network) }
        ensures no_other { IfErr result (λ e. (kind_of e ≡ OfInput) ⊎ (kind_of e ≡ OfMemory)) }
    {
        let Some(range) = self.range_of(network) else {
            return Err(ipv6_range_in_ipv4());
        };
        let walker = self.tree_walker();
        let most = 3 * walker.nodes.node_count + 1;
        let mut stack = Vec::with_capacity(alloc, walker.width)?;
        Ok(walker.stops_at_most(range.address, range.prefix, most, &mut stack))
    }
}

impl<S: AsSlice<u8> + Drop> DatabaseWalker<'_, S> {
    ghost use Rattle.mmdb_reader.specs.Listing.{listed};
    ghost use Rattle.mmdb_reader.specs.Working.{IsLowest, IsNothing, IsStart};

    // The node below which nothing is listed where bits that are high lead to it: the number of nodes, which is none of
    // them, where there is no such node.
    fn hidden_number(&self, options: WithinOptions) -> usize
        ensures { HidesAliases self.now.reader.now options result }
    {
        if options.includes_aliased() {
            return self.tree.nodes.node_count;
        }
        match self.tree.ipv4_start {
            Some(start) => start,
            None => self.tree.nodes.node_count,
        }
    }

    // Where the walk of a range begins: at the range, or at the leaf that holds it. None where an
    // alias leads to it.
    fn start(&self, range: RangeBits, options: WithinOptions, hidden: usize) -> Option<Position>
        requires within { range.prefix ≤ width self.now.reader.now }
        requires hides { HidesAliases self.now.reader.now options hidden }
        ensures { let db = self.now.reader.now in
            let bits = take range.prefix (bits_of (width db) range.address) in
            MatchOption result (listed db options bits ≡ []) (IsStart db options bits) }
    {
        let mut position = ROOT;
        while position.prefix < usize::from(range.prefix) {
            if position.number >= self.tree.nodes.node_count {
                return Some(position);
            }
            if position.is_high_at(hidden) {
                return None;
            }
            let right = range.has_bit(self.tree.width - position.prefix - 1);
            position = position.half(self, right);
        }
        Some(position)
    }

    // The lowest leaf below a position. The upper halves that are passed are put on the stack. None where an alias is
    // met, below which nothing is listed.
    #[inline(always)]
    fn go_down(
        &self,
        start: Position,
        options: WithinOptions,
        hidden: usize,
        stack: &mut Vec<Position>,
    ) -> Option<Position>
        requires placed { IsStack self.now.reader.now (vec_capacity stack.old)
            (stack.old.items ++ start ∷ []) }
        requires hides { HidesAliases self.now.reader.now options hidden }
        ensures lowest { let db = self.now.reader.now in
            let old = stack.old.items ++ start ∷ [] in
            MatchOption result
            (IsNothing db options (vec_capacity stack.old) old stack.new.items)
            (λ leaf. IsLowest db options (vec_capacity stack.old) old stack.new.items leaf) }
        ensures capacity { vec_capacity stack.new ≡ vec_capacity stack.old }
    {
        let mut position = start;
        while position.number < self.tree.nodes.node_count {
            if position.is_high_at(hidden) {
                return None;
            }
            if position.prefix >= self.tree.width {
                return Some(position);
            }
            stack.push_reserved(position.half(self, true));
            position = position.half(self, false);
        }
        Some(position)
    }
}

impl<'de, S: AsSlice<u8> + Drop> Iterator for Within<'de, S> {
    ghost use Rattle.std.specs.Iterator.{item_count};
    ghost use Rattle.mmdb_reader.specs.Enumeration.{items_to_come, YieldsItem};

    type Item = Result<LookupResult<'de, S>, MaxMindDbError>;

    ghost next_gives = { YieldsItem };

    ghost remaining = { item_count items_to_come };

    #[inline(always)]
    fn next(&mut self) -> Option<Self::Item> {
        while let Some(position) = self.stack.pop() {
            let below = self
                .walker
                .go_down(position, self.options, self.hidden, &mut self.stack);
            let Some(leaf) = below else {
                continue;
            };
            if let Some(finding) = self.walker.reader.finding(leaf.number, self.options) {
                return Some(self.walker.reader.item(leaf, finding));
            }
        }
        None
    }
}
