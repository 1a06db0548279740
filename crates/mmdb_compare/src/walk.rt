//! The networks of one database.
ghost use Rattle.std.specs.Prelude.{◌≡◌, ◌+◌, ◌-◌, ◌≤◌, ◌<◌, ◌↔◌, IsTrue, IfOk, MatchBool, true, false};
ghost use Rattle.mmdb_blocks.specs.Blocks.{IsBlock, end};
ghost use Rattle.mmdb_net.specs.Network.{ip_of};
ghost use Rattle.mmdb_reader.specs.Enumeration.{items_to_come, database_walked};
ghost use Rattle.mmdb_reader.specs.Lookup.{CanAsk};
ghost use Rattle.mmdb_compare.specs.Coming.{coming, coming_from};
ghost use Rattle.mmdb_compare.specs.Listed.{all_of, leaves_of_items, block_within as block_in_range};
ghost use Rattle.mmdb_compare.specs.Found.{numbered_ip, IsFoundAt, IsFoundIf};
ghost use Rattle.mmdb_compare.specs.Together.{is_record};
ghost use Rattle.mmdb_compare.specs.WalkList.{held_at};
ghost use Rattle.mmdb_compare.specs.Walks.{Standing, left_of, behind_of, IsMet, IsTaken, IsFrom, IsBehind, IsGone, IsStanding, IsHere};

use mmdb_blocks::Block;
use mmdb_reader::{
    IpNetwork, LookupResult, MaxMindDbError, NumberedNetwork, Reader, Within, WithinOptions,
};
use std::alloc::Global;
use std::convert::AsSlice;
use std::marker::Model;
use std::net::{IpAddr, Ipv4Addr, Ipv6Addr};

/// A leaf that can't be read, and the network after which it comes, if there is one.
#[derive(Drop)]
pub struct UnreadLeaf {
    pub behind: Option<IpNetwork>,
    pub error: MaxMindDbError,
}

// Where a walk is.
#[derive(Clone, Copy)]
pub(crate) enum Stand {
    /// At no network: before the first one, or after a leaf that can't be read.
    Nowhere,
    AtNetwork,
    /// After all networks.
    AtEnd,
}

/// The networks of one database, one at a time. The network that it is at is kept as numbers side by side, since a
/// network or a result of a lookup would be copied in pieces.
#[derive(Drop)]
pub(crate) struct Walk<'a, S: AsSlice<u8> + Drop> {
    reader: &'a Reader<S>,
    networks: Within<'a, S>,
    /// The first address of the range, and its prefix.
    range_first: u128,
    range_prefix: u8,
    stand: Stand,
    /// Of the network that it is at, as much as lies in the range: the first address, and the prefix.
    first: u128,
    prefix: u8,
    is_ipv4: bool,
    /// Where its record is, if it has one.
    offset: Option<usize>,
    /// The network after which the last leaf came that can't be read.
    behind: Option<IpNetwork>,
    /// That leaf, until it is asked for.
    unread: Option<UnreadLeaf>,
    /// Whether a leaf that can't be read came before the network: what the database has there is not known.
    is_unknown: bool,
}

impl<'a, S: AsSlice<u8> + Drop> Model for Walk<'a, S> {
    ghost use Rattle.mmdb_reader.specs.Enumeration.{items_to_come, database_walked};
    ghost use Rattle.mmdb_compare.specs.Listed.{leaves_of_items};
    ghost use Rattle.mmdb_compare.specs.Walks.{Standing, IsStanding, standing};

    ghost Value = { Standing };

    ghost view = { λ w. standing w.reader.now w.stand w.first w.prefix w.offset (leaves_of_items
        (database_walked w.networks) (record { first = w.range_first; prefix = w.range_prefix })
        (items_to_come w.networks)) w.is_unknown };

    ghost invariant = { λ w. IsStanding (record { first = w.range_first; prefix = w.range_prefix })
        (standing w.reader.now w.stand w.first w.prefix w.offset (leaves_of_items (database_walked w.networks)
        (record { first = w.range_first; prefix = w.range_prefix }) (items_to_come w.networks))
        w.is_unknown) };
}

/// What a database has at an address, as far as the same holds.
#[derive(Clone, Copy)]
pub(crate) enum Here {
    /// A record up to this address.
    Record(u128),
    /// Nothing up to this address.
    Nothing(u128),
    /// What can't be read, up to this address.
    Unknown(u128),
}

// As much of a network as lies in a range. One that is wider than the range has all of it.
#[inline(always)]
fn block_within(network: NumberedNetwork, range: Block) -> Block
    requires prefix { network.prefix ≤ network.width }
    requires width { network.width ≤ 128 }
    ensures { result ≡ block_in_range range (record {
      first = network.first;
      prefix = 128 - network.width + network.prefix;
    }) }
{
    let block = Block::of_numbers(network.first, network.width, network.prefix);
    if block.prefix < range.prefix {
        range
    } else {
        block
    }
}

// The address of a number. An IPv6 database has those of IPv4 below 2^32 too, and shows them as they are shown there.
fn address_of(number: u128) -> IpAddr
    ensures { result ≡ numbered_ip number }
{
    if number < 1 << 32 {
        IpAddr::V4(Ipv4Addr::from_bits(number as u32))
    } else {
        IpAddr::V6(Ipv6Addr::from_bits(number))
    }
}

impl<'a, S: AsSlice<u8> + Drop> Walk<'a, S> {
    /// The walk of a range.
    pub(crate) fn new(
        alloc: Global,
        reader: &'a Reader<S>,
        range: IpNetwork,
    ) -> Result<Walk<'a, S>, MaxMindDbError>
        ensures left { IfOk result (λ walk. left_of walk ≡ all_of reader.now range) }
        ensures database { IfOk result (λ walk. walk.database ≡ reader.now) }
        ensures asked { IfOk result (λ _. CanAsk reader.now (ip_of range)) }
    {
        let networks = reader.within(alloc, range, WithinOptions::default())?;
        let block = Block::of_network(range);
        Ok(Walk {
            reader,
            networks,
            range_first: block.first,
            range_prefix: block.prefix,
            stand: Stand::Nowhere,
            first: 0,
            prefix: 0,
            is_ipv4: false,
            offset: None,
            behind: None,
            unread: None,
            is_unknown: false,
        })
    }

    // Keeps a leaf after the network that it is at, which can't be read.
    #[cold]
    #[inline(never)]
    fn give(&mut self, error: MaxMindDbError)
        ensures { self.new ≡ record self.old { stand = Stand.Nowhere; is_unknown = true } }
    {
        if let Some(found) = self.found() {
            self.behind = found.network().ok();
        }
        self.stand = Stand::Nowhere;
        self.is_unknown = true;
        self.unread = Some(UnreadLeaf {
            behind: self.behind,
            error,
        });
    }

    // Takes the next network, or keeps the next leaf, if it can't be read. Whether it can.
    #[inline(always)]
    fn advance(&mut self) -> bool
        ensures step { let before = coming self.old.leaves self.old.is_unknown in
            MatchBool result (IsTaken before self.new) (IsMet before self.new) }
        ensures database { self.new.database ≡ self.old.database }
    {
        match self.networks.next() {
            Some(Ok(found)) => {
                let range = Block {
                    first: self.range_first,
                    prefix: self.range_prefix,
                };
                let network = found.numbered_network();
                let block = block_within(network, range);
                self.first = block.first;
                self.prefix = block.prefix;
                self.is_ipv4 = network.width == 32;
                self.offset = found.offset();
                self.stand = Stand::AtNetwork;
                true
            }
            Some(Err(error)) => {
                self.give(error);
                false
            }
            None => {
                self.stand = Stand::AtEnd;
                true
            }
        }
    }

    // The last address of the network that it is at.
    #[inline(always)]
    fn last(&self) -> u128
        ensures { result + 1 ≡ end self.now.block }
    {
        let block = Block {
            first: self.first,
            prefix: self.prefix,
        };
        block.last()
    }

    // Whether the network that it is at ends before an address, or there is none yet.
    #[inline(always)]
    fn is_behind(&self, at: u128) -> bool
        ensures { MatchBool result (IsBehind at self.now) (IsFrom at self.now) }
    {
        match self.stand {
            Stand::Nowhere => true,
            Stand::AtNetwork => self.last() < at,
            Stand::AtEnd => false,
        }
    }

    /// Goes on from where it is. Says whether the next leaf can be read; `take_unread` has it, if not.
    #[inline(always)]
    pub(crate) fn pass(&mut self) -> bool
        ensures step { let before = behind_of self.old in
            MatchBool result (IsTaken before self.new) (IsMet before self.new) }
        ensures database { self.new.database ≡ self.old.database }
    {
        if matches!(self.stand, Stand::AtNetwork) {
            self.is_unknown = false;
        }
        self.advance()
    }

    /// Goes on to the network that holds an address, or to the next one. Says whether no leaf before it can't be read;
    /// `take_unread` has the one that can't.
    #[inline(always)]
    pub(crate) fn go_to(&mut self, at: u128) -> bool
        ensures step { MatchBool result (IsGone at self.old self.new)
            (IsMet (coming_from at (left_of self.old)) self.new) }
        ensures database { self.new.database ≡ self.old.database }
    {
        while self.is_behind(at) {
            if !self.pass() {
                return false;
            }
        }
        true
    }

    /// What the database has at an address.
    #[inline(always)]
    pub(crate) fn at(&self, at: u128) -> Here
        requires { IsFrom at self.now }
        ensures { IsHere self.now at result }
    {
        let until = match self.stand {
            Stand::AtNetwork if self.first <= at => return Here::Record(self.last()),
            Stand::AtNetwork => self.first - 1,
            Stand::Nowhere | Stand::AtEnd => u128::MAX,
        };
        if self.is_unknown {
            Here::Unknown(until)
        } else {
            Here::Nothing(until)
        }
    }

    /// Whether it is at a network that begins at an address or before.
    #[inline(always)]
    pub(crate) fn has_begun(&self, at: u128) -> bool
        ensures { IsTrue result
            ↔ ((self.now.stand ≡ Stand.AtNetwork) × (self.now.block.first ≤ at)) }
    {
        self.is_at_network() && self.first <= at
    }

    /// Whether it is at the network that is a block.
    #[inline(always)]
    pub(crate) fn is_at(&self, block: Block) -> bool
        ensures { IsTrue result
            ↔ ((self.now.stand ≡ Stand.AtNetwork) × (self.now.block ≡ block)) }
    {
        self.is_at_network() && self.first == block.first && self.prefix == block.prefix
    }

    /// Whether it is at a network.
    #[inline(always)]
    pub(crate) fn is_at_network(&self) -> bool
        ensures { IsTrue result ↔ (self.now.stand ≡ Stand.AtNetwork) }
    {
        matches!(self.stand, Stand::AtNetwork)
    }

    /// The block of the network that it is at.
    #[inline(always)]
    pub(crate) fn block(&self) -> Block
        ensures value { result ≡ self.now.block }
        ensures block { IsBlock result }
    {
        Block {
            first: self.first,
            prefix: self.prefix,
        }
    }

    /// The prefix of the network that it is at.
    #[inline(always)]
    pub(crate) fn prefix(&self) -> u8
        ensures value { result ≡ self.now.block.prefix }
        ensures block { IsBlock self.now.block }
    {
        self.prefix
    }

    /// Where the record is of the network that it is at, if there is one.
    #[inline(always)]
    pub(crate) fn offset(&self) -> Option<usize>
        ensures { result ≡ self.now.offset }
    {
        self.offset
    }

    /// Whether that is a network of IPv4.
    #[inline(always)]
    pub(crate) fn is_ipv4(&self) -> bool {
        self.is_ipv4
    }

    /// What the database has for an address.
    pub(crate) fn found_at(&self, address: u128) -> Option<LookupResult<'a, S>>
        ensures { IsFoundAt self.now.database (numbered_ip address) result }
    {
        let reader = self.reader;
        reader.lookup(address_of(address)).ok()
    }

    /// What the database has for an address, if it has a record for another one, which it went on to.
    pub(crate) fn found_from(&self, at: u128, address: u128) -> Option<LookupResult<'a, S>>
        ensures { let has_record = is_record (held_at at self.now) in
            IsFoundIf has_record self.now.database (numbered_ip address) result }
    {
        if self.has_begun(at) {
            self.found_at(address)
        } else {
            None
        }
    }

    // What the database has for the network that it is at.
    fn found(&self) -> Option<LookupResult<'a, S>> {
        match self.stand {
            Stand::AtNetwork => self.found_at(self.first),
            Stand::Nowhere | Stand::AtEnd => None,
        }
    }

    /// The last leaf that can't be read.
    pub(crate) fn take_unread(&mut self) -> Option<UnreadLeaf>
        ensures { self.exit.now ≡ self.entry.now }
    {
        self.unread.take()
    }
}
