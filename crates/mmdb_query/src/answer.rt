//! What databases have for an address or a network.
ghost use Rattle.std.specs.Prelude.{◌≡◌, ℕ, List, IfSome};
ghost use Rattle.std.specs.Net.Addr.{is_ipv4};
ghost use Rattle.mmdb_net.specs.Network.{ip_of};
ghost use Rattle.mmdb_query.specs.Had.{Had, IsNetworkOf, network_bits, offset_at, has_one};
ghost use Rattle.mmdb_query.specs.Keys.{IsKey};
ghost use Rattle.mmdb_query.specs.Listings.{HasBits};
ghost use Rattle.mmdb_query.specs.Reading.{values_of, outlines_of, value_of, IsReadAs};

use crate::numbered::network_of;
use crate::values::{outline_along, value_along};
use mmdb_blocks::Block;
use mmdb_reader::{IpNetwork, LookupResult, MaxMindDbError, PathElement};
use mmdb_value::Value;
use std::alloc::Global;
use std::convert::AsSlice;

/// The addresses of a network as a block of numbers, and whether it is one of IPv4.
#[derive(Clone, Copy)]
pub struct NetworkBlock {
    pub block: Block,
    pub is_ipv4: bool,
}

/// The addresses of a network.
#[inline(always)]
pub(crate) fn block_of(network: IpNetwork) -> NetworkBlock
    ensures kind { result.is_ipv4 ≡ is_ipv4 (ip_of network) }
    ensures block { HasBits result.block (network_bits network) }
{
    NetworkBlock {
        block: Block::of_network(network),
        is_ipv4: matches!(network, IpNetwork::V4(_)),
    }
}

/// What databases have for an address or a network: one of them, or several in their order.
pub trait Answer: Drop {
    /// The data sections of the databases, in their order.
    ghost sections: { Self → List (List ℕ) };

    /// The network, and where each database has its record.
    ghost had: { Self → Had };

    /// The network in which all addresses have this answer.
    fn network(&self) -> IpNetwork
        ensures { IsNetworkOf (had self.now) result };

    /// The addresses of that network.
    fn block(&self) -> NetworkBlock
        ensures kind { result.is_ipv4 ≡ (had self.now).as_ipv4 }
        ensures block { HasBits result.block (had self.now).bits };

    /// A number that no other records of these databases have, unless it is too large.
    fn key(&self) -> Option<usize>
        ensures { IfSome result (IsKey (sections self.now) (had self.now).offsets) };

    /// Where the database at a place has its record, if it has one.
    fn offset(&self, place: usize) -> Option<usize>
        ensures { result ≡ offset_at (had self.now).offsets place };

    /// Whether one of the databases has a record.
    fn has_record(&self) -> bool
        ensures { result ≡ has_one (had self.now).offsets };

    /// The value at the end of a path in the first record that has one there. Fails, unless out of memory, where a record before
    /// that, or the value, can't be read.
    fn read_along(
        &self,
        alloc: Global,
        path: &[PathElement<'_>],
    ) -> Result<Option<Value<'_>>, MaxMindDbError>
        ensures { IsReadAs (values_of (sections self.now) (had self.now).offsets path.now) result };

    /// The same, but in place of a map or an array an empty one: no more of it is read than its header.
    fn outline_along(
        &self,
        alloc: Global,
        path: &[PathElement<'_>],
    ) -> Result<Option<Value<'_>>, MaxMindDbError>
        ensures { IsReadAs (outlines_of (sections self.now) (had self.now).offsets path.now)
            result };

    /// The value at the end of a path in the record of the database at a place, if it has one there. Fails, unless out of memory,
    /// where that can't be read. An empty path is the whole record.
    fn read_at(
        &self,
        alloc: Global,
        place: usize,
        path: &[PathElement<'_>],
    ) -> Result<Option<Value<'_>>, MaxMindDbError>
        ensures { IsReadAs (value_of (sections self.now) (had self.now).offsets place path.now)
            result };
}

/// One database.
impl<'a, S: AsSlice<u8> + Drop> Answer for LookupResult<'a, S> {
    ghost use Rattle.mmdb_query.specs.Had.{section_alone, had_alone};

    ghost sections = { λ found. section_alone found };

    ghost had = { λ found. had_alone found };

    #[inline(always)]
    fn network(&self) -> IpNetwork {
        network_of(self.numbered_network())
    }

    #[inline(always)]
    fn block(&self) -> NetworkBlock {
        let numbers = self.numbered_network();
        NetworkBlock {
            block: Block::of_numbers(numbers.first, numbers.width, numbers.prefix),
            is_ipv4: numbers.width == 32,
        }
    }

    #[inline(always)]
    fn key(&self) -> Option<usize> {
        match LookupResult::offset(self) {
            Some(offset) => offset.checked_add(1),
            None => Some(0),
        }
    }

    #[inline(always)]
    fn offset(&self, place: usize) -> Option<usize> {
        if place == 0 {
            LookupResult::offset(self)
        } else {
            None
        }
    }

    #[inline(always)]
    fn has_record(&self) -> bool {
        self.has_data()
    }

    #[inline(always)]
    fn read_along(
        &self,
        alloc: Global,
        path: &[PathElement<'_>],
    ) -> Result<Option<Value<'_>>, MaxMindDbError> {
        match self.to_record() {
            Some(found) => value_along(alloc, &found, path),
            None => Ok(None),
        }
    }

    #[inline(always)]
    fn outline_along(
        &self,
        alloc: Global,
        path: &[PathElement<'_>],
    ) -> Result<Option<Value<'_>>, MaxMindDbError> {
        match self.to_record() {
            Some(found) => outline_along(alloc, &found, path),
            None => Ok(None),
        }
    }

    #[inline(always)]
    fn read_at(
        &self,
        alloc: Global,
        place: usize,
        path: &[PathElement<'_>],
    ) -> Result<Option<Value<'_>>, MaxMindDbError> {
        if place == 0 {
            self.read_along(alloc, path)
        } else {
            Ok(None)
        }
    }
}
