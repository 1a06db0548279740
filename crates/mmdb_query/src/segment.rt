//! What several databases have in a block in which each of them has one answer.
ghost use Rattle.std.specs.Prelude.{◌≡◌, ◌↔◌, ◌≤◌, ◌-◌, ◌<◌, ◌^◌, ◌++◌, IsTrue, IfSome, take, nat_eq, false};
ghost use Rattle.std.specs.Net.Addr.{is_ipv4 as spec_is_ipv4};
ghost use Rattle.mmdb_net.specs.Address.{IsMaskedIp};
ghost use Rattle.mmdb_net.specs.Bits.{bits_of, zero_bits};
ghost use Rattle.mmdb_net.specs.Network.{ip_of, prefix_of};
ghost use Rattle.mmdb_blocks.specs.Blocks.{IsBlock};
ghost use Rattle.mmdb_reader.specs.File.{data_section};
ghost use Rattle.mmdb_reader.specs.Numbered.{HasZerosAfter};
ghost use Rattle.mmdb_query.specs.Had.{network_bits};
ghost use Rattle.mmdb_query.specs.Reading.{reads_in, value_found, outline_found, IsReadAs};
ghost use Rattle.mmdb_query.specs.Abreast.{IsOfIpv4, IsLonger};

use crate::answer::{Answer, NetworkBlock};
use crate::numbered::network_of;
use crate::values::{outline_along, value_along};
use mmdb_blocks::Block;
use mmdb_reader::{IpNetwork, MaxMindDbError, NumberedNetwork, PathElement, Reader};
use mmdb_value::Value;
use std::alloc::Global;
use std::convert::AsSlice;

/// Where one of several databases has its record, if it has one.
#[derive(Drop)]
pub(crate) struct DatabaseRecord<'a, S: AsSlice<u8> + Drop> {
    pub(crate) reader: &'a Reader<S>,
    pub(crate) offset: Option<usize>,
}

impl<'a, S: AsSlice<u8> + Drop> DatabaseRecord<'a, S> {
    // What is read along a path in the record.
    fn read_along(
        &self,
        alloc: Global,
        path: &[PathElement<'_>],
    ) -> Result<Option<Value<'a>>, MaxMindDbError>
        ensures { IsReadAs (reads_in value_found (data_section self.now.reader.now)
            self.now.offset path.now) result }
    {
        match self.offset {
            Some(offset) => value_along(alloc, &self.reader.stored_record(offset), path),
            None => Ok(None),
        }
    }

    // The same, but of a map or an array no more than its header.
    fn outline_along(
        &self,
        alloc: Global,
        path: &[PathElement<'_>],
    ) -> Result<Option<Value<'a>>, MaxMindDbError>
        ensures { IsReadAs (reads_in outline_found (data_section self.now.reader.now)
            self.now.offset path.now) result }
    {
        match self.offset {
            Some(offset) => outline_along(alloc, &self.reader.stored_record(offset), path),
            None => Ok(None),
        }
    }
}

// A key with one more digit, which says where a database has a record; none where it is too large.
fn longer_key(section: &[u8], key: Option<usize>, offset: Option<usize>) -> Option<usize>
    ensures { IfSome result (IsLonger key section.now offset) }
{
    let digit = match offset {
        Some(offset) if offset < section.len() => offset + 1,
        Some(_) => return None,
        None => 0,
    };
    key?.checked_mul(section.len().checked_add(1)?)?
        .checked_add(digit)
}

// Whether a block is to be one of IPv4, and lies there.
fn is_of_ipv4(block: Block, is_ipv4: bool) -> bool
    ensures { IsTrue result ↔ IsOfIpv4 is_ipv4 block }
{
    is_ipv4 && block.prefix >= 96 && block.first < 1 << 32
}

// The numbers of the network that a block is: one of IPv4, where it is to be and lies there.
fn numbers_of(block: Block, is_ipv4: bool) -> NumberedNetwork
    requires { IsBlock block }
    ensures within { result.prefix ≤ result.width }
    ensures small { result.width ≤ 128 }
    ensures is_width { nat_eq result.width 32 ≡ false → result.width ≡ 128 }
    ensures fits { result.first < 2 ^ result.width }
    ensures kind { IsTrue (nat_eq result.width 32) ↔ IsOfIpv4 is_ipv4 block }
    ensures zeros { HasZerosAfter result.width result.prefix result.first }
    ensures bits { zero_bits (128 - result.width) ++ take result.prefix
        (bits_of result.width result.first) ≡ take block.prefix (bits_of 128 block.first) }
{
    let prefix = usize::from(block.prefix);
    if is_of_ipv4(block, is_ipv4) {
        NumberedNetwork {
            first: block.first,
            width: 32,
            prefix: prefix - 96,
        }
    } else {
        NumberedNetwork {
            first: block.first,
            width: 128,
            prefix,
        }
    }
}

/// The network that a block is: one of IPv4, where it is to be and lies there.
pub(crate) fn network_of_block(block: Block, is_ipv4: bool) -> IpNetwork
    requires { IsBlock block }
    ensures kind { IsTrue (spec_is_ipv4 (ip_of result)) ↔ IsOfIpv4 is_ipv4 block }
    ensures bits { network_bits result ≡ take block.prefix (bits_of 128 block.first) }
    ensures masked { IsMaskedIp (ip_of result) (prefix_of result) (ip_of result) }
{
    network_of(numbers_of(block, is_ipv4))
}

/// What several databases have in a block in which each of them has one answer.
#[derive(Drop)]
pub struct Segment<'a, S: AsSlice<u8> + Drop> {
    pub(crate) at: NetworkBlock,
    pub(crate) records: Vec<DatabaseRecord<'a, S>>,
    ghost is_block: { IsBlock at.block },
    ghost lies_there: { IsTrue at.is_ipv4 → (96 ≤ at.block.prefix) × (at.block.first < 2 ^ 32) },
}

impl<'a, S: AsSlice<u8> + Drop> Segment<'a, S> {
    /// Of a block, and the records there. It is one of IPv4, where it is to be and lies there.
    pub(crate) fn new(
        block: Block,
        is_ipv4: bool,
        records: Vec<DatabaseRecord<'a, S>>,
    ) -> Segment<'a, S>
        requires { IsBlock block }
        ensures kind { IsTrue result.at.is_ipv4 ↔ IsOfIpv4 is_ipv4 block }
        ensures block { result.at.block ≡ block }
        ensures records { result.records.items ≡ records.entry.items }
    {
        Segment {
            at: NetworkBlock {
                block,
                is_ipv4: is_of_ipv4(block, is_ipv4),
            },
            records,
        }
    }
}

/// Several databases.
impl<'a, S: AsSlice<u8> + Drop> Answer for Segment<'a, S> {
    ghost use Rattle.mmdb_query.specs.Segments.{sections_of, offsets_of};

    ghost sections = { λ s. sections_of s.records.items };

    ghost had = { λ s. record {
      bits = take s.at.block.prefix (bits_of 128 s.at.block.first);
      as_ipv4 = s.at.is_ipv4;
      offsets = offsets_of s.records.items;
    } };

    #[inline(always)]
    fn network(&self) -> IpNetwork {
        network_of_block(self.at.block, self.at.is_ipv4)
    }

    #[inline(always)]
    fn block(&self) -> NetworkBlock {
        self.at
    }

    #[inline(always)]
    fn key(&self) -> Option<usize> {
        let mut key = Some(0);
        for one in &self.records {
            key = longer_key(one.reader.data_section(), key, one.offset);
        }
        key
    }

    #[inline(always)]
    fn offset(&self, place: usize) -> Option<usize> {
        if place >= self.records.len() {
            return None;
        }
        self.records[place].offset
    }

    #[inline(always)]
    fn has_record(&self) -> bool {
        for one in &self.records {
            if one.offset.is_some() {
                return true;
            }
        }
        false
    }

    #[inline(always)]
    fn read_along(
        &self,
        alloc: Global,
        path: &[PathElement<'_>],
    ) -> Result<Option<Value<'_>>, MaxMindDbError> {
        for one in &self.records {
            match one.read_along(alloc, path) {
                Ok(None) => {}
                Ok(Some(value)) => return Ok(Some(value)),
                Err(error) => return Err(error),
            }
        }
        Ok(None)
    }

    #[inline(always)]
    fn outline_along(
        &self,
        alloc: Global,
        path: &[PathElement<'_>],
    ) -> Result<Option<Value<'_>>, MaxMindDbError> {
        for one in &self.records {
            match one.outline_along(alloc, path) {
                Ok(None) => {}
                Ok(Some(value)) => return Ok(Some(value)),
                Err(error) => return Err(error),
            }
        }
        Ok(None)
    }

    #[inline(always)]
    fn read_at(
        &self,
        alloc: Global,
        place: usize,
        path: &[PathElement<'_>],
    ) -> Result<Option<Value<'_>>, MaxMindDbError> {
        if place >= self.records.len() {
            return Ok(None);
        }
        self.records[place].read_along(alloc, path)
    }
}
