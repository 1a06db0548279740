//! The addresses of chosen networks.
ghost use Rattle.std.specs.Prelude.{◌≡◌, ◌⊎◌, ◌↔◌, ◌<◌, ◌^◌, ℕ, [], ◌∷◌, IfOk, OnOk};
ghost use Rattle.mmdb_blocks.specs.Ranges.{IsAmong};
ghost use Rattle.mmdb_reader.specs.File.{data_section};
ghost use Rattle.mmdb_query.specs.Answered.{HasOnlyMet, HasAllMet};
ghost use Rattle.mmdb_query.specs.Ends.{leaves_none};
ghost use Rattle.mmdb_query.specs.Had.{network_bits};
ghost use Rattle.mmdb_query.specs.Parts.{ComesInPart};
ghost use Rattle.mmdb_query.specs.Rows.{nothing};
ghost use Rattle.mmdb_query.specs.Sets.{AddsNetwork, BeginsWith, IsGathered, puts_addresses, needs_nothing};
ghost use Rattle.mmdb_query.specs.Taking.{asks};

use crate::answer::Answer;
use crate::choice::Conditions;
use crate::each::put_each;
use crate::error::{Faults, QueryError};
use crate::part::Part;
use crate::sink::Sink;
use crate::walk::{One, Walk};
use mmdb_blocks::{Block, BlockRange, Kinds, Ranges};
use mmdb_reader::{IpNetwork, MaxMindDbError, Reader, WithinOptions};
use std::alloc::{AllocError, Global};
use std::convert::AsSlice;
use std::io::{self, Write};

/// Addresses of both kinds.
#[derive(Drop)]
pub struct Addresses {
    ipv4: Ranges,
    ipv6: Ranges,
}

// Adds the addresses of a network.
fn add(ranges: &mut Ranges, network: IpNetwork) -> Result<(), AllocError>
    ensures { OnOk result ((address : ℕ) → address < 2 ^ 128 → IsAmong address ranges.new
        ↔ (IsAmong address ranges.old ⊎ BeginsWith (network_bits network) address)) }
{
    let block = Block::of_network(network);
    ranges.add(BlockRange {
        first: block.first,
        last: block.last(),
    })
}

impl Addresses {
    /// None.
    pub fn new(alloc: Global) -> Addresses
        ensures ipv4 { result.ipv4 ≡ [] }
        ensures ipv6 { result.ipv6 ≡ [] }
    {
        Addresses {
            ipv4: Ranges::new(alloc),
            ipv6: Ranges::new(alloc),
        }
    }

    /// The addresses of IPv4.
    pub fn ipv4(&self) -> &Ranges
        ensures { result.now ≡ self.now.ipv4 }
    {
        &self.ipv4
    }

    /// The addresses of IPv6.
    pub fn ipv6(&self) -> &Ranges
        ensures { result.now ≡ self.now.ipv6 }
    {
        &self.ipv6
    }

    /// Adds the addresses of a network.
    pub fn add(&mut self, network: IpNetwork) -> Result<(), AllocError>
        ensures { OnOk result (AddsNetwork network self.old self.new) }
    {
        match network {
            IpNetwork::V4(_) => add(&mut self.ipv4, network),
            IpNetwork::V6(_) => add(&mut self.ipv6, network),
        }
    }
}

impl Sink for Addresses {
    ghost use Rattle.mmdb_query.specs.declared.addresses.Addresses.{Addresses as SpecAddresses};

    ghost Form = { Unit {0} };

    ghost form = { λ _. nothing };

    ghost Took = { SpecAddresses };

    ghost took = { λ a. a };

    ghost puts = { puts_addresses };

    ghost is_unread = { needs_nothing };

    ghost leaves = { leaves_none };

    ghost fits = { λ _ _. Unit {0} };

    #[inline(always)]
    fn put_kept<A: Answer, O: Write>(
        &mut self,
        answer: &A,
        _out: &mut O,
    ) -> Result<bool, QueryError> {
        match self.add(answer.network()) {
            Ok(()) => Ok(true),
            Err(_) => Err(QueryError::Memory),
        }
    }

    fn put<A: Answer, O: Write>(
        &mut self,
        answer: &A,
        _out: &mut O,
    ) -> Result<Option<MaxMindDbError>, QueryError> {
        match self.add(answer.network()) {
            Ok(()) => Ok(None),
            Err(_) => Err(QueryError::Memory),
        }
    }

    fn drop_caches(&mut self) -> bool {
        false
    }
}

/// The addresses of the networks of a walk that meet all conditions; reports each that can't be read, and says how many can't.
pub fn gather<W: Walk, C: Conditions, F: Faults>(
    alloc: Global,
    walk: &mut W,
    conditions: &C,
    faults: &mut F,
) -> Result<(Addresses, u64), QueryError>
    ensures { IfOk result (λ found. IsGathered (W.comes walk.old)
        (asks C.says C.is_unread puts_addresses needs_nothing leaves_none conditions.now
        nothing (W.sections walk.old)) found.0 found.1) }
{
    let mut addresses = Addresses::new(alloc);
    let unread = put_each(
        alloc,
        walk,
        conditions,
        &mut addresses,
        &mut io::sink(),
        faults,
    )?;
    Ok((addresses, unread))
}

/// The same of the networks of some kinds, and of one that has a range no more than the range.
pub fn gather_part<W: Walk + Drop, C: Conditions, F: Faults>(
    alloc: Global,
    walk: W,
    kinds: Kinds,
    range: Option<IpNetwork>,
    conditions: &C,
    faults: &mut F,
) -> Result<(Addresses, u64), QueryError>
    ensures { IfOk result (λ found. IsGathered (ComesInPart kinds range (W.comes walk))
        (asks C.says C.is_unread puts_addresses needs_nothing leaves_none conditions.now
        nothing (W.sections walk)) found.0 found.1) }
{
    let mut walk = walk;
    if let (Kinds::Both, None) = (kinds, range) {
        return gather(alloc, &mut walk, conditions, faults);
    }
    let mut part = Part { walk, kinds, range };
    gather(alloc, &mut part, conditions, faults)
}

/// The addresses of the networks of a database, outside aliased ones, that meet all conditions.
pub fn gather_all<S: AsSlice<u8> + Drop, C: Conditions, F: Faults>(
    alloc: Global,
    reader: &Reader<S>,
    conditions: &C,
    faults: &mut F,
) -> Result<(Addresses, u64), QueryError>
    // An address that is in the set has a record that meets the conditions.
    ensures only { IfOk result (λ found. HasOnlyMet reader.now
        (C.says conditions.now (data_section reader.now ∷ [])) found.0) }
    // An address with a record is in the set, unless the record doesn't meet them, or can't be read and is counted.
    ensures all { IfOk result (λ found. HasAllMet reader.now
        (C.says conditions.now (data_section reader.now ∷ []))
        (C.is_unread conditions.now (data_section reader.now ∷ [])) found.0 found.1) }
{
    let walk = match reader.networks(alloc, WithinOptions::default()) {
        Ok(walk) => walk,
        Err(_) => return Err(QueryError::Memory),
    };
    gather(alloc, &mut One::new(walk), conditions, faults)
}
