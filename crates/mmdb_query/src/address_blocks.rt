//! The fewest blocks of chosen addresses.
ghost use Rattle.std.specs.Prelude.{[], ◌∷◌, IfOk};
ghost use Rattle.mmdb_reader.specs.File.{data_section};
ghost use Rattle.mmdb_query.specs.Lists.{AreFewest, ListsAddresses, ListsMet};

use crate::addresses::{Addresses, gather_all};
use crate::choice::Conditions;
use crate::error::{Faults, QueryError};
use mmdb_blocks::{Block, RangesError, listed_blocks};
use mmdb_reader::Reader;
use std::alloc::Global;
use std::convert::AsSlice;

/// Blocks of addresses of both kinds.
#[derive(Drop)]
pub struct AddressBlocks {
    pub ipv4: Vec<Block>,
    pub ipv6: Vec<Block>,
}

/// The fewest blocks, ascending, that have exactly the addresses which are chosen or in `also`, less those in `except`.
pub fn blocks(
    alloc: Global,
    chosen: &Addresses,
    also: &Addresses,
    except: &Addresses,
) -> Result<AddressBlocks, RangesError>
    ensures exact { IfOk result (ListsAddresses chosen.now also.now except.now) }
    ensures fewest { IfOk result AreFewest }
{
    let ipv4 = listed_blocks(alloc, chosen.ipv4(), also.ipv4(), except.ipv4())?;
    let ipv6 = listed_blocks(alloc, chosen.ipv6(), also.ipv6(), except.ipv6())?;
    Ok(AddressBlocks { ipv4, ipv6 })
}

/// The same of the addresses of the networks of a database, outside aliased ones, that meet all conditions. Reports each network
/// that can't be read, and says how many can't.
pub fn list_all<S: AsSlice<u8> + Drop, C: Conditions, F: Faults>(
    alloc: Global,
    reader: &Reader<S>,
    conditions: &C,
    also: &Addresses,
    except: &Addresses,
    faults: &mut F,
) -> Result<(AddressBlocks, u64), QueryError>
    ensures exact { IfOk result (λ listed. ListsMet reader.now
        (C.says conditions.now (data_section reader.now ∷ []))
        (C.is_unread conditions.now (data_section reader.now ∷ []))
        also.now except.now listed.0 listed.1) }
    ensures fewest { IfOk result (λ listed. AreFewest listed.0) }
{
    let (chosen, unread) = gather_all(alloc, reader, conditions, faults)?;
    let listed = blocks(alloc, &chosen, also, except)?;
    Ok((listed, unread))
}
