//! The entries of rows.
ghost use Rattle.std.specs.Prelude.{◌≡◌, IfOk, IfErr, OnOk, length};
ghost use Rattle.mmdb_writer.specs.declared.row.RowError.TheVariants.{NoValue};
ghost use Rattle.mmdb_writer.specs.Errors.{IsWrongRow, IsGeneral};
ghost use Rattle.mmdb_writer.specs.Making.{IsOffsetOf, IsEntryOf, AreOrdered};
ghost use Rattle.mmdb_writer.specs.Working.{AreInOrder, HasNoFit, IsMissing};

use crate::error::WriteError;
use crate::row::{Row, RowError};
use mmdb_blocks::Block;
use mmdb_net::IpNetwork;
use mmdb_nodes::{IpVersion, NodeEntry, all_fit, are_ordered};
use std::alloc::AllocError;

// Where the value of a row begins, if it has one.
fn offset_of(offsets: &[u32], value: Option<usize>) -> Result<Option<u32>, RowError>
    ensures ok { IfOk result (IsOffsetOf offsets.now value) }
    ensures err { IfErr result (λ e. (e ≡ NoValue) × IsMissing (length offsets.now) value) }
{
    let Some(index) = value else {
        return Ok(None);
    };
    match offsets.get(index) {
        Some(offset) => Ok(Some(*offset)),
        None => Err(RowError::NoValue),
    }
}

// The entry of a row.
pub(crate) fn entry_of(version: IpVersion, offsets: &[u32], row: Row) -> Result<NodeEntry, RowError>
    ensures ok { IfOk result (IsEntryOf offsets.now row) }
    ensures err { IfErr result (IsWrongRow version (length offsets.now) row) }
{
    if let (IpVersion::V4, IpNetwork::V6(_)) = (version, row.network) {
        return Err(RowError::Ipv6);
    }
    match offset_of(offsets, row.value) {
        Ok(offset) => Ok(NodeEntry::new(Block::of_network(row.network), offset)),
        Err(error) => Err(error),
    }
}

// Sorts entries, unless they are in order.
fn sort(entries: &mut Vec<NodeEntry>) -> Result<(), AllocError>
    ensures { OnOk result (AreOrdered entries.old.items entries.new.items) }
{
    if !are_ordered(entries) {
        entries.sort_by_key(|entry| (entry.first, entry.prefix))?;
    }
    Ok(())
}

// Puts entries in the order that a tree wants.
pub(crate) fn put_in_order(
    version: IpVersion,
    data_len: usize,
    entries: &mut Vec<NodeEntry>,
) -> Result<(), WriteError>
    ensures ok { OnOk result (AreInOrder version data_len entries.old.items entries.new.items) }
    ensures err { IfErr result IsGeneral }
    ensures fits { IfErr result (λ e. ¬ (e ≡ WriteError.TooLarge)) }
    ensures not_meant { IfErr result (λ e. e ≡ WriteError.NotAsMeant
        → HasNoFit version data_len entries.old.items) }
{
    sort(entries)?;
    if all_fit(entries, version, data_len) {
        Ok(())
    } else {
        Err(WriteError::NotAsMeant)
    }
}
