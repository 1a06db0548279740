//! The records of a section that was checked.
ghost use Rattle.std.specs.Prelude.{◌≡◌, IfOk, IfErr, OnOk};
ghost use Rattle.mmdb_format.specs.Error.{MemoryApart};
ghost use Rattle.mmdb_costs.specs.Readable.{IsGoodAt, AreGoodAt, IsReadable, AreReadable};

use crate::kept_costs::KeptCosts;
use mmdb_decode::decoder::Decoder;
use mmdb_format::error::MaxMindDbError;
use mmdb_offsets::OffsetSet;
use mmdb_record::decode::Decode;
use mmdb_value::Value;
use std::alloc::Global;

// Reads the value at an offset of a section.
fn read_record(alloc: Global, section: &[u8], offset: usize) -> Result<(), MaxMindDbError>
    ensures ok { OnOk result (IsReadable section.now offset) }
    ensures err { IfErr result (λ e. MemoryApart e (¬ IsReadable section.now offset)) }
{
    let mut decoder = Decoder::new(section, offset);
    match Value::decode(alloc, &mut decoder) {
        Ok(value) => {
            drop(value);
            Ok(())
        }
        Err(error) => Err(error),
    }
}

// Whether the value at an offset can be read. Where its cost does not say yes, it is read, which says why not.
fn check_record(
    alloc: Global,
    costs: &mut KeptCosts<'_>,
    section: &[u8],
    offset: usize,
) -> Result<(), MaxMindDbError>
    requires section { costs.old ≡ section.now }
    requires good { IsGoodAt section.now offset }
    ensures ok { OnOk result (IsReadable section.now offset) }
    ensures err { IfErr result (λ e. MemoryApart e (¬ IsReadable section.now offset)) }
    ensures same { costs.new ≡ costs.old }
{
    if costs.fits(offset)? {
        return Ok(());
    }
    read_record(alloc, section, offset)
}

// Whether the values at the offsets of a set can be read.
fn check_each(
    alloc: Global,
    costs: &mut KeptCosts<'_>,
    section: &[u8],
    offsets: &OffsetSet,
) -> Result<(), MaxMindDbError>
    requires section { costs.old ≡ section.now }
    requires good { AreGoodAt section.now offsets.now }
    ensures ok { OnOk result (AreReadable section.now offsets.now) }
    ensures err { IfErr result (λ e. MemoryApart e (¬ AreReadable section.now offsets.now)) }
{
    let mut next = 0;
    while let Some(offset) = offsets.next_from(next) {
        check_record(alloc, costs, section, offset)?;
        next = offset + 1;
    }
    Ok(())
}

/// Whether a `Value` can be read at each offset of a set, which a check of the section found good.
///
/// It succeeds, unless out of memory, exactly where each can. The error is that of reading the first that can't: its offset
/// counts from the section's start.
pub fn check_records(
    alloc: Global,
    section: &[u8],
    offsets: &OffsetSet,
) -> Result<(), MaxMindDbError>
    requires { AreGoodAt section.now offsets.now }
    ensures ok { OnOk result (AreReadable section.now offsets.now) }
    ensures err { IfErr result (λ e. MemoryApart e (¬ AreReadable section.now offsets.now)) }
{
    let mut costs = KeptCosts::new(alloc, section)?;
    check_each(alloc, &mut costs, section, offsets)
}
