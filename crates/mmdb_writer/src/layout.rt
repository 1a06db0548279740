//! The data section of a file: values that are used once stand in line.
ghost use Rattle.std.specs.Prelude.{IfOk, IsTrue};
ghost use Rattle.std.specs.List.{AllByRecursion, AllZip};
ghost use Rattle.mmdb_writer.specs.Layout.{HasMoved, IsMovedOffset, IsMovedEntry, IsLaidOut};

use mmdb_nodes::NodeEntry;
use mmdb_section::{MovedSection, Section, in_line};
use std::alloc::{AllocError, Global};

// Whether the values at all offsets stand by themselves in a section that was moved.
fn have_moved(moved: &MovedSection, offsets: &[u32]) -> bool
    ensures { IsTrue result → AllByRecursion (HasMoved moved.now) offsets.now }
{
    for offset in offsets {
        if moved.offset(*offset).is_none() {
            return false;
        }
    }
    true
}

// Where the value of an entry begins in a section that was moved, if it has one.
fn moved_offset(moved: &MovedSection, offset: Option<u32>) -> Option<u32>
    ensures { IsMovedOffset moved.now offset result }
{
    moved.offset(offset?)
}

// The entries, with the offsets at which their values begin in a section that was moved.
fn move_entries(moved: &MovedSection, entries: &mut Vec<NodeEntry>)
    ensures { AllZip (IsMovedEntry moved.now) entries.old.items entries.new.items }
{
    for i in 0..entries.len() {
        entries[i].offset = moved_offset(moved, entries[i].offset);
    }
}

// The bytes of a section, the values at `offsets` by themselves and others that are used once in line, and the entries of its
// values.
pub(crate) fn lay_out(
    alloc: Global,
    section: Section,
    offsets: &[u32],
    entries: &mut Vec<NodeEntry>,
) -> Result<Vec<u8>, AllocError>
    ensures { IfOk result (λ bytes.
        IsLaidOut section.bytes offsets.now entries.old.items bytes.items entries.new.items) }
{
    let bytes = section.into_bytes();
    if let Some(moved) = in_line(alloc, &bytes, offsets)? {
        if have_moved(&moved, offsets) {
            move_entries(&moved, entries);
            return Ok(moved.into_bytes());
        }
    }
    Ok(bytes)
}
