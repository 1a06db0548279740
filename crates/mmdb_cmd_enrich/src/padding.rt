//! What rows lack that have fewer cells than the first row.
ghost use Rattle.std.specs.Prelude.{◌≡◌, ◌-◌, ◌++◌, Some, OnOk, replicate};
ghost use Rattle.mmdb_cmd_enrich.specs.Columns.{delimiter_of as spec_delimiter_of};
ghost use Rattle.mmdb_cmd_enrich.specs.Working.{PutsPadding};

use crate::columns::{breaks_in, delimiter_of};
use crate::notes::Notes;
use mmdb_filter::Rows;
use std::alloc::AllocError;

// Adds the delimiter so many times.
fn put_delimiters(rows: Rows, count: usize, out: &mut Vec<u8>) -> Result<(), AllocError>
    ensures { OnOk result
        (out.new.items ≡ out.old.items ++ replicate count (spec_delimiter_of rows)) }
{
    for _ in 0..count {
        out.push(delimiter_of(rows))?;
    }
    Ok(())
}

// Adds the delimiters that a row lacks where the first row has so many. A row with more cells than the first one is noted, and
// one of which not all is seen.
#[inline(never)]
fn put_padding(
    rows: Rows,
    breaks: usize,
    text: &[u8],
    is_long: bool,
    notes: &mut Notes,
    out: &mut Vec<u8>,
) -> Result<(), AllocError>
    ensures { OnOk result (PutsPadding rows (Some breaks) text.now is_long
        out.old.items out.new.items) }
{
    if is_long {
        notes.note_long();
        return Ok(());
    }
    if text.is_empty() {
        return Ok(());
    }
    let count = breaks_in(rows, text);
    if count > breaks {
        notes.note_wider();
    }
    put_delimiters(rows, breaks.saturating_sub(count), out)
}

/// Adds the delimiters that a row lacks where the first row names columns, and has so many, so that what is added comes under its
/// name.
#[inline(always)]
pub(crate) fn put_missing(
    rows: Rows,
    breaks: Option<usize>,
    text: &[u8],
    is_long: bool,
    notes: &mut Notes,
    out: &mut Vec<u8>,
) -> Result<(), AllocError>
    ensures { OnOk result (PutsPadding rows breaks text.now is_long out.old.items out.new.items) }
{
    match breaks {
        Some(breaks) => put_padding(rows, breaks, text, is_long, notes, out),
        None => Ok(()),
    }
}
