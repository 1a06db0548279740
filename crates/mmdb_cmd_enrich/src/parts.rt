//! What is read of a row.
ghost use Rattle.std.specs.Prelude.{◌≡◌, Option, Some, IfSome, option_map, take, true, false};
ghost use Rattle.std.specs.declared.net.ip_addr.IpAddr.{IpAddr as SpecIpAddr};
ghost use Rattle.mmdb_addresses.specs.Addresses.{ReadsAddress};
ghost use Rattle.mmdb_addresses.specs.Cells.{first_word};
ghost use Rattle.mmdb_filter.specs.declared.rows.RowPosition.TheVariants.{Cell};
ghost use Rattle.mmdb_filter.specs.declared.rows.Rows.TheVariants.{Lines};
ghost use Rattle.mmdb_cmd_enrich.specs.Asked.{cell_read};
ghost use Rattle.mmdb_cmd_enrich.specs.Columns.{cell_length};

use crate::columns::{cell_of, cell_of_long};
use mmdb_addresses::Reading;
use mmdb_filter::{Rows, either_from};

// The front of a line that has the first word of its first cell, up to a space or the delimiter. None where a blank comes
// first.
#[inline(always)]
fn front_of(delimiter: u8, line: &[u8]) -> Option<&[u8]>
    ensures { IfSome result (λ front. first_word front.now
        ≡ first_word (take (cell_length (Lines delimiter) Cell line.now) line.now)) }
{
    let end = either_from(line, 0, delimiter, b' ');
    if end == 0 || line[0] == b'\t' {
        return None;
    }
    Some(&line[..end])
}

// A line itself, where its first word is that of its first cell: tabs separate its cells, and no blank comes first.
#[inline(always)]
fn line_of(delimiter: u8, line: &[u8]) -> Option<&[u8]>
    ensures { IfSome result (λ whole. first_word whole.now
        ≡ first_word (take (cell_length (Lines delimiter) Cell line.now) line.now)) }
{
    if delimiter != b'\t' || line.is_empty() || line[0] == b' ' || line[0] == b'\t' {
        return None;
    }
    Some(line)
}

// What has the first word of the first cell of a line: its front alone, where that is to be kept, or the line.
#[inline(always)]
fn word_part(delimiter: u8, is_kept: bool, line: &[u8]) -> Option<&[u8]>
    ensures { IfSome result (λ part. first_word part.now
        ≡ first_word (take (cell_length (Lines delimiter) Cell line.now) line.now)) }
{
    if is_kept {
        front_of(delimiter, line)
    } else {
        line_of(delimiter, line)
    }
}

// The front of a row, where the first word of the first cell is read in a line.
#[inline(always)]
fn front_read(
    rows: Rows,
    reading: Reading,
    row: &[u8],
    column: usize,
    is_kept: bool,
) -> Option<&[u8]>
    ensures { IfSome result (λ front. (found : Option SpecIpAddr)
        → ReadsAddress reading (Some front.now) found
        → ReadsAddress reading (cell_read rows reading column row.now false) found) }
{
    let Rows::Lines { delimiter } = rows else {
        return None;
    };
    let Reading::First = reading else {
        return None;
    };
    if column > 0 {
        return None;
    }
    word_part(delimiter, is_kept, row)
}

// What is read of the cell of a column of a row that is longer than what is seen of it.
#[inline(always)]
fn part_of_long(rows: Rows, reading: Reading, row: &[u8], column: usize) -> Option<&[u8]>
    ensures { option_map (λ s. s.now) result ≡ cell_read rows reading column row.now true }
{
    cell_of_long(rows, reading, row, column)
}

/// What is read of the cell of a column: what it holds, or of a line's first cell what has its first word, since all of the
/// line may be one cell. Where it is to be kept it is the front of the line, else no end is looked for. Of a cell of which the
/// end is not seen its first word is read all the same, where that ends.
#[inline(always)]
pub(crate) fn part_of(
    rows: Rows,
    reading: Reading,
    row: &[u8],
    goes_on: bool,
    column: usize,
    is_kept: bool,
) -> Option<&[u8]>
    ensures { (found : Option SpecIpAddr)
        → ReadsAddress reading (option_map (λ s. s.now) result) found
        → ReadsAddress reading (cell_read rows reading column row.now goes_on) found }
{
    if goes_on {
        return part_of_long(rows, reading, row, column);
    }
    if let Some(front) = front_read(rows, reading, row, column, is_kept) {
        return Some(front);
    }
    cell_of(rows, row, false, column)
}
