//! The address in a row.
ghost use Rattle.std.specs.Prelude.{◌≡◌, ◌≢◌, ◌≤◌, get_or, length, option_map, true, false};
ghost use Rattle.mmdb_filter.specs.declared.rows.RowPosition.TheVariants.{Cell};
ghost use Rattle.mmdb_filter.specs.declared.rows.Rows.TheVariants.{Csv};
ghost use Rattle.mmdb_cmd_enrich.specs.Asked.{cell_read};
ghost use Rattle.mmdb_cmd_enrich.specs.Columns.{delimiter_of as spec_delimiter_of, cell_length as spec_cell_length, column_of as spec_column_of, value_of as spec_value_of, HasBreaks};

use mmdb_addresses::{Reading, whole_words};
use mmdb_filter::{Rows, either_from, here_or_from};

/// What separates cells.
#[inline(always)]
pub fn delimiter_of(rows: Rows) -> u8
    ensures { result ≡ spec_delimiter_of rows }
{
    match rows {
        Rows::Lines { delimiter } | Rows::Csv { delimiter } => delimiter,
    }
}

// How many bytes come before the first delimiter that is not between quotes, or all. It goes to the quote that closes, and on
// where another one follows it, since the bytes before these are passed many at a time.
fn quoted_cell_length(delimiter: u8, text: &[u8]) -> usize
    ensures length { result ≡ spec_cell_length (Csv delimiter) Cell text.now }
    ensures within { result ≤ length text.now }
{
    let mut at = 0;
    while at < text.len() && text[at] == b'"' && delimiter != b'"' {
        let quote = here_or_from(text, at + 1, b'"', b'"');
        if quote >= text.len() {
            return quote;
        }
        at = quote + 1;
    }
    here_or_from(text, at, delimiter, delimiter)
}

// Whether a cell begins with a quote.
#[inline(always)]
fn begins_with_quote(text: &[u8]) -> bool
    ensures { result ≡ false → get_or text.now 0 0 ≢ 34 }
{
    !text.is_empty() && text[0] == b'"'
}

// How many bytes come before the first delimiter of a cell, or all.
#[inline(always)]
fn cell_length(rows: Rows, text: &[u8]) -> usize
    ensures length { result ≡ spec_cell_length rows Cell text.now }
    ensures within { result ≤ length text.now }
{
    match rows {
        Rows::Lines { delimiter } => either_from(text, 0, delimiter, delimiter),
        Rows::Csv { delimiter } if begins_with_quote(text) => quoted_cell_length(delimiter, text),
        Rows::Csv { delimiter } => here_or_from(text, 0, delimiter, delimiter),
    }
}

/// How many delimiters there are between the cells of a row.
pub(crate) fn breaks_in(rows: Rows, row: &[u8]) -> usize
    ensures { HasBreaks rows row.now result }
{
    let mut rest = row;
    for passed in 0..row.len() {
        let len = cell_length(rows, rest);
        if len >= rest.len() {
            return passed;
        }
        rest = &rest[len..][1..];
    }
    row.len()
}

// The cell after `column` delimiters. A cell that the text's end cuts off is none.
#[inline(never)]
fn far_column_of(rows: Rows, text: &[u8], goes_on: bool, column: usize) -> Option<&[u8]>
    ensures { option_map (λ s. s.now) result ≡ spec_column_of rows goes_on column text.now }
{
    let mut rest = text;
    for _ in 0..column {
        let len = cell_length(rows, rest);
        if len >= rest.len() {
            return None;
        }
        rest = &rest[len..][1..];
    }
    let len = cell_length(rows, rest);
    if len >= rest.len() && goes_on {
        return None;
    }
    Some(&rest[..len])
}

// The same. The first cell is found where it is asked for, since most addresses are there.
#[inline(always)]
fn column_of(rows: Rows, text: &[u8], goes_on: bool, column: usize) -> Option<&[u8]>
    ensures { option_map (λ s. s.now) result ≡ spec_column_of rows goes_on column text.now }
{
    if column > 0 {
        return far_column_of(rows, text, goes_on, column);
    }
    let len = cell_length(rows, text);
    if len >= text.len() && goes_on {
        return None;
    }
    Some(&text[..len])
}

// What a cell holds: in CSV what is between its quotes, where it has them.
#[inline(always)]
fn value_of(rows: Rows, cell: &[u8]) -> &[u8]
    ensures { result.now ≡ spec_value_of rows cell.now }
{
    let len = cell.len();
    if matches!(rows, Rows::Csv { .. }) && len > 1 && cell[0] == b'"' && cell[len - 1] == b'"' {
        &cell[1..][..len - 2]
    } else {
        cell
    }
}

/// What is read of the cell of a column of a row that is longer than what is seen of it.
#[cold]
#[inline(never)]
pub(crate) fn cell_of_long(rows: Rows, reading: Reading, row: &[u8], column: usize) -> Option<&[u8]>
    ensures { option_map (λ s. s.now) result ≡ cell_read rows reading column row.now true }
{
    if let Some(cell) = cell_of(rows, row, true, column) {
        return Some(cell);
    }
    let Reading::First = reading else {
        return None;
    };
    match column_of(rows, row, false, column) {
        Some(cell) => Some(whole_words(cell)),
        None => None,
    }
}

/// What the cell of a column holds. It is inlined, with what it calls, since it is asked of each row.
#[inline(always)]
pub(crate) fn cell_of(rows: Rows, text: &[u8], goes_on: bool, column: usize) -> Option<&[u8]>
    ensures { option_map (λ s. s.now) result
        ≡ option_map (spec_value_of rows) (spec_column_of rows goes_on column text.now) }
{
    match column_of(rows, text, goes_on, column) {
        Some(cell) => Some(value_of(rows, cell)),
        None => None,
    }
}
