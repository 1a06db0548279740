//! Where rows end.
ghost use Rattle.std.specs.Prelude.{◌≡◌, ◌≢◌, ◌+◌, ◌<◌, ◌≤◌, ◌++◌, [], ℕ, List, None, IfSome, get_or, length, take, drop, true};
ghost use Rattle.mmdb_filter.specs.Lines.{text_of};
ghost use Rattle.mmdb_filter.specs.Rows.{position_after, row_from, rows_after, Goes};
ghost use Rattle.mmdb_filter.specs.Working.{position_behind};
ghost use Rattle.mmdb_filter.specs.declared.rows.RowPosition.TheVariants as spec_position;
ghost use Rattle.mmdb_filter.specs.declared.rows.Rows.TheVariants.{Csv};

use crate::runs::{either_from, here_or_from};
use crate::text::text_length;
use memchr::memchr;

/// What a row is. Each ends with a line feed, or with the text.
#[derive(Clone, Copy, PartialEq, Eq)]
pub enum Rows {
    /// A line, whatever it holds: its cells have no quotes.
    Lines {
        /// What is between cells.
        delimiter: u8,
    },
    /// A row of CSV, which a line feed between quotes does not end.
    Csv {
        /// What is between cells.
        delimiter: u8,
    },
}

/// Where one is in a row, after some of its bytes.
#[derive(Clone, Copy, PartialEq, Eq)]
pub enum RowPosition {
    /// A cell begins.
    Cell,
    /// In a cell, and not between quotes.
    Plain,
    /// Between quotes.
    Quoted,
    /// After a quote that ends the quoted text, or is the first of two that stand for one.
    Closing,
    /// After the line feed.
    Ended,
}

impl RowPosition {
    /// The position one byte on.
    #[inline(always)]
    #[tactic(auto, unfolding(crate::specs::Rows::position_after))]
    pub fn after(self, rows: Rows, byte: u8) -> RowPosition
        ensures { result ≡ position_after rows self byte }
    {
        match (rows, self) {
            (Rows::Lines { .. }, _) if byte == b'\n' => RowPosition::Ended,
            (Rows::Lines { .. }, position) => position,
            (Rows::Csv { .. }, RowPosition::Quoted) if byte == b'"' => RowPosition::Closing,
            (Rows::Csv { .. }, RowPosition::Quoted) => RowPosition::Quoted,
            (Rows::Csv { .. }, _) if byte == b'\n' => RowPosition::Ended,
            (Rows::Csv { delimiter }, _) if byte == delimiter => RowPosition::Cell,
            (Rows::Csv { .. }, RowPosition::Cell | RowPosition::Closing) if byte == b'"' =>
                RowPosition::Quoted,
            (Rows::Csv { .. }, _) => RowPosition::Plain,
        }
    }
}

// The position after bytes of which none is a quote or a line feed. Outside of quotes the last of them alone tells it.
#[inline(always)]
fn behind_run(delimiter: u8, now: RowPosition, bytes: &[u8], from: usize, to: usize) -> RowPosition
    requires { to ≤ length bytes.now }
    ensures { result ≡ position_behind delimiter now bytes.now from to }
{
    if now == RowPosition::Quoted || to <= from {
        now
    } else if bytes[to - 1] == delimiter {
        RowPosition::Cell
    } else {
        RowPosition::Plain
    }
}

// Whether a delimiter is at an index, and a quote after it, so that a cell in quotes begins there.
#[inline(always)]
#[tactic(auto, unfolding(crate::specs::Rows::position_after))]
fn next_is_quoted(delimiter: u8, bytes: &[u8], at: usize) -> bool
    requires { at ≤ length bytes.now }
    ensures within { result ≡ true → at + 1 < length bytes.now }
    ensures cell { result ≡ true → position_after (Csv delimiter) spec_position.Closing
        (get_or bytes.now at 0) ≡ spec_position.Cell }
    ensures quoted { result ≡ true → position_after (Csv delimiter) spec_position.Cell
        (get_or bytes.now (at + 1) 0) ≡ spec_position.Quoted }
{
    at + 1 < bytes.len()
        && bytes[at] == delimiter
        && bytes[at + 1] == b'"'
        && delimiter != b'\n'
        && delimiter != b'"'
}

// How many of the bytes belong to a row of CSV, and the position after them. Between quotes it goes to the next quote, else
// to the next one or a line feed, since the bytes before these are passed many at a time. Cells in quotes are mostly side
// by side, so what leads from one to the next is passed at once.
fn scan_quotes(delimiter: u8, position: RowPosition, bytes: &[u8]) -> (usize, RowPosition)
    requires { position ≢ spec_position.Ended }
    ensures within { result.0 ≤ length bytes.now }
    ensures goes { (ys : List ℕ) → Goes (Csv delimiter) position (bytes.now ++ ys)
        (take result.0 bytes.now) result.1 (drop result.0 bytes.now ++ ys) }
    ensures some { 0 < length bytes.now → 0 < result.0 }
    ensures all { result.1 ≢ spec_position.Ended → result.0 ≡ length bytes.now }
{
    let rows = Rows::Csv { delimiter };
    let mut now = position;
    let mut at = 0;
    while at < bytes.len() {
        if now == RowPosition::Quoted {
            let quote = here_or_from(bytes, at, b'"', b'"');
            if quote >= bytes.len() {
                return (quote, now);
            }
            if next_is_quoted(delimiter, bytes, quote + 1) {
                at = quote + 3;
            } else {
                now = RowPosition::Closing;
                at = quote + 1;
            }
            continue;
        }
        if bytes[at] == b'"' {
            now = now.after(rows, b'"');
            at += 1;
            continue;
        }
        let stop = either_from(bytes, at, b'"', b'\n');
        now = behind_run(delimiter, now, bytes, at, stop);
        if stop >= bytes.len() {
            return (stop, now);
        }
        if bytes[stop] == b'\n' {
            return (stop + 1, RowPosition::Ended);
        }
        now = now.after(rows, b'"');
        at = stop + 1;
    }
    (at, now)
}

/// How many of the bytes belong to the row, and the position after them.
#[inline(always)]
pub(crate) fn scan(rows: Rows, position: RowPosition, bytes: &[u8]) -> (usize, RowPosition)
    requires { position ≢ spec_position.Ended }
    ensures within { result.0 ≤ length bytes.now }
    ensures goes { (ys : List ℕ) → Goes rows position (bytes.now ++ ys)
        (take result.0 bytes.now) result.1 (drop result.0 bytes.now ++ ys) }
    ensures some { 0 < length bytes.now → 0 < result.0 }
    ensures all { result.1 ≢ spec_position.Ended → result.0 ≡ length bytes.now }
{
    match rows {
        Rows::Lines { .. } => match memchr(b'\n', bytes) {
            Some(at) => (at + 1, RowPosition::Ended),
            None => (bytes.len(), position),
        },
        Rows::Csv { delimiter } => scan_quotes(delimiter, position, bytes),
    }
}

/// The text of the row that is first in some bytes, without its end, and the bytes after it; none where it may go on
/// after them.
pub fn first_row(rows: Rows, bytes: &[u8]) -> Option<(&[u8], &[u8])>
    ensures text { IfSome result (λ r. r.0.now
        ≡ text_of (row_from rows spec_position.Cell bytes.now)) }
    ensures rest { IfSome result (λ r. r.1.now ≡ rows_after rows spec_position.Cell bytes.now) }
    ensures last { result ≡ None → rows_after rows spec_position.Cell bytes.now ≡ [] }
{
    let (len, next) = scan(rows, RowPosition::Cell, bytes);
    if next != RowPosition::Ended {
        return None;
    }
    let (row, rest) = bytes.split_at(len);
    Some((&row[..text_length(row)], rest))
}
