//! Where the cells of a row are that have its addresses, and what the others hold.
use crate::entry::RowAddresses;
use crate::error::Reason;
use crate::networks::{address_of, network_of};
use crate::range::AddressRange;
use memchr::memchr;
use mmdb_filter::{RowPosition, Rows};
use std::alloc::AllocError;

/// Where a cell of a row begins and ends.
#[derive(Clone, Copy)]
pub(crate) struct CellSpan {
    start: usize,
    end: usize,
}

/// Where the cells of a row's addresses are.
#[derive(Clone, Copy)]
pub(crate) enum PlaceSpans {
    Network(CellSpan),
    /// The first address, and the last one.
    Range(CellSpan, CellSpan),
}

impl CellSpan {
    // The bytes of the cell.
    fn bytes_in(self, row: &[u8]) -> &[u8] {
        row.get(self.start..self.end).unwrap_or(&[])
    }

    // The text of the cell, none where it is no UTF-8.
    fn text_in(self, row: &[u8]) -> Option<&str> {
        str::from_utf8(self.bytes_in(row)).ok()
    }

    // Whether the cell begins with a quote.
    fn is_quoted(self, row: &[u8]) -> bool {
        self.bytes_in(row).first() == Some(&b'"')
    }
}

// Where a delimiter is that stands at some byte or behind it.
fn delimiter_from(delimiter: u8, row: &[u8], start: usize) -> Option<usize> {
    let place = memchr(delimiter, row.get(start..)?)?;
    start.checked_add(place)
}

// Where a cell of a row without quotes is.
fn span_in_plain(delimiter: u8, row: &[u8], cell: usize) -> Option<CellSpan> {
    let mut start = 0usize;
    for _ in 0..cell {
        start = delimiter_from(delimiter, row, start)?.checked_add(1)?;
    }
    let end = delimiter_from(delimiter, row, start).unwrap_or(row.len());
    Some(CellSpan { start, end })
}

// Where a cell of a row with quotes is.
fn span_in_quoted(rows: Rows, row: &[u8], cell: usize) -> Option<CellSpan> {
    let mut now = RowPosition::Cell;
    let mut start = 0usize;
    let mut left = cell;
    for (place, byte) in row.iter().enumerate() {
        now = now.after(rows, *byte);
        if now == RowPosition::Cell {
            if left == 0 {
                return Some(CellSpan { start, end: place });
            }
            left -= 1;
            start = place.checked_add(1)?;
        }
    }
    if left == 0 {
        Some(CellSpan {
            start,
            end: row.len(),
        })
    } else {
        None
    }
}

/// Where a cell of a row is, if it has so many.
pub(crate) fn span_of(rows: Rows, row: &[u8], cell: usize) -> Option<CellSpan> {
    match rows {
        Rows::Lines { delimiter } => span_in_plain(delimiter, row, cell),
        // the first cell has no quotes before it, and in quotes it is no network
        Rows::Csv { delimiter } if cell == 0 || memchr(b'"', row).is_none() => {
            span_in_plain(delimiter, row, cell)
        }
        Rows::Csv { .. } => span_in_quoted(rows, row, cell),
    }
}

// The range between two addresses.
fn range_between(first: &str, last: &str) -> Result<RowAddresses, Reason> {
    let range = AddressRange::new(address_of(first)?, address_of(last)?)?;
    Ok(RowAddresses::Range(range))
}

// Puts parts of a row behind one another.
fn join<'o>(parts: [&[u8]; 3], others: &'o mut Vec<u8>) -> Result<&'o [u8], AllocError> {
    others.clear();
    for part in parts {
        others.extend_from_slice(part)?;
    }
    Ok(others.as_slice())
}

impl PlaceSpans {
    // What a row has before, between and behind the cells of its addresses.
    fn parts_in(self, row: &[u8]) -> [&[u8]; 3] {
        let (left, right) = match self {
            PlaceSpans::Network(network) => (network, network),
            PlaceSpans::Range(first, last) if first.start < last.start => (first, last),
            PlaceSpans::Range(first, last) => (last, first),
        };
        [
            row.get(..left.start).unwrap_or(&[]),
            row.get(left.end..right.start).unwrap_or(&[]),
            row.get(right.end..).unwrap_or(&[]),
        ]
    }

    /// A row without the cells of its addresses, which is put together in `others` where it is not in one piece.
    pub(crate) fn others_in<'o>(
        self,
        row: &'o [u8],
        others: &'o mut Vec<u8>,
    ) -> Result<&'o [u8], AllocError> {
        let parts = self.parts_in(row);
        if parts[0].is_empty() && parts[1].is_empty() {
            Ok(parts[2])
        } else {
            join(parts, others)
        }
    }

    /// The addresses of a row, none where there is something wrong with them.
    pub(crate) fn place_in(self, row: &[u8]) -> Option<RowAddresses> {
        match self {
            PlaceSpans::Network(network) => {
                Some(RowAddresses::Network(network_of(network.text_in(row)?).ok()?))
            }
            PlaceSpans::Range(first, last) => {
                range_between(first.text_in(row)?, last.text_in(row)?).ok()
            }
        }
    }

    /// Whether a cell of addresses is in quotes.
    pub(crate) fn are_quoted(self, row: &[u8]) -> bool {
        match self {
            PlaceSpans::Network(network) => network.is_quoted(row),
            PlaceSpans::Range(first, last) => first.is_quoted(row) || last.is_quoted(row),
        }
    }
}
