//! Rows that are read whole, up to a limit.
use mmdb_filter::{RowPosition, Rows, read_chunk};
use std::alloc::Global;
use std::io::{self, BufRead, ErrorKind};

/// How many bytes a row may have.
pub const MOST_ROW: usize = 4_194_304;

/// What was read.
#[derive(Clone, Copy, Debug, PartialEq, Eq)]
pub enum RowRead {
    /// A row, whole.
    Whole,
    /// A row of more bytes than one may have, of which the first ones are at hand. The others were passed over.
    TooLong,
    /// What comes after a quote that nothing closes, up to the end of the input.
    Unclosed,
    /// The first bytes of a row, as many as one may have, after which a quote is still open. Nothing behind them is a row.
    StillOpen,
    /// Nothing: the input is at its end.
    End,
}

// Appends what there is room for, and says whether that was all.
fn append(row: &mut Vec<u8>, chunk: &[u8]) -> io::Result<bool> {
    if chunk.len() > MOST_ROW.saturating_sub(row.len()) {
        return Ok(false);
    }
    row.extend_from_slice(chunk)?;
    Ok(true)
}

// How many lines end in some bytes of a row. Only in CSV there may be several.
fn line_ends(rows: Rows, bytes: &[u8]) -> u64 {
    match rows {
        Rows::Lines { .. } => u64::from(bytes.last() == Some(&b'\n')),
        Rows::Csv { .. } => bytes.iter().filter(|byte| **byte == b'\n').count() as u64,
    }
}

// What a row is that ends here.
fn read_of(position: RowPosition, is_whole: bool) -> RowRead {
    if position == RowPosition::Quoted {
        RowRead::Unclosed
    } else if is_whole {
        RowRead::Whole
    } else {
        RowRead::TooLong
    }
}

// The beginning of a chunk that a row has room for.
fn within_room<'c>(row: &[u8], chunk: &'c [u8]) -> &'c [u8] {
    let room = MOST_ROW.saturating_sub(row.len());
    chunk.get(..room).unwrap_or(chunk)
}

// Whether a quote is open behind some bytes of a row, from a position on.
fn is_open_behind(rows: Rows, from: RowPosition, bytes: &[u8]) -> bool {
    let mut now = from;
    for byte in bytes {
        now = now.after(rows, *byte);
    }
    now == RowPosition::Quoted
}

// Reads the rest of a row whose first chunk is at hand.
fn read_rest<I: BufRead>(
    alloc: Global,
    input: &mut I,
    rows: Rows,
    position: RowPosition,
    row: &mut Vec<u8>,
    lines: &mut u64,
) -> io::Result<RowRead> {
    let mut chunk = Vec::new(alloc);
    let mut is_whole = true;
    let mut now = position;
    for _ in 0..u64::MAX {
        chunk.clear();
        let before = now;
        now = read_chunk(input, rows, now, &mut chunk)?;
        if is_whole && !append(row, &chunk)? {
            is_whole = false;
            let taken = within_room(row, &chunk);
            if is_open_behind(rows, before, taken) {
                *lines = lines
                    .saturating_add(line_ends(rows, taken))
                    .saturating_add(1);
                return Ok(RowRead::StillOpen);
            }
        }
        *lines = lines.saturating_add(line_ends(rows, &chunk));
        if chunk.is_empty() || now == RowPosition::Ended {
            return Ok(read_of(now, is_whole));
        }
    }
    Err(io::Error::from(ErrorKind::FileTooLarge))
}

/// Reads the next row in place of another one, with its end, and adds to `lines` how many lines end in it.
#[inline(always)]
pub fn read_row<I: BufRead>(
    alloc: Global,
    input: &mut I,
    rows: Rows,
    row: &mut Vec<u8>,
    lines: &mut u64,
) -> io::Result<RowRead> {
    row.clear();
    let position = read_chunk(input, rows, RowPosition::Cell, row)?;
    *lines = lines.saturating_add(line_ends(rows, row));
    if row.is_empty() {
        Ok(RowRead::End)
    } else if position == RowPosition::Ended {
        Ok(RowRead::Whole)
    } else {
        read_rest(alloc, input, rows, position, row, lines)
    }
}
