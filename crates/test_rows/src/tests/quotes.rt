//! Rows of CSV with quotes at all places.
use super::cells::{CSV, enriched, file};
use super::streams::{Chopped, assert_at};
use mmdb_filter::{RowPosition, Rows};
use mmdb_reader::Reader;
use mmdb_vectors::section::section_of;
use std::alloc::Global;
use std::io::BufReader;
use std::process::Abort;

const TABS: Rows = Rows::Csv { delimiter: b'\t' };

const QUOTES: Rows = Rows::Csv { delimiter: b'"' };

const LINE_FEEDS: Rows = Rows::Csv { delimiter: b'\n' };

/// What rows are, the column, the input, and what is written where 128.0.0.0/1 has the text `a"b,c`.
type Row = (Rows, usize, &'static [u8], &'static [u8]);

#[rattlefmt::skip]
const ROWS_OF_QUOTES: &[Row] = &[
    // cells of nothing, in quotes and without
    (CSV, 1, b"\"\",200.0.0.1\n", b"\"\",200.0.0.1,\"a\"\"b,c\"\n"),
    (CSV, 3, b"\"\",,\"\",200.0.0.1\n", b"\"\",,\"\",200.0.0.1,\"a\"\"b,c\"\n"),
    (CSV, 0, b"200.0.0.1,\"\",\"\"\n", b"200.0.0.1,\"\",\"\",\"a\"\"b,c\"\n"),
    (CSV, 0, b"200.0.0.1,\"\",\"\"\r\n", b"200.0.0.1,\"\",\"\",\"a\"\"b,c\"\r\n"),
    (CSV, 2, b"\"\",\"\",\"200.0.0.1\",\"\"", b"\"\",\"\",\"200.0.0.1\",\"\",\"a\"\"b,c\""),
    (CSV, 0, b"\"\"\n\"\"\r\n\"\"", b"\"\",\n\"\",\r\n\"\","),
    (TABS, 1, b"\"\"\t200.0.0.1\n", b"\"\"\t200.0.0.1\t\"a\"\"b,c\"\n"),
    (TABS, 1, b"\"a\tb\"\t200.0.0.1\n", b"\"a\tb\"\t200.0.0.1\t\"a\"\"b,c\"\n"),
    // a cell of one quote, of two, and of one before a delimiter
    (CSV, 1, b"\"\"\"\",200.0.0.1\n", b"\"\"\"\",200.0.0.1,\"a\"\"b,c\"\n"),
    (CSV, 1, b"\"\"\"\"\"\",200.0.0.1\n", b"\"\"\"\"\"\",200.0.0.1,\"a\"\"b,c\"\n"),
    (CSV, 1, b"\"\"\",\",200.0.0.1\n", b"\"\"\",\",200.0.0.1,\"a\"\"b,c\"\n"),
    (CSV, 1, b"\",\"\"\",200.0.0.1\n", b"\",\"\"\",200.0.0.1,\"a\"\"b,c\"\n"),
    (CSV, 1, b"\"\"\"\n\",200.0.0.1\n", b"\"\"\"\n\",200.0.0.1,\"a\"\"b,c\"\n"),
    // a delimiter between quotes, and quotes that close before one
    (CSV, 1, b"\",\",200.0.0.1\n", b"\",\",200.0.0.1,\"a\"\"b,c\"\n"),
    (CSV, 1, b"\"\n\",200.0.0.1\n", b"\"\n\",200.0.0.1,\"a\"\"b,c\"\n"),
    (CSV, 2, b"\"a\",\",\",200.0.0.1\n", b"\"a\",\",\",200.0.0.1,\"a\"\"b,c\"\n"),
    (CSV, 1, b"\"a\",\"\n\",200.0.0.1\n", b"\"a\",\"\n\",200.0.0.1,\n"),
    // text behind the quotes, where a quote is one of the text
    (CSV, 1, b"\"\"a,200.0.0.1\n", b"\"\"a,200.0.0.1,\"a\"\"b,c\"\n"),
    (CSV, 1, b"\"\"a\",200.0.0.1\n", b"\"\"a\",200.0.0.1,\"a\"\"b,c\"\n"),
    (CSV, 1, b"\"a,\"b\"c,200.0.0.1\n", b"\"a,\"b\"c,200.0.0.1,\"a\"\"b,c\"\n"),
    (CSV, 1, b"a\"\",200.0.0.1\n", b"a\"\",200.0.0.1,\"a\"\"b,c\"\n"),
    (CSV, 1, b" \"a,200.0.0.1\n", b" \"a,200.0.0.1,\"a\"\"b,c\"\n"),
    // quotes that do not close
    (CSV, 1, b"\"\",\"200.0.0.1\nx", b"\"\",\"200.0.0.1\nx,"),
    (CSV, 1, b"\"\"\",200.0.0.1\nx", b"\"\"\",200.0.0.1\nx,"),
    // a delimiter that is a quote, or ends rows
    (QUOTES, 1, b"a\"200.0.0.1\n", b"a\"200.0.0.1\"\"a\"\"b,c\"\n"),
    (QUOTES, 1, b"\"200.0.0.1\"\n", b"\"200.0.0.1\"\"\"a\"\"b,c\"\n"),
    (QUOTES, 2, b"\"\"200.0.0.1\n", b"\"\"200.0.0.1\"\"a\"\"b,c\"\n"),
    (LINE_FEEDS, 0, b"\"a\"\n\"200.0.0.1\"\n", b"\"a\"\n\n\"200.0.0.1\"\n\"a\"\"b,c\"\n"),
];

/// Bytes a read, and those of the buffer.
const STEPS: &[(usize, usize)] = &[(1_000_000, 1_000_000), (100, 1000), (7, 16), (1, 1)];

// Whether this is written of an input in all steps.
fn is_written(
    alloc: Global,
    reader: &Reader<&[u8]>,
    rows: Rows,
    column: usize,
    input: &[u8],
    want: &[u8],
) -> bool {
    for (step, capacity) in STEPS {
        let chopped = Chopped::new(input, *step, u32::MAX);
        let Ok(mut input) = BufReader::with_capacity(alloc, *capacity, chopped) else {
            return false;
        };
        let mut out: Vec<u8> = Vec::new(alloc);
        let is_done = enriched(alloc, reader, rows, column, &mut input, &mut out);
        if !is_done || out.as_slice() != want {
            return false;
        }
    }
    true
}

#[test]
fn rows_of_quotes(rt: HostRuntime) {
    let bytes = file(rt.alloc());
    let reader = Reader::from_source(rt.alloc(), bytes.as_slice()).expect(&rt, "a reader");
    for (case, (rows, column, input, want)) in ROWS_OF_QUOTES.iter().enumerate() {
        let is_right = is_written(rt.alloc(), &reader, *rows, *column, input, want);
        assert_at(&rt, is_right, case);
    }
}

/// How many bytes stand before what is special, or behind it: around 16, 32, 48 and 64 of them, with a quote or without.
const LENGTHS: &[usize] = &[
    0, 1, 2, 13, 14, 15, 16, 17, 30, 31, 32, 33, 47, 48, 62, 63, 64, 65, 80,
];

/// What may stand between quotes, as it is written.
const QUOTED: &[&[u8]] = &[
    b"",
    b",",
    b"\n",
    b"\r\n",
    b"\"\"",
    b"\"\"\"\"",
    b"\"\",\"\"",
    b"\"\"\n",
];

// Asserts that a cell in quotes is one, and the address stands in the next, with so many bytes before what is special in it.
fn assert_quoted(
    rt: &impl Abort,
    alloc: Global,
    reader: &Reader<&[u8]>,
    before: usize,
    special: &[u8],
) {
    let mut input: Vec<u8> = Vec::new(alloc);
    let mut want: Vec<u8> = Vec::new(alloc);
    for behind in LENGTHS {
        let cell = [
            (b"\"".as_slice(), 1),
            (b"x", before),
            (special, 1),
            (b"x", *behind),
        ];
        let row = [
            cell[0],
            cell[1],
            cell[2],
            cell[3],
            (b"\",200.0.0.1,\"\"", 1),
        ];
        let text = section_of(alloc, &row);
        let _ = input.extend_from_slice(text.as_slice());
        let _ = input.extend_from_slice(b"\n");
        let _ = want.extend_from_slice(text.as_slice());
        let _ = want.extend_from_slice(b",\"a\"\"b,c\"\n");
    }
    let is_right = is_written(alloc, reader, CSV, 1, input.as_slice(), want.as_slice());
    assert!(rt; is_right, "{special:?} behind {before} bytes");
}

#[test]
fn cells_in_quotes_of_all_lengths(rt: HostRuntime) {
    let bytes = file(rt.alloc());
    let reader = Reader::from_source(rt.alloc(), bytes.as_slice()).expect(&rt, "a reader");
    for before in LENGTHS {
        for special in QUOTED {
            assert_quoted(&rt, rt.alloc(), &reader, *before, special);
        }
    }
}

// Adds what stands behind a row: a delimiter and, where this cell is the address, the record's text.
fn put_added(delimiter: u8, cell: &[u8], out: &mut Vec<u8>) {
    let _ = out.push(delimiter);
    if cell == b"200.0.0.1".as_slice() || cell == b"\"200.0.0.1\"".as_slice() {
        let _ = out.extend_from_slice(b"\"a\"\"b,c\"");
    }
}

// What is written of rows that each end with a line feed alone, read byte by byte. Nothing stands behind an empty one.
fn read_plainly(alloc: Global, delimiter: u8, column: usize, input: &[u8]) -> Vec<u8> {
    let rows = Rows::Csv { delimiter };
    let mut out: Vec<u8> = Vec::new(alloc);
    let mut cell: Vec<u8> = Vec::new(alloc);
    let mut passed = 0usize;
    let mut begun = 0usize;
    let mut position = RowPosition::Cell;
    for byte in input {
        let next = position.after(rows, *byte);
        if next == RowPosition::Ended {
            if out.len() > begun {
                put_added(delimiter, cell.as_slice(), &mut out);
            }
            let _ = out.push(*byte);
            begun = out.len();
            cell.clear();
            passed = 0;
            position = RowPosition::Cell;
            continue;
        }
        if *byte == delimiter && position != RowPosition::Quoted {
            passed = passed.saturating_add(1);
        } else if passed == column {
            let _ = cell.push(*byte);
        }
        let _ = out.push(*byte);
        position = next;
    }
    put_added(delimiter, cell.as_slice(), &mut out);
    out
}

/// What stands in a cell, of which each four are tried.
const MARKS: &[u8] = b"\",a\n";

// Adds a row that begins with `front` and so many letters, and goes on with the marks.
fn put_marked(front: &[u8], before: usize, marks: &[u8], all: &mut Vec<u8>) {
    let _ = all.extend_from_slice(front);
    for _ in 0..before {
        let _ = all.push(b'x');
    }
    let _ = all.extend_from_slice(marks);
    let _ = all.extend_from_slice(b",200.0.0.1\n");
}

// Rows that begin with so many bytes, behind a quote or not, and go on with each four of the marks.
fn marked(alloc: Global, front: &[u8], before: usize) -> Vec<u8> {
    let mut all: Vec<u8> = Vec::new(alloc);
    for first in MARKS {
        for second in MARKS {
            for third in MARKS {
                for fourth in MARKS {
                    let marks = [*first, *second, *third, *fourth];
                    put_marked(front, before, &marks, &mut all);
                }
            }
        }
    }
    let _ = all.push(b'x');
    all
}

/// What stands before such rows' bytes, and the column.
const FRONTS: &[(&[u8], usize)] = &[
    (b"", 1),
    (b"", 2),
    (b"\"", 1),
    (b"\"", 2),
    (b"\"\",", 2),
    (b"200.0.0.1,\"", 0),
];

#[test]
fn marks_in_all_orders(rt: HostRuntime) {
    let bytes = file(rt.alloc());
    let reader = Reader::from_source(rt.alloc(), bytes.as_slice()).expect(&rt, "a reader");
    for (case, before) in LENGTHS.iter().enumerate() {
        for (front, column) in FRONTS {
            let input = marked(rt.alloc(), front, *before);
            let want = read_plainly(rt.alloc(), b',', *column, input.as_slice());
            let (input, want) = (input.as_slice(), want.as_slice());
            let is_right = is_written(rt.alloc(), &reader, CSV, *column, input, want);
            assert_at(&rt, is_right, case);
        }
    }
}
