//! Columns, addresses in them, and cells of CSV.
use super::streams::{Seen, assert_at};
use mmdb_addresses::Reading;
use mmdb_cmd_enrich::{Ask, Enrichment, Notes, OneDatabase, RowCells};
use mmdb_filter::{Counts, Live, Rows, filter_rows, put_csv_cell};
use mmdb_reader::{PathElement, Reader};
use mmdb_vectors::builder::{BASE_NODE, changed_file};
use mmdb_vectors::section::section_of;
use std::alloc::Global;
use std::io::Write;

/// Rows of CSV.
pub(crate) const CSV: Rows = Rows::Csv { delimiter: b',' };

const SEMICOLONS: Rows = Rows::Csv { delimiter: b';' };

/// What rows are, the column, the input, and what is written where 128.0.0.0/1 has the text of the next line.
type Row = (Rows, usize, &'static [u8], &'static [u8]);

#[rattlefmt::skip]
const ROWS: &[Row] = &[
    (Rows::Lines { delimiter: b'\t' }, 0, b"200.0.0.1\n", b"200.0.0.1\ta\"b,c\n"),
    (Rows::Lines { delimiter: b'\t' }, 1, b"x\t200.0.0.1\ty\r\n", b"x\t200.0.0.1\ty\ta\"b,c\r\n"),
    (Rows::Lines { delimiter: b'\t' }, 0, b"\"200.0.0.1\"\n", b"\"200.0.0.1\"\t\n"),
    (Rows::Lines { delimiter: b'\t' }, 2, b"a\tb\n", b"a\tb\t\n"),
    (CSV, 0, b"200.0.0.1\n", b"200.0.0.1,\"a\"\"b,c\"\n"),
    (CSV, 0, b"\"200.0.0.1\"\r\n", b"\"200.0.0.1\",\"a\"\"b,c\"\r\n"),
    (CSV, 0, b"1.1.1.1\nx", b"1.1.1.1,\nx,"),
    (CSV, 1, b"\"a,b\",200.0.0.1\n", b"\"a,b\",200.0.0.1,\"a\"\"b,c\"\n"),
    (CSV, 1, b"\"a\nb\",200.0.0.1\n", b"\"a\nb\",200.0.0.1,\"a\"\"b,c\"\n"),
    (CSV, 1, b"\"a\"\"\n,\",200.0.0.1\nz", b"\"a\"\"\n,\",200.0.0.1,\"a\"\"b,c\"\nz,"),
    (CSV, 1, b"a\"b,200.0.0.1\n", b"a\"b,200.0.0.1,\"a\"\"b,c\"\n"),
    (CSV, 0, b"\"200.0.0.1\n", b"\"200.0.0.1,\n"),
    (SEMICOLONS, 1, b"a,b;200.0.0.1\n", b"a,b;200.0.0.1;\"a\"\"b,c\"\n"),
    (SEMICOLONS, 2, b"\"a;\";;200.0.0.1\n", b"\"a;\";;200.0.0.1;\"a\"\"b,c\"\n"),
];

/// The base file with the record of 128.0.0.0/1, a text.
pub(crate) fn file(alloc: Global) -> Vec<u8> {
    changed_file(alloc, BASE_NODE, b"\x45a\"b,c", &[]).unwrap_or(Vec::new(alloc))
}

// The path of a whole record, alone.
fn whole_record(alloc: Global) -> Vec<Vec<PathElement<'static>>> {
    let mut paths = Vec::new(alloc);
    let _ = paths.push(Vec::new(alloc));
    paths
}

/// The filter with the record of the address that is a cell of a column; whether it came to the end.
pub(crate) fn enriched<I: Live, W: Write>(
    alloc: Global,
    reader: &Reader<&[u8]>,
    rows: Rows,
    column: usize,
    input: &mut I,
    out: &mut W,
) -> bool {
    let what = whole_cells(alloc, rows, Reading::Exact, column);
    enriched_from(alloc, OneDatabase { reader }, what, input, out)
}

/// Cells of the whole record of the address that is read so in a column.
pub(crate) fn whole_cells(
    alloc: Global,
    rows: Rows,
    reading: Reading,
    column: usize,
) -> RowCells<'static> {
    RowCells {
        rows,
        reading,
        column,
        breaks: None,
        network: false,
        paths: whole_record(alloc),
    }
}

/// The filter with such cells from databases; whether it came to the end.
pub(crate) fn enriched_from<D: Ask + Drop, I: Live, W: Write>(
    alloc: Global,
    from: D,
    what: RowCells<'_>,
    input: &mut I,
    out: &mut W,
) -> bool {
    let rows = what.rows;
    let enrichment = Enrichment { alloc, from, what };
    let Ok(mut memory) = enrichment.memory(Notes::new(alloc)) else {
        return false;
    };
    filter_rows(
        alloc,
        rows,
        &enrichment,
        &mut memory,
        Counts::new(),
        input,
        out,
        &mut Seen(0),
    )
    .is_ok()
}

// Whether this is written of an input.
fn is_enriched(
    alloc: Global,
    reader: &Reader<&[u8]>,
    rows: Rows,
    column: usize,
    input: &[u8],
    want: &[u8],
) -> bool {
    let mut input = input;
    let mut out: Vec<u8> = Vec::new(alloc);
    let is_done = enriched(alloc, reader, rows, column, &mut input, &mut out);
    is_done && out.as_slice() == want
}

#[test]
fn columns_of_rows(rt: HostRuntime) {
    let bytes = file(rt.alloc());
    let reader = Reader::from_source(rt.alloc(), bytes.as_slice()).expect(&rt, "a reader");
    for (case, (rows, column, input, want)) in ROWS.iter().enumerate() {
        let is_right = is_enriched(rt.alloc(), &reader, *rows, *column, input, want);
        assert_at(&rt, is_right, case);
    }
}

/// How many bytes stand before the address, what stands behind it, and whether it is seen whole.
const CUTS: &[(usize, &[u8], bool)] = &[
    (65_526, b"", true),
    (65_526, b"\tb", true),
    (65_526, b"2", true),
    (65_527, b"", true),
    (65_527, b"\tb", false),
    (65_527, b"2", false),
    (65_528, b"", false),
    (70_000, b"", false),
];

// Whether an address is seen or not behind so many bytes, of which the last is a tab.
fn is_cut(alloc: Global, reader: &Reader<&[u8]>, row: &(usize, &[u8], bool)) -> bool {
    let (before, behind, is_seen) = row;
    let added: &[u8] = if *is_seen { b"\ta\"b,c" } else { b"\t" };
    let letters = before.saturating_sub(1);
    let line = [(b"x".as_slice(), letters), (b"\t200.0.0.1", 1), (behind, 1)];
    let input = section_of(alloc, &[line[0], line[1], line[2], (b"\n", 1)]);
    let want = section_of(alloc, &[line[0], line[1], line[2], (added, 1), (b"\n", 1)]);
    is_enriched(
        alloc,
        reader,
        Rows::Lines { delimiter: b'\t' },
        1,
        input.as_slice(),
        want.as_slice(),
    )
}

#[test]
fn addresses_at_the_end_of_what_is_seen(rt: HostRuntime) {
    let bytes = file(rt.alloc());
    let reader = Reader::from_source(rt.alloc(), bytes.as_slice()).expect(&rt, "a reader");
    for (case, row) in CUTS.iter().enumerate() {
        assert_at(&rt, is_cut(rt.alloc(), &reader, row), case);
    }
}

/// Where the address is read, what rows are, what stands before 70,000 letters, and whether an address is seen there.
type Front = (Reading, Rows, &'static [u8], usize, &'static [u8], bool);

const TABS: Rows = Rows::Lines { delimiter: b'\t' };

// So many blanks, then this text, in the first column of a row that goes on.
#[rattlefmt::skip]
const FRONTS: &[Front] = &[
    (Reading::First, TABS, b" ", 0, b"200.0.0.1 - -", true),
    (Reading::First, TABS, b" ", 9, b"\"200.0.0.1\";", true),
    (Reading::First, TABS, b" ", 0, b"200.0.0.1", false),
    (Reading::First, TABS, b" ", 0, b"x 200.0.0.1 ", false),
    (Reading::First, CSV, b" ", 0, b"\"200.0.0.1 - -", true),
    (Reading::First, CSV, b" ", 0, b"200.0.0.1 - -", true),
    (Reading::First, CSV, b" ", 0, b"200.0.0.1", false),
    (Reading::First, TABS, b" ", 65_526, b"200.0.0.1 ", true),
    (Reading::First, TABS, b" ", 65_527, b"200.0.0.1 ", false),
    (Reading::Exact, TABS, b" ", 0, b"200.0.0.1 ", false),
    (Reading::Exact, TABS, b" ", 0, b"200.0.0.1\t", true),
    (Reading::Last, TABS, b" ", 0, b"1.1.1.1, 200.0.0.1 ", false),
    (Reading::Last, TABS, b" ", 0, b"1.1.1.1, 200.0.0.1\t", true),
    (Reading::Anywhere, TABS, b" ", 0, b"from 200.0.0.1 ", true),
    (Reading::LastAnywhere, TABS, b" ", 0, b"from 200.0.0.1 ", false),
];

// Whether an address at the front of a long row is seen or not.
fn is_front(alloc: Global, reader: &Reader<&[u8]>, front: &Front) -> bool {
    let (reading, rows, blank, blanks, text, is_seen) = front;
    let added: &[u8] = match rows {
        Rows::Csv { .. } if *is_seen => b",\"a\"\"b,c\"",
        Rows::Csv { .. } => b",",
        Rows::Lines { .. } if *is_seen => b"\ta\"b,c",
        Rows::Lines { .. } => b"\t",
    };
    let row = [(*blank, *blanks), (*text, 1), (b"x".as_slice(), 70_000)];
    let input = section_of(alloc, &row);
    let want = section_of(alloc, &[row[0], row[1], row[2], (added, 1)]);
    let (mut left, mut out) = (input.as_slice(), Vec::new(alloc));
    let what = whole_cells(alloc, *rows, *reading, 0);
    let is_done = enriched_from(alloc, OneDatabase { reader }, what, &mut left, &mut out);
    is_done && out.as_slice() == want.as_slice()
}

#[test]
fn addresses_at_the_front_of_long_rows(rt: HostRuntime) {
    let bytes = file(rt.alloc());
    let reader = Reader::from_source(rt.alloc(), bytes.as_slice()).expect(&rt, "a reader");
    for (case, front) in FRONTS.iter().enumerate() {
        assert_at(&rt, is_front(rt.alloc(), &reader, front), case);
    }
}

#[rattlefmt::skip]
const CELLS: &[(&[u8], &[u8])] = &[
    (b"", b""),
    (b"plain text", b"plain text"),
    (b"a,b", b"\"a,b\""),
    (b"a;b", b"a;b"),
    (b"\"", b"\"\"\"\""),
    (b"say \"x\"", b"\"say \"\"x\"\"\""),
    (b"a\nb", b"\"a\nb\""),
    (b"a\rb", b"\"a\rb\""),
];

// Whether a cell is put so.
fn is_cell(alloc: Global, value: &[u8], want: &[u8]) -> bool {
    let mut out: Vec<u8> = Vec::new(alloc);
    let is_put = put_csv_cell(b',', value, &mut out).is_ok();
    is_put && out.as_slice() == want
}

#[test]
fn cells_in_quotes(rt: HostRuntime) {
    for (value, want) in CELLS {
        assert!(rt; is_cell(rt.alloc(), value, want), "{value:?}");
    }
}
