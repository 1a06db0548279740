//! Rows whose addresses are looked up ahead.
use super::cells::{CSV, enriched, enriched_from, file, whole_cells};
use super::streams::{Chopped, assert_holds};
use mmdb_addresses::Reading;
use mmdb_cmd_enrich::{Databases, OneDatabase};
use mmdb_filter::Rows;
use mmdb_reader::Reader;
use mmdb_vectors::builder::{base_with_node, file_of_many_nodes};
use std::alloc::Global;
use std::cell::Cell;
use std::io::{self, BufReader, Read, Write};
use std::process::Abort;

const TABS: Rows = Rows::Lines { delimiter: b'\t' };

/// A row, and what is written behind it where 128.0.0.0/1 has a text.
type Row = (&'static [u8], &'static [u8]);

#[rattlefmt::skip]
const LINES: &[Row] = &[
    (b"200.0.0.1", b"\ta\"b,c"),
    (b"1.1.1.1", b"\t"),
    (b"no address", b"\t"),
    (b"201.0.0.1\tx", b"\ta\"b,c"),
    (b"", b""),
    (b"0001:0002:0003:0004:0005:0006:0007:0008", b"\t"),
    (b"255.255.255.255", b"\ta\"b,c"),
    (b"::ffff:255.255.255.255 and more bytes than an address has", b"\t"),
    (b"200.0.0.1", b"\ta\"b,c"),
    (b"200.0.0.1", b"\ta\"b,c"),
    (b"128.0.0.0\t\t", b"\ta\"b,c"),
];

#[rattlefmt::skip]
const ROWS: &[Row] = &[
    (b"200.0.0.1", b",\"a\"\"b,c\""),
    (b"\"201.0.0.1\"", b",\"a\"\"b,c\""),
    (b"\"x\n200.0.0.1\"", b","),
    (b"1.1.1.1,y", b","),
    (b"\"\n202.0.0.1\n203.0.0.1\n\"", b","),
    (b"204.0.0.1,\"\n1.1.1.1,\"", b",\"a\"\"b,c\""),
    (b"1.1.1.1", b","),
    (b"205.0.0.1", b",\"a\"\"b,c\""),
];

/// Rows, and what is written behind them where each address has a text whose eighteenth bit is 1.
#[rattlefmt::skip]
const FAR_LINES: &[Row] = &[
    (b"1.2.3.4", b"\t"),
    (b"200.0.64.1", b"\tx"),
    (b"200.0.64.1\ty", b"\tx"),
    (b"no address", b"\t"),
    (b"0.0.127.255", b"\tx"),
    (b"::ffff:255.255.192.0", b"\tx"),
    (b"255.255.128.0", b"\t"),
    (b"2001:db8::1", b"\t"),
    (b"", b""),
    (b"255.255.192.0", b"\tx"),
    (b"0.0.0.0", b"\t"),
];

/// Which of some databases are asked, of which the third has no record: from one to before another.
const ASKED: &[(usize, usize)] = &[(0, 1), (0, 2), (1, 3), (2, 4), (0, 4)];

/// A node that leads nowhere.
const EMPTY_NODE: &[u8] = b"\0\0\x01\0\0\x01";

/// Bytes a read, and those of the buffer.
const STEPS: &[(usize, usize)] = &[
    (1_000_000, 1_000_000),
    (1_000_000, 8192),
    (100, 1000),
    (7, 16),
    (1, 1),
];

// Rows over and over, each with what is written behind it or without, and its end.
fn repeated(alloc: Global, rows: &[Row], end: &'static [u8], is_written: bool) -> Vec<u8> {
    let mut all = Vec::new(alloc);
    for _ in 0..64 {
        for (row, added) in rows {
            let _ = all.extend_from_slice(row);
            if is_written {
                let _ = all.extend_from_slice(added);
            }
            let _ = all.extend_from_slice(end);
        }
    }
    all
}

// Whether this is written of an input that is read in these steps, from one database or from several.
fn is_written(
    alloc: Global,
    readers: &[Reader<&[u8]>],
    rows: Rows,
    steps: (usize, usize),
    input: &[u8],
    want: &[u8],
) -> bool {
    let (step, capacity) = steps;
    let chopped = Chopped::new(input, step, u32::MAX);
    let Ok(mut input) = BufReader::with_capacity(alloc, capacity, chopped) else {
        return false;
    };
    let mut out: Vec<u8> = Vec::new(alloc);
    let what = whole_cells(alloc, rows, Reading::Exact, 0);
    let is_done = match readers {
        [reader] => enriched_from(alloc, OneDatabase { reader }, what, &mut input, &mut out),
        _ => {
            let from = Databases {
                readers,
                names: &[],
            };
            enriched_from(alloc, from, what, &mut input, &mut out)
        }
    };
    is_done && out.as_slice() == want
}

// Whether rows are written so with each end and in all steps.
fn are_written(alloc: Global, readers: &[Reader<&[u8]>], rows: Rows, table: &[Row]) -> bool {
    for end in [b"\n".as_slice(), b"\r\n"] {
        let input = repeated(alloc, table, end, false);
        let want = repeated(alloc, table, end, true);
        for steps in STEPS {
            let (input, want) = (input.as_slice(), want.as_slice());
            if !is_written(alloc, readers, rows, *steps, input, want) {
                return false;
            }
        }
    }
    true
}

// A reader of these bytes.
fn reader_of<'a>(rt: &impl Abort, alloc: Global, bytes: &'a Vec<u8>) -> Reader<&'a [u8]> {
    Reader::from_source(alloc, bytes.as_slice()).expect(rt, "a reader")
}

#[test]
fn rows_at_hand(rt: HostRuntime) {
    let bytes = file(rt.alloc());
    let readers = [reader_of(&rt, rt.alloc(), &bytes)];
    assert_holds(&rt, are_written(rt.alloc(), &readers, TABS, LINES), "lines");
    assert_holds(&rt, are_written(rt.alloc(), &readers, CSV, ROWS), "CSV");
}

#[test]
fn rows_looked_up_ahead(rt: HostRuntime) {
    let far = file_of_many_nodes(rt.alloc()).expect(&rt, "a file");
    let empty = base_with_node(rt.alloc(), EMPTY_NODE).expect(&rt, "a file");
    let readers = [
        reader_of(&rt, rt.alloc(), &far),
        reader_of(&rt, rt.alloc(), &far),
        reader_of(&rt, rt.alloc(), &empty),
        reader_of(&rt, rt.alloc(), &far),
    ];
    let readers = readers.as_slice();
    assert_holds(&rt, readers[0].outgrows_caches(), "a large tree");
    for (from, to) in ASKED {
        let asked = readers.get(*from..*to).unwrap_or(readers);
        assert_holds(
            &rt,
            are_written(rt.alloc(), asked, TABS, FAR_LINES),
            "lines",
        );
    }
}

/// An input that gives one line a read, and notes one before which not all lines were written, or that is behind the
/// end.
#[derive(Drop)]
struct Typed<'a> {
    left: &'a [u8],
    lines: usize,
    has_ended: bool,
    written: &'a Cell<usize>,
    late: &'a Cell<Option<usize>>,
}

impl Read for Typed<'_> {
    fn read(&mut self, buf: &mut [u8]) -> io::Result<usize> {
        if self.written.get() != self.lines || self.has_ended {
            self.late.set(Some(self.lines));
        }
        let line = match self.left.iter().position(|byte| *byte == b'\n') {
            Some(at) => at.saturating_add(1),
            None => self.left.len(),
        };
        let count = line.min(buf.len()).min(self.left.len());
        let (now, later) = self.left.split_at(count);
        buf[..count].copy_from_slice(now);
        self.left = later;
        self.has_ended = count == 0;
        if count > 0 {
            self.lines = self.lines.saturating_add(1);
        }
        Ok(count)
    }
}

/// An output that counts the lines that are written.
#[derive(Drop)]
struct Counted<'a> {
    bytes: Vec<u8>,
    written: &'a Cell<usize>,
}

impl Write for Counted<'_> {
    fn write(&mut self, bytes: &[u8]) -> io::Result<usize> {
        for byte in bytes {
            if *byte == b'\n' {
                self.written.set(self.written.get().saturating_add(1));
            }
        }
        self.bytes.extend_from_slice(bytes)?;
        Ok(bytes.len())
    }

    fn flush(&mut self) -> io::Result<()> {
        Ok(())
    }
}

// Whether each line is answered before the next one is read, and the end is met once.
fn is_prompt(alloc: Global, reader: &Reader<&[u8]>) -> bool {
    let (written, late) = (Cell::new(0usize), Cell::new(None));
    let input = repeated(alloc, LINES, b"\n", false);
    let want = repeated(alloc, LINES, b"\n", true);
    let typed = Typed {
        left: input.as_slice(),
        lines: 0,
        has_ended: false,
        written: &written,
        late: &late,
    };
    let Ok(mut typed) = BufReader::with_capacity(alloc, 1000, typed) else {
        return false;
    };
    let mut out = Counted {
        bytes: Vec::new(alloc),
        written: &written,
    };
    let is_done = enriched(
        alloc,
        reader,
        Rows::Lines { delimiter: b'\t' },
        0,
        &mut typed,
        &mut out,
    );
    is_done && out.bytes.as_slice() == want.as_slice() && late.get().is_none()
}

#[test]
fn lines_answered_one_by_one(rt: HostRuntime) {
    let bytes = file(rt.alloc());
    let reader = Reader::from_source(rt.alloc(), bytes.as_slice()).expect(&rt, "a reader");
    assert_holds(&rt, is_prompt(rt.alloc(), &reader), "late");
}
