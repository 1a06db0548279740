//! Rows around the length of a piece.
use super::streams::{Chopped, Lengths, Seen, assert_holds, filtered};
use mmdb_filter::laws::{count_clones_are_same, counts_equal_where_same};
use mmdb_filter::{Counts, Live, Rows, filter_rows};
use mmdb_vectors::section::section_of;
use std::alloc::Global;
use std::io::{self, BufReader, Read, Write};
use std::process::Abort;

/// How long a text is, what stands at its back, its end, and what is added.
type Row = (usize, &'static [u8], &'static [u8], &'static [u8]);

#[rattlefmt::skip]
const ROWS: &[Row] = &[
    (0, b"", b"\n", b"|00000"),
    (0, b"", b"\r\n", b"|00000"),
    (1, b"", b"\n", b"|00001"),
    (1, b"\r", b"\r\n", b"|00002"),
    (65_534, b"", b"\r\n", b"|65534"),
    (65_535, b"", b"\n", b"|65535"),
    (65_535, b"", b"\r\n", b"|65535"),
    (65_536, b"", b"\n", b"|65536"),
    (65_536, b"", b"\r\n", b"|65536"),
    (65_536, b"", b"", b"|65536"),
    (65_535, b"\r", b"\r\n", b"|65536"),
    (65_537, b"", b"\n", b"|65536+"),
    (65_537, b"", b"\r\n", b"|65536+"),
    (65_536, b"\r", b"\r\n", b"|65536+"),
    (65_537, b"", b"", b"|65536+"),
    (65_538, b"", b"\n", b"|65536+"),
    (65_538, b"", b"\r\n", b"|65536+"),
    (65_538, b"", b"", b"|65536+"),
    (65_539, b"", b"\n", b"|65536+"),
    (65_539, b"", b"", b"|65536+"),
    (65_538, b"\r", b"", b"|65536+"),
    (65_540, b"\r", b"\r\n", b"|65536+"),
    (131_075, b"", b"\r\n", b"|65536+"),
    (131_076, b"", b"\r\n", b"|65536+"),
    (131_077, b"", b"\r\n", b"|65536+"),
    (200_000, b"", b"", b"|65536+"),
];

/// Bytes a read, and those of the buffer.
const STEPS: &[(usize, usize)] = &[
    (70_000, 65_536),
    (65_539, 65_539),
    (4096, 1000),
    (200_000, 300_000),
];

// Whether this is written of an input that is read in these steps.
fn is_filtered(
    alloc: Global,
    rows: Rows,
    steps: (usize, usize),
    input: &[u8],
    want: &[u8],
) -> bool {
    let (step, capacity) = steps;
    let chopped = Chopped::new(input, step, u32::MAX);
    let mut out: Vec<u8> = Vec::new(alloc);
    let is_done = filtered(alloc, rows, chopped, capacity, &mut out).is_ok();
    is_done && out.as_slice() == want
}

// Asserts the same for all steps, and for lines and CSV.
fn assert_filtered(rt: &impl Abort, alloc: Global, row: &Row, input: &[u8], want: &[u8]) {
    for steps in STEPS {
        for rows in [
            Rows::Lines { delimiter: b'\t' },
            Rows::Csv { delimiter: b',' },
        ] {
            let is_right = is_filtered(alloc, rows, *steps, input, want);
            assert!(rt; is_right, "{row:?} with {steps:?}");
        }
    }
}

// Asserts what is written of such a row between two others.
fn assert_row(rt: &impl Abort, alloc: Global, row: &Row) {
    let (len, back, end, added) = *row;
    let (last, of_last): (&[u8], &[u8]) = if end.is_empty() {
        (b"", b"")
    } else {
        (b"\nlast", b"|00000\nlast|00004")
    };
    let input = section_of(
        alloc,
        &[(b"ab\r\n", 1), (b"x", len), (back, 1), (end, 1), (last, 1)],
    );
    let want = section_of(
        alloc,
        &[
            (b"ab|00002\r\n", 1),
            (b"x", len),
            (back, 1),
            (added, 1),
            (end, 1),
            (of_last, 1),
        ],
    );
    assert_filtered(rt, alloc, row, input.as_slice(), want.as_slice());
}

#[test]
fn rows_around_a_piece(rt: HostRuntime) {
    for row in ROWS {
        assert_row(&rt, rt.alloc(), row);
    }
}

/// An input of so many bytes, of which the last is a line feed.
#[derive(Drop)]
struct Endless {
    left: u64,
}

impl Read for Endless {
    fn read(&mut self, buf: &mut [u8]) -> io::Result<usize> {
        let count = (buf.len() as u64).min(self.left) as usize;
        buf[..count].fill(b'y');
        self.left -= count as u64;
        if self.left == 0 && count > 0 {
            buf[count - 1] = b'\n';
        }
        Ok(count)
    }
}

/// An output that counts.
#[derive(Drop)]
struct Counting {
    bytes: u64,
}

impl Write for Counting {
    fn write(&mut self, bytes: &[u8]) -> io::Result<usize> {
        self.bytes = self.bytes.saturating_add(bytes.len() as u64);
        Ok(bytes.len())
    }

    fn flush(&mut self) -> io::Result<()> {
        Ok(())
    }
}

// What the filter counts, how many bytes it writes, and the number of rows that was reported last.
fn counted<R: Live + Drop>(rt: &impl Abort, alloc: Global, mut input: R) -> (Counts, u64, u64) {
    let mut out = Counting { bytes: 0 };
    let mut seen = Seen(0);
    let filtered = filter_rows(
        alloc,
        Rows::Lines { delimiter: b'\t' },
        &Lengths,
        &mut (),
        Counts::new(),
        &mut input,
        &mut out,
        &mut seen,
    );
    (filtered.expect(rt, "counts").counts, out.bytes, seen.0)
}

#[test]
fn a_row_of_a_hundred_million_bytes(rt: HostRuntime) {
    let input = BufReader::with_capacity(rt.alloc(), 65_536, Endless { left: 100_000_000 });
    let (counts, bytes, _) = counted(&rt, rt.alloc(), input.expect(&rt, "a buffer"));
    let one = Counts {
        found: 0,
        absent: 0,
        unreadable: 0,
        malformed: 0,
        too_long: 0,
        rejected: 1,
        occupied: 0,
    };
    assert!(rt; counts == one, "{} rejected", counts.rejected);
    assert!(rt; bytes == 100_000_007, "{bytes}");
}

#[test]
fn many_rows_are_reported(rt: HostRuntime) {
    let mut lines = Vec::new(rt.alloc());
    lines.resize(131_073, b'\n').expect(&rt, "lines");
    let (counts, bytes, seen) = counted(&rt, rt.alloc(), lines.as_slice());
    assert_holds(&rt, counts.found == 131_073, "what is found");
    assert_holds(&rt, seen == 131_072, "what is seen");
    assert_holds(&rt, bytes == 131_073 * 7, "what is written");
}

/// An output that counts its writes, and those that end inside a row.
#[derive(Drop)]
struct Whole {
    bytes: u64,
    writes: u64,
    inside: u64,
}

impl Write for Whole {
    fn write(&mut self, bytes: &[u8]) -> io::Result<usize> {
        self.bytes = self.bytes.saturating_add(bytes.len() as u64);
        self.writes = self.writes.wrapping_add(1);
        if bytes.last() != Some(&b'\n') {
            self.inside = self.inside.wrapping_add(1);
        }
        Ok(bytes.len())
    }

    fn flush(&mut self) -> io::Result<()> {
        Ok(())
    }
}

/// How long rows are without their ends, and how many there are.
const MANY: &[(usize, usize)] = &[
    (1, 200_000),
    (90, 5_000),
    (3_000, 300),
    (20_000, 40),
    (65_000, 12),
    (65_530, 12),
];

// What is written of rows of this length that are read 65,536 bytes at a time.
fn written_whole(rt: &impl Abort, alloc: Global, len: usize, count: usize) -> Whole {
    let row = section_of(alloc, &[(b"x", len), (b"\n", 1)]);
    let input = section_of(alloc, &[(row.as_slice(), count)]);
    let mut input = BufReader::with_capacity(alloc, 65_536, input.as_slice()).expect(
        rt, "a buffer",
    );
    let mut out = Whole {
        bytes: 0,
        writes: 0,
        inside: 0,
    };
    let filtered = filter_rows(
        alloc,
        Rows::Lines { delimiter: b'\t' },
        &Lengths,
        &mut (),
        Counts::new(),
        &mut input,
        &mut out,
        &mut Seen(0),
    );
    let _ = filtered.expect(rt, "counts");
    out
}

// Rows are written whole, also those that a read cuts, and in no more writes than 64 KiB at a time take.
#[test]
fn rows_are_written_whole(rt: HostRuntime) {
    for (len, count) in MANY {
        let out = written_whole(&rt, rt.alloc(), *len, *count);
        let bytes = (*len as u64 + 7).saturating_mul(*count as u64);
        assert!(rt; out.bytes == bytes, "{len}: {} bytes", out.bytes);
        assert!(rt; out.inside == 0, "{len}: {} inside rows", out.inside);
        assert!(rt;
            out.writes <= bytes / 65_536 + 1,
            "{len}: {} writes",
            out.writes
        );
    }
}

#[test]
fn laws_are_called() {
    counts_equal_where_same();
    count_clones_are_same();
}
