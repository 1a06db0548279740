//! Additions before the last bytes of a text.
use super::streams::{Marks, Seen, assert_at};
use mmdb_filter::{Counts, Rows, filter_rows};
use mmdb_vectors::section::section_of;
use std::alloc::Global;

/// How many bytes stand behind, rows, and what is written.
type Row = (usize, &'static [u8], &'static [u8]);

const ROWS: &[Row] = &[
    (0, b"ab}\nc\r\n", b"ab}|\nc|\r\n"),
    (1, b"ab}\nc\r\n", b"ab|}\n|c\r\n"),
    (2, b"ab} \nc\n\n", b"ab|} \n|c\n|\n"),
    (9, b"ab}\r\ncd", b"|ab}\r\n|cd"),
];

// Whether this is written of an input.
fn is_marked(alloc: Global, behind: usize, input: &[u8], want: &[u8]) -> bool {
    let mut input = input;
    let mut out: Vec<u8> = Vec::new(alloc);
    let (marks, mut seen) = (Marks(behind), Seen(0));
    let done = filter_rows(
        alloc,
        Rows::Lines { delimiter: b'\t' },
        &marks,
        &mut (),
        Counts::new(),
        &mut input,
        &mut out,
        &mut seen,
    );
    done.is_ok() && out.as_slice() == want
}

#[test]
fn marks_stand_before_last_bytes(rt: HostRuntime) {
    for at in 0..ROWS.len() {
        let (behind, input, want) = ROWS[at];
        assert_at(&rt, is_marked(rt.alloc(), behind, input, want), at);
    }
}

/// How long a text is, and what is written behind its first bytes where nine stand behind.
const LONG: &[(usize, &[u8])] = &[
    (65_535, b"|xxxxxxxxx\r\n"),
    (65_536, b"|xxxxxxxxx\r\n"),
    (65_537, b"xxxxxxxxx\r\n"),
    (140_000, b"xxxxxxxxx\r\n"),
];

#[test]
fn marks_stand_in_no_long_text(rt: HostRuntime) {
    for at in 0..LONG.len() {
        let (length, back) = LONG[at];
        let input = section_of(rt.alloc(), &[(b"x", length), (b"\r\n", 1)]);
        let want = section_of(rt.alloc(), &[(b"x", length - 9), (back, 1)]);
        let holds = is_marked(rt.alloc(), 9, input.as_slice(), want.as_slice());
        assert_at(&rt, holds, at);
    }
}
