//! How far a command is, as a terminal shows it.
use crate::tests::asserted::assert_of;
use mmdb_console::{Passed, text_of_progress};
use mmdb_program::{Io, Terminals, run};
use mmdb_vectors::base::BASE_FILE;
use std::alloc::{AllocError, Global};
use test_runs::program::{Run, file_of, words_with};

/// The unit, how many, the bytes, the input's size, the milliseconds, and the text.
type Shown<'a> = (&'a str, u64, Option<u64>, Option<u64>, u64, &'a str);

#[rattlefmt::skip]
const SHOWN: &[Shown<'static>] = &[
    ("lines", 1000, None, None, 0, "mmdb: 1000 lines"),
    ("lines", 1000, Some(999), Some(1_000_000), 999, "mmdb: 1000 lines, 1 kB"),
    ("lines", 65_536, Some(6_553_600), None, 2000, "mmdb: 65536 lines, 7 MB, 32768 a second"),
    ("lines", 131_072, Some(13_107_200), Some(26_214_400), 4000, "mmdb: 131072 lines, 13 MB, 32768 a second, 50 %, 4 s left"),
    ("lines", 10, Some(999_999), Some(1_000_000_000), 10_000, "mmdb: 10 lines, 1 MB, 1 a second, 0 %, 166 min left"),
    ("lines", 10, Some(1_000_000), Some(120_000_000), 1000, "mmdb: 10 lines, 1 MB, 10 a second, 1 %, 119 s left"),
    ("lines", 10, Some(1_000_000), Some(121_000_000), 1000, "mmdb: 10 lines, 1 MB, 10 a second, 1 %, 2 min left"),
    // an input that grew, and one that was empty
    ("lines", 5, Some(20_000), Some(10_000), 5000, "mmdb: 5 lines, 20 kB, 1 a second, 100 %, 0 s left"),
    ("lines", 5, Some(0), Some(0), 5000, "mmdb: 5 lines, 0 kB, 1 a second, 0 %, 0 s left"),
    ("networks", 18_446_744_073_709_551_615, None, Some(7), 1000, "mmdb: 18446744073709551615 networks, 18446744073709551615 a second"),
];

/// How many lines pass before the first of them is shown.
const LINES: usize = 65_537;

#[test]
fn what_passed_in_words(rt: HostRuntime) {
    for (unit, count, bytes, size, millis, wanted) in SHOWN {
        let passed = Passed {
            count: *count,
            bytes: *bytes,
            size: *size,
        };
        let text = text_of_progress(rt.alloc(), unit, passed, *millis).expect(&rt, "a text");
        assert!(&rt; text.as_str() == *wanted, "{text} in place of {wanted}");
    }
}

// Lines without an address.
fn lines(alloc: Global) -> Result<Vec<u8>, AllocError> {
    let mut lines = Vec::new(alloc);
    for _ in 0..LINES {
        lines.extend_from_slice(b"x\n")?;
    }
    Ok(lines)
}

// A run over many lines, of which standard error or both outputs are terminals.
fn run_on_terminals(alloc: Global, texts: &[&str], lines: &[u8], terminals: Terminals) -> Run {
    let words = words_with(alloc, texts);
    let mut input = lines;
    let mut written: Vec<u8> = Vec::new(alloc);
    let mut reported: Vec<u8> = Vec::new(alloc);
    let io = Io {
        input: &mut input,
        out: &mut written,
        errors: &mut reported,
        terminals,
    };
    let status = run(&file_of(BASE_FILE), alloc, words.as_slice(), io);
    Run {
        status,
        written,
        reported,
    }
}

#[test]
fn lines_that_pass_are_shown_and_taken_away(rt: HostRuntime) {
    let lines = lines(rt.alloc()).expect(&rt, "lines");
    let words: &[&str] = &["enrich", "here.mmdb", "--field", "c"];
    // a clock that stands still tells no rate
    let shown = "\r\x1b[Kmmdb: 65536 lines, 131 kB\r\x1b[Kmmdb: 0 lines with a record";
    for (output, errors, is_shown) in [
        (false, true, true),
        (true, true, false),
        (false, false, false),
    ] {
        let run = run_on_terminals(
            rt.alloc(),
            words,
            lines.as_slice(),
            Terminals { output, errors },
        );
        let holds = run.status == 0 && run.err().contains(shown) == is_shown;
        assert_of(
            &rt,
            words,
            &run,
            holds && run.err().contains("65536 lines,") == is_shown,
        );
    }
}
