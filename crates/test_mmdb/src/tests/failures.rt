//! Files and an input that can't be read to their end, and writers that fail.
use crate::tests::asserted::assert_of;
use mmdb_program::{Io, run};
use mmdb_vectors::base::BASE_FILE;
use mmdb_vectors::file::TestFiles;
use std::alloc::Global;
use std::io::{self, BufReader, ErrorKind, Read};
use std::process::Abort;
use test_runs::program::{Narrow, Run, file_of, run_of, run_over, terminals, words_with};

/// Commands over a file, with what they write of the base file.
const COMMANDS: &[&[&str]] = &[
    &["show", "here.mmdb", "200.0.0.1"],
    &["show", "here.mmdb", "1.1.1.1", "200.0.0.1", "--path", ""],
    &["info", "here.mmdb"],
    &["info", "here.mmdb", "--json"],
    &["export", "here.mmdb"],
    &["export", "here.mmdb", "--field", "", "--format", "csv"],
    &["export", "here.mmdb", "--format", "cidr", "--where", "=x"],
    &["export", "here.mmdb", "--format", "nft"],
    &[
        "diff",
        "here.mmdb",
        "here.mmdb",
        "--field",
        "",
        "--format",
        "csv",
    ],
    &["verify", "here.mmdb"],
    &["enrich", "here.mmdb", "--field", ""],
    &["enrich", "here.mmdb", "--header", "--field", ""],
    &["enrich", "here.mmdb", "--json", "a", "--field", ""],
];

/// What commands read that copy lines.
const INPUT: &str = "200.0.0.1\n{\"a\":\"200.0.0.1\"}\n1.1.1.1\n";

// A run over the base file, whose read number `fails_at` fails.
fn with_a_failed_read(alloc: Global, texts: &[&str], fails_at: u32) -> Run {
    let files = TestFiles::new(BASE_FILE, fails_at);
    run_over(alloc, &files, texts, INPUT, false)
}

// Whether a run ended for a failed read, and said nothing else.
fn is_of_failed_read(texts: &[&str], run: &Run) -> bool {
    // what verify finds is its output
    let is_verify = texts.first() == Some(&"verify");
    let message = if is_verify { run.out() } else { run.err() };
    run.status == 1
        && message.contains("here.mmdb: i/o error: ")
        && (run.out().is_empty() || run.err().is_empty())
}

#[test]
fn reads_that_fail(rt: HostRuntime) {
    for texts in COMMANDS {
        for fails_at in 0..4u32 {
            let run = with_a_failed_read(rt.alloc(), texts, fails_at);
            assert_of(&rt, texts, &run, is_of_failed_read(texts, &run));
        }
    }
}

// A run over the base file and a writer with so much room.
fn with_room(alloc: Global, texts: &[&str], room: usize, to_error: ErrorKind) -> Run {
    let words = words_with(alloc, texts);
    let mut input = INPUT.as_bytes();
    let mut out = Narrow {
        bytes: Vec::new(alloc),
        room,
        to_error,
    };
    let mut reported: Vec<u8> = Vec::new(alloc);
    let io = Io {
        input: &mut input,
        out: &mut out,
        errors: &mut reported,
        terminals: terminals(false),
    };
    let status = run(&file_of(BASE_FILE), alloc, words.as_slice(), io);
    Run {
        status,
        written: out.bytes,
        reported,
    }
}

/// What is reported where an output is full.
const NO_ROOM: &str = "mmdb: standard output: no storage space\n";

// Whether a run wrote the beginning of a text that there was room for, and reported why not more. Of an output that
// was closed nothing is reported.
fn is_cut(cut: &Run, whole: &str, room: usize, to_error: ErrorKind) -> bool {
    let is_full = to_error == ErrorKind::StorageFull;
    cut.status == 1
        && cut.written.as_slice() == &whole.as_bytes()[..room.min(whole.len())]
        && cut.err() == if is_full { NO_ROOM } else { "" }
}

// Asserts what a run does over writers with so much room.
fn assert_cuts(rt: &impl Abort, alloc: Global, texts: &[&str], room: usize, whole: &str) {
    let full = with_room(alloc, texts, room, ErrorKind::StorageFull);
    let is_right = is_cut(&full, whole, room, ErrorKind::StorageFull);
    assert_of(rt, texts, &full, is_right);
    let closed = with_room(alloc, texts, room, ErrorKind::BrokenPipe);
    let is_right = is_cut(&closed, whole, room, ErrorKind::BrokenPipe);
    assert_of(rt, texts, &closed, is_right);
}

#[test]
fn writers_that_fail(rt: HostRuntime) {
    for texts in COMMANDS {
        let run = run_of(rt.alloc(), BASE_FILE, texts, INPUT);
        let whole = run.out();
        for room in [0, 1, whole.len() / 2, whole.len().saturating_sub(1)] {
            assert_cuts(&rt, rt.alloc(), texts, room, whole);
        }
    }
}

/// An input that fails behind some bytes.
#[derive(Drop)]
struct Torn<'a> {
    bytes: &'a [u8],
}

impl Read for Torn<'_> {
    fn read(&mut self, buf: &mut [u8]) -> io::Result<usize> {
        if self.bytes.is_empty() {
            return Err(io::Error::from(ErrorKind::InvalidData));
        }
        let (now, later) = self.bytes.split_at(self.bytes.len().min(buf.len()));
        buf[..now.len()].copy_from_slice(now);
        self.bytes = later;
        Ok(now.len())
    }
}

/// Commands that read lines, those before the input fails, and what is written of them.
const TORN: &[(&[&str], &str, &str)] = &[
    (&["enrich", "here.mmdb", "--field", ""], "", ""),
    (
        &["enrich", "here.mmdb", "--field", ""],
        "200.0.0.1\n1.1",
        "200.0.0.1\tx\n",
    ),
    (
        &["enrich", "here.mmdb", "--header", "--field", "a"],
        "ip",
        "",
    ),
    (
        &["enrich", "here.mmdb", "--header", "--field", "a"],
        "ip\n",
        "ip\ta\n",
    ),
    (
        &["enrich", "here.mmdb", "--json", "a", "--field", ""],
        "{}\n",
        "{}\n",
    ),
];

// A run over the base file and an input that fails behind some lines.
fn with_torn_input(alloc: Global, texts: &[&str], lines: &str) -> io::Result<Run> {
    let words = words_with(alloc, texts);
    let torn = Torn {
        bytes: lines.as_bytes(),
    };
    let mut input = BufReader::new(alloc, torn)?;
    let mut written: Vec<u8> = Vec::new(alloc);
    let mut reported: Vec<u8> = Vec::new(alloc);
    let io = Io {
        input: &mut input,
        out: &mut written,
        errors: &mut reported,
        terminals: terminals(false),
    };
    let status = run(&file_of(BASE_FILE), alloc, words.as_slice(), io);
    Ok(Run {
        status,
        written,
        reported,
    })
}

#[test]
fn an_input_that_fails(rt: HostRuntime) {
    for (texts, lines, wanted) in TORN {
        let run = with_torn_input(rt.alloc(), texts, lines).expect(&rt, "a run");
        let is_named = run.err() == "mmdb: standard input: invalid data\n";
        let holds = run.status == 1 && run.out() == *wanted && is_named;
        assert_of(&rt, texts, &run, holds);
    }
}
