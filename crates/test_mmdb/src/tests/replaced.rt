//! Databases that are replaced while rows pass.
use crate::tests::asserted::assert_of;
use mmdb_files::SharedFiles;
use mmdb_program::{Io, run};
use mmdb_vectors::base::BASE_FILE;
use mmdb_vectors::file::{TestFile, TestFiles};
use std::alloc::{Allocator, Global};
use std::cell::Cell;
use std::env::{Env, FillError};
use std::fs::{Metadata, OpenOptions};
use std::io::{self, BufReader, Read};
use std::rt::Files;
use std::time::{Clock, Duration};
use test_runs::program::{Run, file_of, terminals, words_with};

/// The file at the path at a time, if there is one, its size as it is told, and whether it is a plain file.
#[derive(Clone, Copy)]
struct Stage<'a> {
    bytes: Option<&'a [u8]>,
    size: u64,
    is_plain: bool,
}

/// A runtime with a file that another one may replace with each line that comes.
#[derive(Drop)]
struct Changing<'a> {
    files: TestFiles<'a>,
    stages: &'a [Stage<'a>],
    /// How many lines came.
    lines: &'a Cell<usize>,
    /// The milliseconds that pass with each.
    pause: u64,
}

impl<'a> Changing<'a> {
    // What is at the path now.
    fn now(&self) -> Stage<'a> {
        match self.stages.get(self.lines.get()) {
            Some(stage) => *stage,
            None => Stage {
                bytes: None,
                size: 0,
                is_plain: true,
            },
        }
    }
}

impl<'a> Files for Changing<'a> {
    type File = TestFile<'a>;

    type Dir = TestFile<'a>;

    fn open_file(&self, how: &OpenOptions, _path: &str) -> io::Result<TestFile<'a>> {
        match self.now().bytes {
            Some(bytes) => file_of(bytes).open_file(how, "here.mmdb"),
            None => Err(io::Error::from(io::ErrorKind::NotFound)),
        }
    }

    fn open_dir(&self, path: &str) -> io::Result<TestFile<'a>> {
        self.files.open_dir(path)
    }

    fn metadata(&self, path: &str) -> io::Result<Metadata> {
        let now = self.now();
        if path != "here.mmdb" || now.bytes.is_none() {
            return Err(io::Error::from(io::ErrorKind::NotFound));
        }
        if now.is_plain {
            Ok(Metadata::of_file(now.size))
        } else {
            Ok(Metadata::of_dir())
        }
    }

    fn symlink_metadata(&self, path: &str) -> io::Result<Metadata> {
        self.metadata(path)
    }

    fn copy(&self, from: &str, to: &str) -> io::Result<u64> {
        self.files.copy(from, to)
    }

    fn rename(&self, from: &str, to: &str) -> io::Result<()> {
        self.files.rename(from, to)
    }

    fn remove_file(&self, path: &str) -> io::Result<()> {
        self.files.remove_file(path)
    }

    fn create_dir(&self, path: &str) -> io::Result<()> {
        self.files.create_dir(path)
    }

    fn remove_dir(&self, path: &str) -> io::Result<()> {
        self.files.remove_dir(path)
    }

    fn remove_dir_all<B: Allocator>(&self, alloc: B, path: &str) -> io::Result<()> {
        self.files.remove_dir_all(alloc, path)
    }
}

impl SharedFiles for Changing<'_> {}

impl Env for Changing<'_> {
    fn arg(&self, i: usize, buf: &mut [u8]) -> Result<usize, FillError> {
        self.files.arg(i, buf)
    }

    fn var(&self, name: &str, buf: &mut [u8]) -> Result<usize, FillError> {
        self.files.var(name, buf)
    }

    fn var_at(&self, i: usize, buf: &mut [u8]) -> Result<usize, FillError> {
        self.files.var_at(i, buf)
    }
}

impl Clock for Changing<'_> {
    fn monotonic(&self) -> io::Result<Duration> {
        let millis = (self.lines.get() as u64).saturating_mul(self.pause);
        Ok(Duration::from_millis(millis.saturating_add(5_000)))
    }

    fn since_1970(&self) -> io::Result<Duration> {
        self.files.since_1970()
    }
}

/// An input of some lines, one a read.
#[derive(Drop)]
struct Arriving<'a> {
    lines: &'a Cell<usize>,
    most: usize,
}

/// Each of them.
const LINE: &[u8] = b"200.0.0.1\n";

impl Read for Arriving<'_> {
    fn read(&mut self, buf: &mut [u8]) -> io::Result<usize> {
        let next = self.lines.get().saturating_add(1);
        if next > self.most || buf.len() < LINE.len() {
            return Ok(0);
        }
        self.lines.set(next);
        buf[..LINE.len()].copy_from_slice(LINE);
        Ok(LINE.len())
    }
}

// A run of `enrich` over a file that is replaced, with a line for each stage after the first.
fn run_changing(
    alloc: Global,
    texts: &[&str],
    stages: &[Stage<'_>],
    pause: u64,
) -> io::Result<Run> {
    let lines = Cell::new(0);
    let changing = Changing {
        files: file_of(BASE_FILE),
        stages,
        lines: &lines,
        pause,
    };
    let arriving = Arriving {
        lines: &lines,
        most: stages.len().saturating_sub(1),
    };
    let words = words_with(alloc, texts);
    let mut input = BufReader::with_capacity(alloc, 64, arriving)?;
    let mut written: Vec<u8> = Vec::new(alloc);
    let mut reported: Vec<u8> = Vec::new(alloc);
    let io = Io {
        input: &mut input,
        out: &mut written,
        errors: &mut reported,
        terminals: terminals(false),
    };
    let status = run(&changing, alloc, words.as_slice(), io);
    Ok(Run {
        status,
        written,
        reported,
    })
}

// The base file with another text as its record, and of a type with another name.
fn variant(alloc: Global, record: u8, kind: u8) -> Vec<u8> {
    let mut bytes = Vec::new(alloc);
    let _ = bytes.extend_from_slice(BASE_FILE);
    for at in 1..bytes.len() {
        if at == 23 {
            bytes[at] = record;
        }
        if bytes[at] == b'T' && bytes[at - 1] == b'A' {
            bytes[at] = kind;
        }
    }
    bytes
}

const WITH: &[&str] = &["enrich", "here.mmdb", "--field", "", "--reload"];

/// The size by which the stages tell what is no plain file.
const NOT_PLAIN: u64 = 9;

const WITHOUT: &[&str] = &["enrich", "here.mmdb", "--field", ""];

const COUNTED_ALL: &str =
    "mmdb: 9 lines with a record, 0 without, 0 without an address, 0 with an error\n";

const COUNTED: &str =
    "mmdb: 8 lines with a record, 0 without, 0 without an address, 0 with an error\n";

#[test]
fn replaced_databases_are_opened_anew(rt: HostRuntime) {
    let alloc = rt.alloc();
    let (first, second, foreign) = (
        variant(alloc, b'x', b'T'),
        variant(alloc, b'y', b'T'),
        variant(alloc, b'z', b'U'),
    );
    let stages = [
        (Some(first.as_slice()), 1),
        // the same file
        (Some(first.as_slice()), 1),
        // another one
        (Some(second.as_slice()), 2),
        // a damaged one, twice
        (Some(b"no database".as_slice()), 3),
        (Some(b"no database".as_slice()), 3),
        // one of another type, and none
        (Some(foreign.as_slice()), 4),
        (None, 0),
        // what is no plain file is not opened
        (Some(first.as_slice()), NOT_PLAIN),
        // the second one again, and then the first
        (Some(second.as_slice()), 2),
        (Some(first.as_slice()), 1),
    ];
    let mut staged = Vec::new(alloc);
    for (bytes, size) in stages {
        let is_plain = size != NOT_PLAIN;
        let _ = staged.push(Stage {
            bytes,
            size,
            is_plain,
        });
    }
    let run = run_changing(alloc, WITH, staged.as_slice(), 1_000).expect(&rt, "an input");
    let x = "200.0.0.1\tx\n";
    let y = "200.0.0.1\ty\n";
    let mut out = String::new(alloc);
    for line in [x, y, y, y, y, y, y, y, x] {
        let _ = out.push_str(line);
    }
    let holds = run.status == 0 && run.out() == out.as_str();
    assert_of(&rt, WITH, &run, holds);
    let kept = "mmdb: here.mmdb was replaced; the database before it stays in use\n";
    let other =
        "mmdb: here.mmdb was replaced by one of the type U, not T; the database before it stays in use\n";
    let err = run.err();
    let says = err.contains(kept) && err.contains(other) && err.ends_with(COUNTED_ALL);
    assert_of(&rt, WITH, &run, says && err.lines().count() == 4);
}

/// Words, the milliseconds that pass with a line, and which lines of eight are answered by the file that replaced the first
/// one with the second line: those after so many.
const CASES: &[(&[&str], u64, usize)] = &[
    (WITH, 1_000, 1),
    (WITH, 5_000, 1),
    // it is looked at once a second
    (WITH, 500, 1),
    (WITH, 300, 3),
    (WITH, 0, 8),
    (WITHOUT, 1_000, 8),
];

#[test]
fn files_are_looked_at_once_a_second(rt: HostRuntime) {
    let alloc = rt.alloc();
    let (first, second) = (variant(alloc, b'x', b'T'), variant(alloc, b'y', b'T'));
    let mut stages = Vec::new(alloc);
    for line in 0..9 {
        let (bytes, size) = if line < 2 { (&first, 1) } else { (&second, 2) };
        let bytes = Some(bytes.as_slice());
        let _ = stages.push(Stage {
            bytes,
            size,
            is_plain: true,
        });
    }
    for (texts, pause, before) in CASES {
        let run = run_changing(alloc, texts, stages.as_slice(), *pause).expect(&rt, "an input");
        let holds = run.status == 0 && run.err().ends_with(COUNTED);
        assert_of(&rt, texts, &run, holds);
        for (at, line) in run.out().lines().enumerate() {
            let wanted = if at < *before {
                "200.0.0.1\tx"
            } else {
                "200.0.0.1\ty"
            };
            assert_of(&rt, texts, &run, line == wanted);
        }
    }
}
