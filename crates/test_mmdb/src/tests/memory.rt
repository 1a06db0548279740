//! Runs where memory runs out.
ghost use Rattle.std.specs.Prelude.{◌<◌};

use crate::tests::asserted::assert_of;
use mmdb_program::{Io, run};
use mmdb_vectors::base::BASE_FILE;
use mmdb_vectors::builder::{Field, changed_file, nodes_24};
use mmdb_vectors::file::TestFiles;
use mmdb_vectors::hoard::Hoard;
use std::alloc::{AllocError, Global};
use std::io::ErrorKind;
use std::process::Abort;
use test_runs::program::{Narrow, Run, file_of, run_over, terminals, two_files, words_with};

/// How many bytes a run may write or report.
const ROOM: usize = 2048;

/// How many bytes budgets differ by.
const STEP: usize = 2048;

/// How many budgets there are. The largest has no room for the table of a reader.
const STEPS: usize = 32;

fn narrow(alloc: Global) -> Narrow {
    Narrow {
        bytes: Vec::with_capacity(alloc, ROOM).unwrap_or(Vec::new(alloc)),
        room: ROOM,
        to_error: ErrorKind::StorageFull,
    }
}

// A run over the base file with so much memory. What it writes has memory of its own.
fn with_budget(alloc: Global, words: &[String], budget: usize) -> Run
    requires { budget < 1000000 }
{
    let (mut out, mut err) = (narrow(alloc), narrow(alloc));
    let mut input: &[u8] = b"";
    let small = Hoard::of_all_but(alloc, budget);
    let io = Io {
        input: &mut input,
        out: &mut out,
        errors: &mut err,
        terminals: terminals(false),
    };
    let status = run(&file_of(BASE_FILE), alloc, words, io);
    drop(small);
    Run {
        status,
        written: out.bytes,
        reported: err.bytes,
    }
}

const COMMANDS: &[&[&str]] = &[
    &["show", "here.mmdb", "200.0.0.1"],
    &["info", "here.mmdb"],
    &["info", "here.mmdb", "--json"],
    &["info", "here.mmdb", "--fields"],
    &["info", "here.mmdb", "--fields", "--json"],
    &["export", "here.mmdb", "--field", "", "--format", "csv"],
    &["export", "here.mmdb"],
    &["export", "here.mmdb", "--format", "ipset"],
    &["diff", "here.mmdb", "here.mmdb"],
    &["enrich", "here.mmdb", "--field", ""],
    &["enrich", "here.mmdb", "--json", "a", "--field", ""],
];

/// What is reported where there is no memory, and where there is not even some for the name of a file.
const REPORTS: &[&str] = &[
    "mmdb: here.mmdb: out of memory\n",
    "mmdb: diff: out of memory\n",
    "mmdb: out of memory\n",
];

// Whether a run wrote nothing and reported that there was no memory.
fn is_out_of_memory(run: &Run) -> bool {
    run.status == 1 && run.written.is_empty() && REPORTS.contains(&run.err())
}

// Asserts that runs on words are out of memory with each budget, where no large block is left.
fn assert_budgets(rt: &impl Abort, alloc: Global, texts: &[&str]) {
    let words = words_with(alloc, texts);
    let large = Hoard::of_large_blocks(alloc);
    for step in 0..STEPS {
        let run = with_budget(alloc, words.as_slice(), step * STEP);
        assert_of(rt, texts, &run, is_out_of_memory(&run));
    }
    drop(large);
}

#[test]
fn runs_without_memory(rt: HostRuntime) {
    for texts in COMMANDS {
        assert_budgets(&rt, rt.alloc(), texts);
    }
}

/// How many networks the large files have, each with a record of its own.
const NETWORKS: usize = 64;

/// What the records of a large file are: arrays of so many pointers to a text of so many bytes, which may be control
/// characters.
struct Records {
    pointers: u8,
    text_bytes: usize,
    are_controls: bool,
}

/// Short texts, texts that are larger than what is kept, and ones that are put in last.
const LARGE_RECORDS: &[Records] = &[
    Records {
        pointers: 2,
        text_bytes: 1900,
        are_controls: false,
    },
    Records {
        pointers: 40,
        text_bytes: 1900,
        are_controls: false,
    },
    Records {
        pointers: 2,
        text_bytes: 1900,
        are_controls: true,
    },
    Records {
        pointers: 60,
        text_bytes: 300,
        are_controls: true,
    },
];

/// Where budgets of an export and of a `diff` begin, by how many bytes they differ, and how many there are. A `diff` has a
/// table of its own from its beginning on.
const EXPORTS: (usize, usize) = (4096, 65_536);

const DIFFS: (usize, usize) = (4_194_304, 196_608);

const BUDGETS: usize = 25;

// Adds a text of the letter, or of a control character by it, and an array of pointers to the text. Where the array stands.
fn push_record(records: &Records, letter: u8, data: &mut Vec<u8>) -> Result<usize, AllocError> {
    let text = data.len();
    let size = records.text_bytes.saturating_sub(285) % 65_536;
    let [high, low] = (size as u16).to_be_bytes();
    data.extend_from_slice(&[0x5E, high, low])?;
    let byte = if records.are_controls {
        letter % 31 + 1
    } else {
        letter
    };
    for place in 0..records.text_bytes {
        data.push(if place % 97 == 0 { b'-' } else { byte })?;
    }
    let array = data.len();
    let [_, _, _, _, a, b, c, d] = (text as u64).to_be_bytes();
    if records.pointers < 29 {
        data.extend_from_slice(&[records.pointers, 0x04])?;
    } else {
        data.extend_from_slice(&[29, 0x04, records.pointers - 29])?;
    }
    for _ in 0..records.pointers {
        data.extend_from_slice(&[0x38, a, b, c, d])?;
    }
    Ok(array)
}

// A file of a tree that is full, whose records are of texts from a letter on.
fn large_file(alloc: Global, records: &Records, first: u8) -> Result<Vec<u8>, AllocError> {
    let mut data = Vec::new(alloc);
    let mut nodes = Vec::new(alloc);
    for node in 0..31u32 {
        nodes.push((2 * node + 1, 2 * node + 2))?;
    }
    for network in 0..NETWORKS / 2 {
        let letter = first.wrapping_add((network % 20) as u8);
        let left = push_record(records, letter, &mut data)?;
        let right = push_record(records, letter.wrapping_add(1), &mut data)?;
        nodes.push((
            (left & 0xff_ffff) as u32 + 63 + 16,
            (right & 0xff_ffff) as u32 + 63 + 16,
        ))?;
    }
    let tree = nodes_24(alloc, nodes.as_slice())?;
    let changes = [
        (Field::NodeCount, b"\xC1\x3F".as_slice()),
        (Field::IpVersion, b"\xA1\x04"),
    ];
    changed_file(alloc, tree.as_slice(), data.as_slice(), &changes)
}

// A run over two files with so much memory. What it writes has memory of its own.
fn large_run(
    alloc: Global,
    files: &TestFiles<'_>,
    words: &[String],
    budget: usize,
    room: usize,
) -> Run {
    let mut out = narrow(alloc);
    out.bytes = Vec::with_capacity(alloc, room).unwrap_or(Vec::new(alloc));
    out.room = room;
    let mut err = narrow(alloc);
    let mut input: &[u8] = b"";
    let hoard = Hoard::around(alloc, budget);
    let io = Io {
        input: &mut input,
        out: &mut out,
        errors: &mut err,
        terminals: terminals(false),
    };
    let status = run(files, alloc, words, io);
    drop(hoard);
    Run {
        status,
        written: out.bytes,
        reported: err.bytes,
    }
}

// Asserts that with each budget all is written, or memory is out and a beginning of it is. Some have enough memory and some
// have not.
fn assert_large(
    rt: &impl Abort,
    alloc: Global,
    files: &TestFiles<'_>,
    texts: &[&str],
    budgets: (usize, usize),
) {
    let words = words_with(alloc, texts);
    let whole = run_over(alloc, files, texts, "", false);
    assert_of(
        rt,
        texts,
        &whole,
        whole.status == 0 && whole.written.len() > 100_000,
    );
    let room = whole.written.len();
    let (mut done, mut out_of_memory) = (0usize, 0usize);
    for step in 0..BUDGETS {
        let budget = budgets.0.saturating_add(budgets.1.saturating_mul(step));
        let run = large_run(alloc, files, words.as_slice(), budget, room);
        if run.status == 0 {
            done = done.saturating_add(1);
            assert!(rt; run.written == whole.written, "{texts:?}, budget {step}");
        } else {
            out_of_memory = out_of_memory.saturating_add(1);
            assert!(rt;
                run.status == 1 && whole.written.starts_with(run.written.as_slice()),
                "{texts:?}, budget {step}"
            );
            assert!(rt;
                run.reported.ends_with(b"out of memory\n"),
                "{texts:?}, budget {step}: {}",
                run.err()
            );
        }
    }
    assert!(rt;
        done > 0 && out_of_memory > 0,
        "{texts:?}: {done} done, {out_of_memory} out of memory"
    );
}

// Asserts it of an export and a `diff` of files with such records.
fn assert_records(rt: &impl Abort, alloc: Global, records: &Records) {
    let old = large_file(alloc, records, b'A').expect(rt, "a file");
    let new = large_file(alloc, records, b'a').expect(rt, "a file");
    let files = two_files(old.as_slice(), new.as_slice());
    assert_large(rt, alloc, &files, &["export", "here.mmdb"], EXPORTS);
    assert_large(rt, alloc, &files, &["diff", "here.mmdb", "new.mmdb"], DIFFS);
}

#[test]
fn whole_records_in_little_memory(rt: HostRuntime) {
    for records in LARGE_RECORDS {
        assert_records(&rt, rt.alloc(), records);
    }
}
