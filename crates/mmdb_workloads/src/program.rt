//! Runs of the program `mmdb` over files in memory.
use crate::digest::Digest;
use anyhow::ensure;
use mmdb_program::{Io, Terminals, run};
use mmdb_vectors::file::TestFiles;
use mmdb_vectors::words::words_of;
use std::alloc::Global;
use std::io::BufReader;
use std::str;

/// As many bytes are read from standard input at once.
const BUFFER: usize = 1 << 16;

/// As many bytes are read from a file at once.
const STEP: usize = 1 << 24;

/// The files `here.mmdb` and `new.mmdb`.
pub(crate) fn files_of<'a>(here: &'a [u8], newer: &'a [u8]) -> TestFiles<'a> {
    TestFiles {
        bytes: here,
        newer,
        step: STEP,
        fails_at: u32::MAX,
        interrupts: 0,
    }
}

/// Runs the program on arguments over files and standard input. What it writes, reports and answers goes into a digest.
pub(crate) fn run_program(
    alloc: Global,
    files: &TestFiles<'_>,
    arguments: &[&str],
    input: &[u8],
    digest: &mut Digest,
) -> anyhow::Result<()> {
    let words = words_of(alloc, arguments)?;
    let mut input = BufReader::with_capacity(alloc, BUFFER, input)?;
    let mut reported: Vec<u8> = Vec::new(alloc);
    let io = Io {
        input: &mut input,
        out: digest,
        errors: &mut reported,
        terminals: Terminals {
            output: false,
            errors: false,
        },
    };
    let status = run(files, alloc, words.as_slice(), io);
    digest.number(u64::from(status));
    for byte in &reported {
        digest.number(u64::from(*byte));
    }
    let text = str::from_utf8(reported.as_slice()).unwrap_or("");
    ensure!(status == 0, "status {status}: {text}");
    Ok(())
}
