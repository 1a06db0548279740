//! The program on words, files and lines that a test makes.
use mmdb_program::{Io, Terminals, run};
use mmdb_vectors::file::TestFiles;
use std::alloc::Global;
use std::io::{self, Write};
use std::str;

/// Reads enough for each file of a test.
const ALL_READS: u32 = 1_000_000;

/// What a run left.
#[derive(Drop)]
pub struct Run {
    pub status: u8,
    pub written: Vec<u8>,
    pub reported: Vec<u8>,
}

impl Run {
    /// What standard output got.
    pub fn out(&self) -> &str {
        str::from_utf8(self.written.as_slice()).unwrap_or("not UTF-8")
    }

    /// What standard error got.
    pub fn err(&self) -> &str {
        str::from_utf8(self.reported.as_slice()).unwrap_or("not UTF-8")
    }
}

/// A writer with room for so many bytes, which then fails.
#[derive(Drop)]
pub struct Narrow {
    pub bytes: Vec<u8>,
    pub room: usize,
    pub to_error: io::ErrorKind,
}

impl Write for Narrow {
    fn write(&mut self, bytes: &[u8]) -> io::Result<usize> {
        let count = bytes.len().min(self.room.saturating_sub(self.bytes.len()));
        if count == 0 && !bytes.is_empty() {
            return Err(io::Error::from(self.to_error));
        }
        self.bytes.extend_from_slice(&bytes[..count])?;
        Ok(count)
    }

    fn flush(&mut self) -> io::Result<()> {
        Ok(())
    }
}

// Without memory for it the word is missing.
fn push_word(words: &mut Vec<String>, alloc: Global, text: &str) {
    let _ = words.push(String::from_str(alloc, text).unwrap_or(String::new(alloc)));
}

/// The arguments of a run, the program's name first.
pub fn words_with(alloc: Global, texts: &[&str]) -> Vec<String> {
    let mut words = Vec::new(alloc);
    push_word(&mut words, alloc, "mmdb");
    for text in texts {
        push_word(&mut words, alloc, text);
    }
    words
}

/// Whether standard output is a terminal; standard error is none.
pub fn terminals(is_terminal: bool) -> Terminals {
    Terminals {
        output: is_terminal,
        errors: false,
    }
}

/// The file `here.mmdb`, without a fault.
pub fn file_of(bytes: &[u8]) -> TestFiles<'_> {
    TestFiles::new(bytes, ALL_READS)
}

/// The files `here.mmdb` and `new.mmdb`, without a fault.
pub fn two_files<'a>(old: &'a [u8], newer: &'a [u8]) -> TestFiles<'a> {
    TestFiles {
        bytes: old,
        newer,
        step: 64,
        fails_at: ALL_READS,
        interrupts: 0,
    }
}

/// A run over a file, and lines on standard input.
pub fn run_over(
    alloc: Global,
    files: &TestFiles<'_>,
    texts: &[&str],
    lines: &str,
    is_terminal: bool,
) -> Run {
    let words = words_with(alloc, texts);
    let mut input = lines.as_bytes();
    let mut written: Vec<u8> = Vec::new(alloc);
    let mut reported: Vec<u8> = Vec::new(alloc);
    let io = Io {
        input: &mut input,
        out: &mut written,
        errors: &mut reported,
        terminals: terminals(is_terminal),
    };
    let status = run(files, alloc, words.as_slice(), io);
    Run {
        status,
        written,
        reported,
    }
}

/// A run over the file `here.mmdb`, and lines on standard input.
pub fn run_of(alloc: Global, bytes: &[u8], texts: &[&str], lines: &str) -> Run {
    run_over(alloc, &file_of(bytes), texts, lines, false)
}
