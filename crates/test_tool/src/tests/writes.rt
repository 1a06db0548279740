//! Puts as calls of a writer: each is one call of `write`, with all of the bytes.
use mmdb_tool::{Out, Sink};
use std::alloc::{AllocError, Global};
use std::io::{self, ErrorKind, Write};

/// What a writer does with a call.
#[derive(Clone, Copy)]
enum Takes {
    All,
    One,
    None,
    Fails,
    Interrupted,
}

/// A writer that keeps how often `write` was called, and with how many bytes last.
#[derive(Drop)]
struct Counting {
    takes: Takes,
    writes: u32,
    flushes: u32,
    asked: usize,
}

impl Write for Counting {
    fn write(&mut self, bytes: &[u8]) -> io::Result<usize> {
        self.writes = self.writes.saturating_add(1);
        self.asked = bytes.len();
        match self.takes {
            Takes::All => Ok(bytes.len()),
            Takes::One => Ok(bytes.len().min(1)),
            Takes::None => Ok(0),
            Takes::Fails => Err(io::Error::from(ErrorKind::InvalidData)),
            Takes::Interrupted => Err(io::Error::from(ErrorKind::Interrupted)),
        }
    }

    fn flush(&mut self) -> io::Result<()> {
        self.flushes = self.flushes.saturating_add(1);
        Ok(())
    }
}

/// What the writer does, how many bytes are put, and how many the put answers, unless it fails.
type Row = (Takes, usize, Option<usize>);

#[rattlefmt::skip]
const ROWS: &[Row] = &[
    (Takes::All, 0, Some(0)),
    (Takes::All, 1, Some(1)),
    (Takes::All, 70_000, Some(70_000)),
    (Takes::One, 70_000, Some(1)),
    (Takes::None, 3, Some(0)),
    (Takes::Fails, 3, None),
    (Takes::Interrupted, 3, None),
];

// Whether one put calls `write` once, with all of the bytes, and nothing else, and hands on what it answers.
fn is_one_write(alloc: Global, row: &Row) -> Result<bool, AllocError> {
    let (takes, count, wanted) = row;
    let mut bytes = Vec::new(alloc);
    bytes.resize(*count, b'x')?;
    let mut out = Out::new(Counting {
        takes: *takes,
        writes: 0,
        flushes: 0,
        asked: usize::MAX,
    });
    let answer = out.put(bytes.as_slice()).ok();
    let writer = out.into_inner();
    Ok(answer == *wanted && writer.writes == 1 && writer.flushes == 0 && writer.asked == *count)
}

#[test]
fn puts_are_single_writes(rt: HostRuntime) {
    for row in ROWS {
        let holds = is_one_write(rt.alloc(), row).unwrap_or(false);
        assert!(rt; holds, "{} bytes", row.1);
    }
}
