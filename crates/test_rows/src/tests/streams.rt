//! Inputs and outputs that a test makes.
ghost use Rattle.std.specs.Prelude.{⊤};
ghost use Rattle.mmdb_filter.specs.Lines.{most_seen};

use mmdb_filter::{Added, Additions, Counts, MOST_SEEN, Outcome, Progress, Rows, filter_rows};
use std::alloc::{AllocError, Global};
use std::io::{self, BufReader, ErrorKind, Read, Write};
use std::process::Abort;

/// Asserts what holds of a case.
pub(crate) fn assert_holds(rt: &impl Abort, holds: bool, case: &str) {
    assert!(rt; holds, "{case}");
}

/// Asserts what holds of a numbered case.
pub(crate) fn assert_at(rt: &impl Abort, holds: bool, case: usize) {
    assert!(rt; holds, "{case}");
}

/// An input that gives so many bytes a read, of which every third is interrupted, and fails at a read.
#[derive(Drop)]
pub(crate) struct Chopped<'a> {
    bytes: &'a [u8],
    step: usize,
    reads: u32,
    fails_at: u32,
}

impl<'a> Chopped<'a> {
    /// An input of these bytes, so many a read, whose read number `fails_at` fails.
    pub(crate) fn new(bytes: &'a [u8], step: usize, fails_at: u32) -> Chopped<'a> {
        Chopped {
            bytes,
            step,
            reads: 0,
            fails_at,
        }
    }
}

impl Read for Chopped<'_> {
    fn read(&mut self, buf: &mut [u8]) -> io::Result<usize> {
        if self.reads == self.fails_at {
            return Err(io::Error::from(ErrorKind::InvalidData));
        }
        self.reads = self.reads.saturating_add(1);
        if self.reads % 3 == 0 {
            return Err(io::Error::from(ErrorKind::Interrupted));
        }
        let count = self.step.min(buf.len()).min(self.bytes.len());
        let (now, later) = self.bytes.split_at(count);
        buf[..count].copy_from_slice(now);
        self.bytes = later;
        Ok(count)
    }
}

/// An output with room for so many bytes, which takes so many a write, and of which every second is interrupted.
#[derive(Drop)]
pub(crate) struct Narrow {
    pub(crate) bytes: Vec<u8>,
    pub(crate) room: usize,
    pub(crate) step: usize,
    pub(crate) writes: u32,
}

impl Write for Narrow {
    fn write(&mut self, bytes: &[u8]) -> io::Result<usize> {
        self.writes = self.writes.wrapping_add(1);
        if self.writes % 2 == 0 {
            return Err(io::Error::from(ErrorKind::Interrupted));
        }
        let room = self.room.saturating_sub(self.bytes.len());
        let count = bytes.len().min(self.step).min(room);
        if count == 0 && !bytes.is_empty() {
            return Err(io::Error::from(ErrorKind::StorageFull));
        }
        self.bytes.extend_from_slice(&bytes[..count])?;
        Ok(count)
    }

    fn flush(&mut self) -> io::Result<()> {
        Ok(())
    }
}

/// Adds how many bytes are seen, and `+` where the text is longer.
#[derive(Drop)]
pub(crate) struct Lengths;

impl Additions for Lengths {
    type Memory = ();

    ghost adds = { λ _. record { most = most_seen; adds = λ _ _ _ _ _. ⊤ } };

    ghost fits = { λ _ _. ⊤ };

    fn most_seen(&self) -> usize {
        MOST_SEEN
    }

    fn add(
        &self,
        _memory: &mut (),
        text: &[u8],
        is_long: bool,
        out: &mut Vec<u8>,
    ) -> Result<Added, AllocError> {
        let len = text.len();
        let mut mark = [b'+'; 7];
        mark[0] = b'|';
        mark[1] = b'0' + (len / 10_000 % 10) as u8;
        mark[2] = b'0' + (len / 1_000 % 10) as u8;
        mark[3] = b'0' + (len / 100 % 10) as u8;
        mark[4] = b'0' + (len / 10 % 10) as u8;
        mark[5] = b'0' + (len % 10) as u8;
        let (count, outcome) = if is_long {
            (7, Outcome::Failed)
        } else {
            (6, Outcome::Found)
        };
        out.extend_from_slice(&mark[..count])?;
        Ok(Added { outcome, behind: 0 })
    }

    fn foresee(&self, _memory: &mut (), _bytes: &[u8]) {}
}

/// Adds a mark before so many bytes of each text, or before all of a shorter one, and nothing to a long one.
#[derive(Drop)]
pub(crate) struct Marks(pub(crate) usize);

impl Additions for Marks {
    type Memory = ();

    ghost adds = { λ _. record { most = most_seen; adds = λ _ _ _ _ _. ⊤ } };

    ghost fits = { λ _ _. ⊤ };

    fn most_seen(&self) -> usize {
        MOST_SEEN
    }

    fn add(
        &self,
        _memory: &mut (),
        text: &[u8],
        is_long: bool,
        out: &mut Vec<u8>,
    ) -> Result<Added, AllocError> {
        if is_long {
            return Ok(Added {
                outcome: Outcome::Unreadable,
                behind: 0,
            });
        }
        out.push(b'|')?;
        Ok(Added {
            outcome: Outcome::Found,
            behind: self.0.min(text.len()),
        })
    }

    fn foresee(&self, _memory: &mut (), _bytes: &[u8]) {}
}

/// The last number of rows that was reported.
#[derive(Drop)]
pub(crate) struct Seen(pub(crate) u64);

impl Progress for Seen {
    ghost ends = { λ _. ⊤ };

    fn passed(&mut self, counts: Counts) -> bool {
        self.0 = counts.total().unwrap_or(0);
        true
    }

    fn has_read(&mut self) -> bool {
        true
    }

    fn stays_quoted(&mut self, _rows: u64, _is_long: bool) {}

    fn is_named(&mut self, _rows: u64, _outcome: Outcome) {}
}

/// The filter over an input in pieces of one size.
pub(crate) fn filtered<W: Write>(
    alloc: Global,
    rows: Rows,
    input: Chopped<'_>,
    capacity: usize,
    out: &mut W,
) -> io::Result<Counts> {
    let mut reader = BufReader::with_capacity(alloc, capacity, input)?;
    let filtered = filter_rows(
        alloc,
        rows,
        &Lengths,
        &mut (),
        Counts::new(),
        &mut reader,
        out,
        &mut Seen(0),
    )?;
    Ok(filtered.counts)
}
