//! How far a command is, on a terminal.
use crate::output::Terminals;
use std::alloc::{AllocError, Global};
use std::io::{self, Write};
use std::time::{Clock, Duration};

/// Back to the head of the line, and nothing after it.
const CLEARED: &[u8] = b"\r\x1b[K";

const KILOBYTE: u64 = 1_000;

const MEGABYTE: u64 = 1_000_000;

/// What passed so far.
#[derive(Clone, Copy)]
pub struct Passed {
    /// How many rows or networks.
    pub count: u64,
    /// How many bytes of the input, where they are counted.
    pub bytes: Option<u64>,
    /// How many bytes the input has, where that is known.
    pub size: Option<u64>,
}

impl Passed {
    /// This many rows or networks, of which no bytes are counted.
    pub fn of(count: u64) -> Passed {
        Passed {
            count,
            bytes: None,
            size: None,
        }
    }
}

// How many of a unit there are, rounded.
fn rounded(count: u64, unit: u64) -> u64 {
    count.saturating_add(unit / 2) / unit.max(1)
}

// Appends how many bytes passed.
fn put_bytes(alloc: Global, bytes: u64, text: &mut String) -> Result<(), AllocError> {
    let kilobytes = rounded(bytes, KILOBYTE);
    let (count, unit) = if kilobytes < MEGABYTE / KILOBYTE {
        (kilobytes, "kB")
    } else {
        (rounded(bytes, MEGABYTE), "MB")
    };
    let part: String = format!(in alloc; ", {count} {unit}")?;
    text.push_str(part.as_str())
}

// Appends how many pass in a second.
fn put_rate(alloc: Global, count: u64, millis: u64, text: &mut String) -> Result<(), AllocError> {
    let rate = u128::from(count) * 1_000 / u128::from(millis.max(1));
    let part: String = format!(in alloc; ", {rate} a second")?;
    text.push_str(part.as_str())
}

// Appends which part of the input passed, and how long the rest takes.
fn put_rest(
    alloc: Global,
    bytes: u64,
    size: u64,
    millis: u64,
    text: &mut String,
) -> Result<(), AllocError> {
    let done = bytes.min(size);
    let percent = (u128::from(done) * 100 + u128::from(size / 2)) / u128::from(size.max(1));
    let seconds = u128::from(millis) * u128::from(size - done) / u128::from(done.max(1)) / 1_000;
    let part: String = if seconds < 120 {
        format!(in alloc; ", {percent} %, {seconds} s left")?
    } else {
        let minutes = seconds / 60;
        format!(in alloc; ", {percent} %, {minutes} min left")?
    };
    text.push_str(part.as_str())
}

/// What passed in `millis` milliseconds, in words: how many, how many bytes, from one second on how many in a second, and of an
/// input whose size is known the part that passed and the time that is left.
pub fn text_of_progress(
    alloc: Global,
    unit: &str,
    passed: Passed,
    millis: u64,
) -> Result<String, AllocError> {
    let count = passed.count;
    let mut text: String = format!(in alloc; "mmdb: {count} {unit}")?;
    if let Some(bytes) = passed.bytes {
        put_bytes(alloc, bytes, &mut text)?;
    }
    if millis < 1_000 {
        return Ok(text);
    }
    put_rate(alloc, count, millis, &mut text)?;
    if let (Some(bytes), Some(size)) = (passed.bytes, passed.size) {
        put_rest(alloc, bytes, size, millis, &mut text)?;
    }
    Ok(text)
}

/// An output that knows how long a command runs.
pub trait Pace: Write {
    /// The milliseconds since the command began, where a terminal shows how far it is.
    fn millis(&self) -> Option<u64>;
}

/// Standard error of a command.
#[derive(Drop)]
pub struct Paced<'c, R: Clock, E: Write> {
    rt: &'c R,
    /// When the command began, where a terminal shows how far it is.
    begun: Option<Duration>,
    err: &'c mut E,
}

impl<'c, R: Clock, E: Write> Paced<'c, R, E> {
    /// Of a command that begins now. How far it is is shown where standard error is a terminal and standard output is none.
    pub fn new(rt: &'c R, terminals: Terminals, err: &'c mut E) -> Paced<'c, R, E> {
        let begun = if terminals.errors && !terminals.output {
            rt.monotonic().ok()
        } else {
            None
        };
        Paced { rt, begun, err }
    }
}

impl<'c, R: Clock, E: Write> Write for Paced<'c, R, E> {
    fn write(&mut self, bytes: &[u8]) -> io::Result<usize> {
        self.err.write(bytes)
    }

    fn flush(&mut self) -> io::Result<()> {
        self.err.flush()
    }
}

impl<'c, R: Clock, E: Write> Pace for Paced<'c, R, E> {
    fn millis(&self) -> Option<u64> {
        let begun = self.begun?;
        let now = self.rt.monotonic().ok()?;
        u64::try_from(now.saturating_sub(begun).as_millis()).ok()
    }
}

/// Writes what passed over the line before it, where a terminal shows that. Whether it was written.
pub(crate) fn show<E: Pace>(alloc: Global, unit: &str, passed: Passed, err: &mut E) -> bool {
    let Some(millis) = err.millis() else {
        return false;
    };
    let Ok(text) = text_of_progress(alloc, unit, passed, millis) else {
        return false;
    };
    let _ = err.write_all(CLEARED);
    let _ = err.write_all(text.as_bytes());
    true
}

/// Takes a line away again.
pub(crate) fn take_away<E: Write>(err: &mut E) {
    let _ = err.write_all(CLEARED);
}

/// A line on a terminal that shows how far a command is.
#[derive(Drop)]
pub struct ProgressLine<'e, E: Pace> {
    alloc: Global,
    unit: &'static str,
    is_shown: bool,
    err: &'e mut E,
}

impl<'e, E: Pace> ProgressLine<'e, E> {
    pub fn new(alloc: Global, unit: &'static str, err: &'e mut E) -> ProgressLine<'e, E> {
        ProgressLine {
            alloc,
            unit,
            is_shown: false,
            err,
        }
    }

    /// Shows what passed.
    pub fn passed(&mut self, passed: Passed) {
        self.is_shown |= show(self.alloc, self.unit, passed, self.err);
    }

    /// Writes a text to standard error in the place of the line. It is left out where there is no memory for it.
    pub fn note(&mut self, text: Result<String, AllocError>) {
        self.clear();
        if let Ok(text) = text {
            let _ = self.err.write_all(text.as_bytes());
        }
    }

    /// Takes the line away again.
    pub fn clear(&mut self) {
        if self.is_shown {
            take_away(self.err);
            self.is_shown = false;
        }
    }
}
