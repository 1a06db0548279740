//! A number for all that was written.
use std::io::{self, Write};

/// How many bytes are taken into the number at once.
const SIZE: usize = 1 << 16;

/// What is added in a step of the number.
const FACTOR: u64 = 0x9E37_79B9_7F4A_7C15;

/// A writer that keeps a number for all bytes, in whatever pieces they come.
#[derive(Drop)]
pub(crate) struct Digest {
    waiting: Vec<u8>,
    lanes: [u64; 4],
    len: u64,
}

// The number of eight bytes.
#[inline(always)]
fn word_of(bytes: &[u8]) -> u64 {
    match bytes {
        [a, b, c, d, e, f, g, h] => u64::from_le_bytes([*a, *b, *c, *d, *e, *f, *g, *h]),
        _ => 0,
    }
}

// A lane with a word more.
#[inline(always)]
fn stirred(lane: u64, word: u64) -> u64 {
    let mixed = (lane ^ word).wrapping_mul(FACTOR);
    mixed ^ (mixed >> 29)
}

impl Digest {
    /// Of no byte.
    pub(crate) fn new(alloc: std::alloc::Global) -> Digest {
        Digest {
            waiting: Vec::new(alloc),
            lanes: [1, 2, 3, 4],
            len: 0,
        }
    }

    // Takes in the bytes that wait.
    fn take_in(&mut self) {
        let [mut first, mut second, mut third, mut fourth] = self.lanes;
        for chunk in self.waiting.as_slice().chunks_exact(32) {
            let (low, high) = chunk.split_at(16.min(chunk.len()));
            let (a, b) = low.split_at(8.min(low.len()));
            let (c, d) = high.split_at(8.min(high.len()));
            first = stirred(first, word_of(a));
            second = stirred(second, word_of(b));
            third = stirred(third, word_of(c));
            fourth = stirred(fourth, word_of(d));
        }
        self.lanes = [first, second, third, fourth];
        self.len = self.len.wrapping_add(self.waiting.len() as u64);
        self.waiting.clear();
    }

    /// Takes in a number.
    pub(crate) fn number(&mut self, number: u64) {
        let [first, second, third, fourth] = self.lanes;
        self.lanes = [second, third, fourth, stirred(first, number)];
    }

    /// The number of all bytes so far, of which the last ones are taken in apart.
    pub(crate) fn sum(&mut self) -> u64 {
        let rest = self.waiting.len() % 32;
        let from = self.waiting.len() - rest;
        let mut tail = rest as u64;
        for byte in self.waiting.as_slice().split_at(from).1 {
            tail = stirred(tail, u64::from(*byte));
        }
        self.take_in();
        self.number(tail);
        let mut sum = self.len;
        for lane in self.lanes {
            sum = stirred(sum, lane);
        }
        sum
    }
}

impl Write for Digest {
    fn write(&mut self, bytes: &[u8]) -> io::Result<usize> {
        let room = SIZE.saturating_sub(self.waiting.len());
        let (now, _) = bytes.split_at(bytes.len().min(room));
        self.waiting.extend_from_slice(now)?;
        if self.waiting.len() >= SIZE {
            self.take_in();
        }
        Ok(now.len())
    }

    fn flush(&mut self) -> io::Result<()> {
        Ok(())
    }
}
