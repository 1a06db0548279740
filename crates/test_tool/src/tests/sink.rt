//! A sink that takes one byte a call, and then fails or takes none.
ghost use Rattle.std.specs.Prelude.{Some};
ghost use Rattle.std.specs.Io.{WritesAtMost};
ghost use Rattle.std.specs.Io.KnownBytes.{WriteAppends};

use mmdb_tool::{Fault, Sink};
use std::alloc::Global;
use std::io;
use std::process::Abort;

/// What a sink does at the call that it ends at.
#[derive(Clone, Copy)]
pub enum End {
    Fails,
    TakesNone,
}

#[derive(Drop)]
pub struct OneByte {
    bytes: Vec<u8>,
    calls: u32,
    ends_at: u32,
    end: End,
    fault: Fault,
}

/// A sink that has the memory for all that it takes before it ends.
pub fn one_byte(rt: &impl Abort, alloc: Global, ends_at: u32, end: End) -> OneByte {
    OneByte {
        bytes: Vec::with_capacity(alloc, 200).expect(rt, "memory for a sink"),
        calls: 0,
        ends_at,
        end,
        fault: Fault::Free,
    }
}

impl OneByte {
    pub fn bytes(&self) -> &[u8] {
        self.bytes.as_slice()
    }

    pub fn fault(&self) -> Fault {
        self.fault
    }

    /// What is put where the sink had no fault so far.
    fn taken(&mut self, bytes: &[u8]) -> io::Result<usize>
        ensures bound { WritesAtMost result bytes.now }
        ensures bytes { WriteAppends (Some self.old.bytes.items) (Some self.new.bytes.items)
            result bytes.now }
    {
        self.calls = self.calls.saturating_add(1);
        let Some(first) = bytes.first() else {
            return Ok(0);
        };
        if self.calls == self.ends_at {
            return match self.end {
                End::Fails => Err(io::Error::from(io::ErrorKind::InvalidData)),
                End::TakesNone => Ok(0),
            };
        }
        if self.bytes.push(*first).is_err() {
            return Err(io::Error::from(io::ErrorKind::OutOfMemory));
        }
        Ok(1)
    }
}

impl Sink for OneByte {
    ghost held = { λ sink. Some sink.bytes.items };

    ghost fault = { λ sink. sink.fault };

    fn put(&mut self, bytes: &[u8]) -> io::Result<usize> {
        let fault = self.fault;
        let taken = self.taken(bytes);
        self.fault = match (fault, &taken) {
            (Fault::Free, Err(_)) => Fault::Failed,
            (Fault::Free, Ok(0)) if !bytes.is_empty() => Fault::Stalled,
            _ => fault,
        };
        taken
    }
}
