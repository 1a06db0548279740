//! What takes a program's bytes.
ghost use Rattle.std.specs.Prelude.{◌≡◌, List, ℕ, Option, OnOk, OnErr};
ghost use Rattle.std.specs.Io.{WritesAtMost};
ghost use Rattle.std.specs.Io.KnownBytes.{WriteAppends, Appends};
ghost use Rattle.mmdb_tool.specs.Sink.{fault_after};
ghost use Rattle.mmdb_tool.specs.Putting.{AppendsFront, TellsFault};
ghost use Rattle.mmdb_tool.specs.declared.sink.Fault.{Fault};
ghost use Rattle.mmdb_tool.specs.declared.sink.Fault.TheVariants.{Free};

use std::io::{self, Write};

/// What has kept a sink from taking bytes: the first fault that it met.
#[derive(Clone, Copy, Debug, PartialEq, Eq)]
pub enum Fault {
    /// None.
    Free,
    /// A put failed.
    Failed,
    /// A put of at least one byte took none.
    Stalled,
}

/// A place for bytes.
pub trait Sink {
    /// The bytes that it holds, where it shows them.
    ghost held: { Self → Option (List ℕ) };

    /// The first fault that it met.
    ghost fault: { Self → Fault };

    /// Takes the first bytes, and answers how many; an `Err` took none. It is handed no allocator: a
    /// growth that fails inside is an `Err`.
    fn put(&mut self, bytes: &[u8]) -> io::Result<usize>
        ensures bound { WritesAtMost result bytes.now }
        ensures bytes { WriteAppends (held self.old) (held self.new) result bytes.now }
        ensures fault { fault self.new ≡ fault_after (fault self.old) result bytes.now };
}

/// A writer as a sink: each put is one call of `write`.
#[derive(Drop)]
pub struct Out<W: Write + Drop> {
    inner: W,
    fault: Fault,
}

impl<W: Write + Drop> Out<W> {
    ghost use Rattle.mmdb_tool.specs.Out.{writer_of, fault_of};

    /// A sink over a writer, without a fault.
    pub fn new(inner: W) -> Out<W>
        ensures inner { writer_of result ≡ inner }
        ensures free { fault_of result ≡ Free }
    {
        Out {
            inner,
            fault: Fault::Free,
        }
    }

    /// The writer.
    pub fn into_inner(self) -> W
        ensures { result ≡ writer_of self }
    {
        self.inner
    }
}

impl<W: Write + Drop> Sink for Out<W> {
    ghost held = { λ out. W.contents out.inner };

    ghost fault = { λ out. out.fault };

    fn put(&mut self, bytes: &[u8]) -> io::Result<usize> {
        let taken = self.inner.write(bytes);
        match (self.fault, &taken) {
            (Fault::Free, Err(_)) => self.fault = Fault::Failed,
            (Fault::Free, Ok(0)) if !bytes.is_empty() => self.fault = Fault::Stalled,
            _ => {}
        }
        taken
    }
}

/// Why a text was not put whole.
#[derive(Drop)]
pub(crate) enum PutError {
    Write(io::Error),
    Stopped,
}

/// Puts all of the bytes. An interrupted put is an error as any other, and is not tried again.
pub(crate) fn put_all<W: Sink>(sink: &mut W, bytes: &[u8]) -> Result<(), PutError>
    ensures whole { OnOk result (Appends (W.held sink.old) (W.held sink.new) bytes.now) }
    ensures begun { OnErr result (AppendsFront (W.held sink.old) (W.held sink.new) bytes.now) }
    ensures fault { TellsFault (W.fault sink.old) (W.fault sink.new) result }
{
    let mut rest = bytes;
    while !rest.is_empty() {
        match sink.put(rest) {
            Err(error) => return Err(PutError::Write(error)),
            Ok(0) => return Err(PutError::Stopped),
            Ok(n) => rest = &rest[n..],
        }
    }
    Ok(())
}
