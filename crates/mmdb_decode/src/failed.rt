//! Readings that failed: what is handed on is small, and the decoder stays where it failed.
ghost use Rattle.std.specs.Prelude.{◌≡◌};

use std::alloc::AllocFailed;

/// A reading failed. The decoder is where it was.
#[derive(Clone, Copy)]
pub enum Failed {
    /// There was no memory.
    OutOfMemory,
    /// What is there cannot be read.
    Unreadable,
}

/// What was to be read where a reading failed, or what is wrong where that can be read.
#[derive(Clone, Copy)]
pub(crate) enum Step {
    /// The name of a field.
    Name,
    /// A map.
    Map,
    /// An array.
    Array,
    /// An unsigned number of 16 bits.
    U16,
    /// An unsigned number of 32 bits.
    U32,
    /// A truth value.
    Bool,
    /// A number of double precision.
    Double,
    /// A text.
    Text,
    /// An integer of whatever type.
    Whole,
    /// A value that is passed.
    Skip,
    /// An integer in a range, which it is out of.
    Range,
    /// A text that is read, whose bytes are not UTF-8.
    Encoding,
    /// A value that is passed, in which too many containers nest.
    Nested,
    /// The value of a field that comes a second time.
    Repeated,
    /// A list, which has more elements than are allowed.
    List,
    /// The key of a map of any type.
    Key,
    /// The header of a value of any type, or what follows it.
    Value,
    /// The parts of a container, which are too many.
    Parts,
}

impl<T: Drop> From<AllocFailed<T>> for Failed {
    ghost use Rattle.mmdb_decode.specs.declared.failed.Failed.TheVariants.{OutOfMemory};

    ghost from_gives = { λ _ e. e ≡ OutOfMemory };

    fn from(_error: AllocFailed<T>) -> Failed {
        Failed::OutOfMemory
    }
}
