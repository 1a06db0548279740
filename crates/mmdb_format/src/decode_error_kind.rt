//! What can be wrong with the bytes of a value.
ghost use Rattle.std.specs.Prelude.{◌≡◌, ◌≤◌, ◌<◌};
ghost use Rattle.mmdb_format.specs.Error.{kind_of, IsOfOrMemory};
ghost use Rattle.mmdb_format.specs.Faults.{kind_of_fault};

use crate::error::MaxMindDbError;
use crate::kind::Kind;
use crate::message::{Message, Text};
use std::alloc::{AllocError, Global};

/// What is wrong with the bytes of a value, or with what they ask of a reader.
#[derive(Clone, Copy)]
pub enum DecodeErrorKind {
    /// A byte of a header or of a pointer is missing.
    EndOfBuffer,
    /// The size is not one of the type's, or runs past the section.
    SizeOf(Kind, usize),
    /// The bytes of a pointer that is passed, this many after its control byte, run past the section.
    PointerSize(usize),
    /// A key runs past the section.
    KeyTooLong,
    /// The type number belongs to no type.
    UnknownType(u16),
    /// A text is not UTF-8.
    InvalidUtf8,
    /// A pointer leads to a pointer where one alone is allowed.
    PointerToPointer,
    /// A key is no text, but of this type number.
    KeyOfType(u16),
    /// More levels than a reader allows.
    TooDeep,
    /// A pointer leads back to this offset, which is not passed yet.
    Cycle(usize),
    /// The value is not of the type that was asked for, but of this type number.
    Unexpected(Kind, u16),
    /// An array of the first length was asked for, and it has the second.
    WrongLength(usize, usize),
    /// An integer is out of the range that was asked for.
    OutOfRange,
    /// The value is no integer.
    NotWhole,
    /// More values than a reader allows.
    TooManyValues,
    /// More bytes of texts and byte strings than a reader allows.
    TooManyBytes,
    /// More work than the check of a section allows.
    TooMuchWork,
}

impl DecodeErrorKind {
    /// The fault of a value that is not of the type that was asked for. A type number above 255 is
    /// none that a type can have.
    pub fn unexpected(wanted: Kind, found: u16) -> DecodeErrorKind
        ensures other { found ≤ 255 → result ≡ DecodeErrorKind.Unexpected wanted found }
        ensures unknown { 255 < found → result ≡ DecodeErrorKind.UnknownType found }
    {
        if found > 255 {
            DecodeErrorKind::UnknownType(found)
        } else {
            DecodeErrorKind::Unexpected(wanted, found)
        }
    }

    // Kept out of line, and its result small: so the calls that may fail hold no large local.
    #[cold]
    #[inline(never)]
    fn message(self, alloc: Global) -> Result<Message, AllocError> {
        let text = match self {
            DecodeErrorKind::SizeOf(kind, size) => {
                let name = kind.name();
                format!(in alloc; "{name} of size {size}")
            }
            DecodeErrorKind::PointerSize(size) => format!(in alloc; "pointer of size {size}"),
            DecodeErrorKind::UnknownType(number) => {
                format!(in alloc; "unknown data type: {number}")
            }
            DecodeErrorKind::KeyOfType(number) => {
                format!(in alloc; "expected string, got type {number}")
            }
            DecodeErrorKind::Cycle(offset) => {
                format!(in alloc; "cyclic data pointer references offset {offset}")
            }
            DecodeErrorKind::Unexpected(wanted, found) => {
                let name = wanted.name();
                format!(in alloc; "expected {name}, got type {found}")
            }
            DecodeErrorKind::WrongLength(wanted, found) => format!(in alloc;
                "expected tuple of length {wanted}, got array of length {found}"
            ),
            DecodeErrorKind::EndOfBuffer => return Ok(Message::Fixed(Text::EndOfBuffer)),
            DecodeErrorKind::KeyTooLong => return Ok(Message::Fixed(Text::KeyTooLong)),
            DecodeErrorKind::InvalidUtf8 => return Ok(Message::Fixed(Text::InvalidUtf8)),
            DecodeErrorKind::PointerToPointer => return Ok(Message::Fixed(Text::PointerToPointer)),
            DecodeErrorKind::TooDeep => return Ok(Message::Fixed(Text::TooDeep)),
            DecodeErrorKind::OutOfRange => return Ok(Message::Fixed(Text::OutOfRange)),
            DecodeErrorKind::NotWhole => return Ok(Message::Fixed(Text::NotWhole)),
            DecodeErrorKind::TooManyValues => return Ok(Message::Fixed(Text::TooManyValues)),
            DecodeErrorKind::TooManyBytes => return Ok(Message::Fixed(Text::TooManyBytes)),
            DecodeErrorKind::TooMuchWork => return Ok(Message::Fixed(Text::TooMuchWork)),
        };
        Message::of_text(alloc, text?)
    }

    /// The error that reports this fault at an offset, or `Memory` where its text holds a number
    /// and there is no memory for it.
    #[inline(always)]
    pub fn to_error(self, alloc: Global, offset: usize) -> MaxMindDbError
        ensures { IsOfOrMemory (kind_of_fault self) result }
    {
        let Ok(message) = self.message(alloc) else {
            return MaxMindDbError::Memory;
        };
        let offset = Some(offset);
        match self {
            DecodeErrorKind::Unexpected(_, _)
            | DecodeErrorKind::WrongLength(_, _)
            | DecodeErrorKind::OutOfRange
            | DecodeErrorKind::NotWhole => {
                MaxMindDbError::Decoding {
                    message,
                    offset,
                    path: None,
                }
            }
            DecodeErrorKind::TooManyValues
            | DecodeErrorKind::TooManyBytes
            | DecodeErrorKind::TooMuchWork => {
                MaxMindDbError::ResourceLimit {
                    message,
                    offset,
                    path: None,
                }
            }
            _ => MaxMindDbError::InvalidDatabase { message, offset },
        }
    }
}
