//! The names of fields, and errors that name one.
ghost use Rattle.std.specs.Prelude.{◌≡◌};
ghost use Rattle.mmdb_format.specs.Error.{IsOfOrMemory, OfDecoding};
ghost use Rattle.mmdb_decode.specs.Names.{named as spec_named};

use mmdb_format::error::MaxMindDbError;
use mmdb_format::message::Message;
use std::alloc::{AllocError, Global};

/// Whether a name has these bytes.
#[inline(always)]
#[tactic(auto, unfolding(crate::specs::Names::named))]
pub fn named(name: &[u8], text: &str) -> bool
    ensures { result ≡ spec_named name.now text.now }
{
    name == text.as_bytes()
}

#[inline(always)]
fn of_field(message: Result<Message, AllocError>, offset: usize) -> MaxMindDbError
    ensures { IsOfOrMemory OfDecoding result }
{
    match message {
        Ok(message) => MaxMindDbError::Decoding {
            message,
            offset: Some(offset),
            path: None,
        },
        Err(_) => MaxMindDbError::Memory,
    }
}

// These texts are made out of line, as those of faults are: so a reader of fields holds no large local.
#[cold]
#[inline(never)]
fn missing_text(alloc: Global, name: &str) -> Result<Message, AllocError> {
    Message::of_text(alloc, format!(in alloc; "missing field `{name}`")?)
}

#[cold]
#[inline(never)]
fn duplicate_text(alloc: Global, name: &str) -> Result<Message, AllocError> {
    Message::of_text(alloc, format!(in alloc; "duplicate field `{name}`")?)
}

/// The error of a record without a field that is required.
#[inline(always)]
pub fn missing_field(alloc: Global, name: &str, offset: usize) -> MaxMindDbError
    ensures { IsOfOrMemory OfDecoding result }
{
    of_field(missing_text(alloc, name), offset)
}

/// The error of a record in which a field comes twice.
#[inline(always)]
pub fn duplicate_field(alloc: Global, name: &str, offset: usize) -> MaxMindDbError
    ensures { IsOfOrMemory OfDecoding result }
{
    of_field(duplicate_text(alloc, name), offset)
}
