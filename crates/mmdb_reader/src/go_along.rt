//! Going along a path, and the errors of a path.
ghost use Rattle.std.specs.Prelude.{◌≡◌, ◌<◌, Bool, true, false, length, IfErr, IsSome};
ghost use Rattle.mmdb_format.specs.Error.{IsOfOrMemory, OfDecoding, kind_of};
ghost use Rattle.mmdb_decode.specs.State.{decoded, GivenUp};
ghost use Rattle.mmdb_decode.specs.Errors.{Takes, Kept};
ghost use Rattle.mmdb_reader.specs.Selecting.{at_step, selected, meets_at_step, meets_other_type as spec_meets_other_type};

use crate::path::{PathElement, render_path};
use mmdb_decode::decoder::Decoder;
use mmdb_decode::laws::values_bounded;
use mmdb_format::decode_error_kind::DecodeErrorKind;
use mmdb_format::error::MaxMindDbError;
use mmdb_format::kind::Kind;
use mmdb_format::message::Message;
use std::alloc::{AllocError, Global};

/// Why a step of a path failed, and how many steps came before it.
#[derive(Clone, Copy)]
pub(crate) struct RejectedStep {
    fault: DecodeErrorKind,
    before: usize,
}

impl PathElement<'_> {
    // Goes one step.
    #[inline(always)]
    fn go(&self, d: &mut Decoder<'_>) -> Result<bool, DecodeErrorKind>
        ensures { Takes (λ b. b) (decoded true (at_step self.now) d.old) d.old d.new result }
    {
        match self {
            PathElement::Key(key) => d.go_to_key(key),
            PathElement::Index(index) => d.go_to_index(*index),
            PathElement::IndexFromEnd(index) => d.go_to_index_from_end(*index),
        }
    }
}

/// Goes along a path, under a budget that has begun, and says whether it leads to an offset.
#[inline(always)]
pub(crate) fn go_along(d: &mut Decoder<'_>, path: &[PathElement<'_>]) -> Result<bool, RejectedStep>
    requires { IsSome d.old.budget }
    ensures taken { Takes (λ b. b) (decoded false (selected path.now) d.old) d.old d.new result }
    ensures step { IfErr result (λ rejected. rejected.before < length path.now) }
{
    for before in 0..path.len() {
        match path[before].go(d) {
            Ok(true) => {}
            Ok(false) => {
                values_bounded(d);
                return Ok(false);
            }
            Err(fault) => return Err(RejectedStep { fault, before }),
        }
    }
    values_bounded(d);
    Ok(true)
}

impl PathElement<'_> {
    // Whether a value of another type is there than the step goes into.
    fn meets_other_type(&self, d: &Decoder<'_>) -> bool
        ensures { result ≡ meets_at_step self.now d.now }
    {
        match self {
            PathElement::Key(_) => d.is_other_than_map(),
            PathElement::Index(_) | PathElement::IndexFromEnd(_) => d.is_other_than_array(),
        }
    }
}

/// Whether a step of a path meets a value of another type than it goes into.
pub(crate) fn meets_other_type(d: &mut Decoder<'_>, path: &[PathElement<'_>]) -> bool
    ensures { result ≡ spec_meets_other_type path.now d.old }
{
    for before in 0..path.len() {
        if path[before].meets_other_type(d) {
            return true;
        }
        match path[before].go(d) {
            Ok(true) => {}
            Ok(false) | Err(_) => return false,
        }
    }
    false
}

// Charges a container that is not of the type that a step wants: a limit is named before the type.
fn charge_container(alloc: Global, d: &mut Decoder<'_>, kind: Kind) -> Result<(), MaxMindDbError> {
    match kind {
        Kind::Map => {
            let entries = d.begin_map(alloc)?;
            entries.give_up(d);
        }
        Kind::Array => {
            let items = d.begin_array(alloc)?;
            items.give_up(d);
        }
        _ => {}
    }
    Ok(())
}

fn mismatch_text(alloc: Global, step: &PathElement<'_>, found: u16) -> Result<Message, AllocError> {
    let wanted = match step {
        PathElement::Key(_) => "map",
        PathElement::Index(_) | PathElement::IndexFromEnd(_) => "array",
    };
    Message::of_text(
        alloc,
        format!(in alloc; "expected {wanted} for {step:?}, got type {found}")?,
    )
}

// The error of a step by the type of the value at an offset.
fn mismatch(alloc: Global, step: &PathElement<'_>, found: u16, offset: usize) -> MaxMindDbError
    ensures { IsOfOrMemory OfDecoding result }
{
    match mismatch_text(alloc, step, found) {
        Ok(message) => MaxMindDbError::Decoding {
            message,
            offset: Some(offset),
            path: None,
        },
        Err(_) => MaxMindDbError::Memory,
    }
}

impl RejectedStep {
    /// The error of the step, with the path up to it. The decoder is where it failed.
    pub(crate) fn to_error(
        self,
        alloc: Global,
        d: &mut Decoder<'_>,
        path: &[PathElement<'_>],
    ) -> MaxMindDbError
        requires { self.before < length path.now }
    {
        let offset = d.offset();
        let error = match self.fault {
            DecodeErrorKind::Unexpected(_, found) => match charge_container(
                alloc,
                d,
                Kind::of_number(found),
            ) {
                Ok(()) => mismatch(alloc, &path[self.before], found, offset),
                Err(error) => error,
            },
            fault => fault.to_error(alloc, offset),
        };
        with_path(alloc, error, &path[..=self.before])
    }
}

// The text of a path, as an error holds it.
fn path_held(
    alloc: Global,
    path: &[PathElement<'_>],
) -> Result<Option<Box<String>>, MaxMindDbError> {
    Ok(Some(Box::new(alloc, render_path(alloc, path)?)?))
}

/// The error with a path, where it is of the kinds that have one and has none.
pub(crate) fn with_path(
    alloc: Global,
    error: MaxMindDbError,
    path: &[PathElement<'_>],
) -> MaxMindDbError
    ensures { IsOfOrMemory (kind_of error) result }
{
    match error {
        MaxMindDbError::Decoding {
            message,
            offset,
            path: None,
        } => match path_held(alloc, path) {
            Ok(path) => MaxMindDbError::Decoding {
                message,
                offset,
                path,
            },
            Err(_) => MaxMindDbError::Memory,
        },
        MaxMindDbError::ResourceLimit {
            message,
            offset,
            path: None,
        } => match path_held(alloc, path) {
            Ok(path) => MaxMindDbError::ResourceLimit {
                message,
                offset,
                path,
            },
            Err(_) => MaxMindDbError::Memory,
        },
        other => other,
    }
}
