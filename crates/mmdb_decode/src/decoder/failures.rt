//! Errors: the step is kept aside, and taken once more where the error is wanted.
ghost use Rattle.std.specs.Prelude.{◌≡◌};
ghost use Rattle.mmdb_format.specs.declared.error.MaxMindDbError.TheVariants.{Memory};
ghost use Rattle.mmdb_decode.specs.declared.failed.Failed.TheVariants.{OutOfMemory, Unreadable};

use super::Decoder;
use super::keys::FREE_NAME;
use super::skipping::MAX_NESTED;
use crate::budget::{begun, spent};
use crate::direct::container_at;
use crate::failed::{Failed, Step};
use crate::names::duplicate_field;
use mmdb_format::decode_error_kind::DecodeErrorKind;
use mmdb_format::error::MaxMindDbError;
use mmdb_format::kind::{ARRAY, DOUBLE, MAP, POINTER, U16, U32};
use mmdb_format::message::{Message, Text};
use std::alloc::Global;

impl<'de> Decoder<'de> {
    // Fails at a step.
    #[inline(always)]
    pub(super) fn fail(&mut self, step: Step) -> Failed
        ensures unreadable { result ≡ Unreadable }
        ensures same { self.new ≡ self.old }
    {
        self.step = step;
        Failed::Unreadable
    }

    /// Fails at the value of a field that comes a second time.
    #[inline(always)]
    pub fn fail_repeated(&mut self, name: &'de [u8]) -> Failed
        ensures unreadable { result ≡ Unreadable }
        ensures same { self.new ≡ self.old }
    {
        self.step = Step::Repeated;
        self.repeated = name;
        Failed::Unreadable
    }

    /// Fails at a list that has more elements than are allowed.
    pub fn fail_list(&mut self) -> Failed
        ensures unreadable { result ≡ Unreadable }
        ensures same { self.new ≡ self.old }
    {
        self.fail(Step::List)
    }

    /// Fails at a text that was read, whose bytes are not UTF-8.
    pub fn fail_text(&mut self) -> Failed
        ensures unreadable { result ≡ Unreadable }
        ensures same { self.new ≡ self.old }
    {
        self.fail(Step::Encoding)
    }

    /// The error of a reading that failed.
    #[cold]
    #[inline(never)]
    pub fn error_of(&self, alloc: Global, rejected: Failed) -> MaxMindDbError
        ensures { rejected ≡ OutOfMemory → result ≡ Memory }
    {
        match rejected {
            Failed::OutOfMemory => MaxMindDbError::Memory,
            Failed::Unreadable => self.error_here(alloc),
        }
    }

    // The error of the step that failed.
    fn error_here(&self, alloc: Global) -> MaxMindDbError {
        match self.step {
            Step::Repeated => {
                let name = std::str::from_utf8(self.repeated).unwrap_or_default();
                duplicate_field(alloc, name, self.offset)
            }
            Step::List => {
                MaxMindDbError::Decoding {
                    message: Message::Fixed(Text::TooManySubdivisions),
                    offset: Some(self.offset),
                    path: None,
                }
            }
            step => {
                let fault = self.fault_of(step).unwrap_or(DecodeErrorKind::EndOfBuffer);
                fault.to_error(alloc, self.offset)
            }
        }
    }

    // What is wrong with the value that a step was to read.
    fn fault_of(&self, step: Step) -> Option<DecodeErrorKind> {
        let mut here = self.again();
        match step {
            Step::Name => here.take_key(FREE_NAME).err(),
            Step::Map => self.fault_of_map(),
            Step::Array => self.fault_of_array(),
            Step::U16 => here.take_number(U16, 2).err(),
            Step::U32 => here.take_number(U32, 4).err(),
            Step::Bool => here.take_bool().err(),
            Step::Double => here.take_bits(DOUBLE, 8).err(),
            Step::Text => here.take_text().err(),
            Step::Whole => here.take_whole().err(),
            Step::Skip => here.pass(MAX_NESTED).err(),
            Step::Range => Some(DecodeErrorKind::OutOfRange),
            Step::Encoding => Some(DecodeErrorKind::InvalidUtf8),
            Step::Nested => Some(DecodeErrorKind::TooDeep),
            Step::Key => here.take_key(0).err(),
            Step::Value => self.fault_of_value(),
            Step::Parts => Some(DecodeErrorKind::TooManyValues),
            Step::Repeated | Step::List => None,
        }
    }

    // What is wrong with the value at the offset, whose type is any.
    fn fault_of_value(&self) -> Option<DecodeErrorKind> {
        let mut here = self.again();
        match self.header_here() {
            Ok(header) if header.kind == POINTER => here.follow(header).err(),
            Ok(header) => here.take_content(header).err(),
            Err(fault) => Some(fault),
        }
    }

    // What is wrong with the map at the offset.
    fn fault_of_map(&self) -> Option<DecodeErrorKind> {
        match container_at(self.section, self.offset, self.levels, MAP) {
            Ok(at) => spent(begun(self.budget), 2 * at.count, 0).err(),
            Err(fault) => Some(fault),
        }
    }

    // What is wrong with the array at the offset.
    fn fault_of_array(&self) -> Option<DecodeErrorKind> {
        match container_at(self.section, self.offset, self.levels, ARRAY) {
            Ok(at) => spent(begun(self.budget), at.count, 0).err(),
            Err(fault) => Some(fault),
        }
    }
}
