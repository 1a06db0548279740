//! Single steps over pointers, into containers and over contents, of a reader of any value.
ghost use Rattle.std.specs.Prelude.{◌≡◌, ◌<◌, ◌^◌, Some, None, OnOk, OnErr};
ghost use Rattle.mmdb_format.specs.Views.{content_view};
ghost use Rattle.mmdb_decode.specs.Levels.{content_of, entered_pointer, entered_parts};
ghost use Rattle.mmdb_decode.specs.Maps.{raw_key_at};
ghost use Rattle.mmdb_decode.specs.Errors.{Takes, TakesValue};

use super::Decoder;
use super::try_reads::step_of;
use crate::budget::{spent, spent_bytes};
use crate::failed::{Failed, Step};
use crate::steps::Stepping;
use mmdb_format::content::{Content, content_at, content_end};
use mmdb_format::decode_error_kind::DecodeErrorKind;
use mmdb_format::header::{Header, MAX_LEVELS, pointer_at};

impl<'de> Decoder<'de> {
    // What follows the header at the offset.
    #[inline(always)]
    pub(super) fn take_content(&mut self, header: Header) -> Result<Content<'de>, DecodeErrorKind>
        requires { header.size < 2 ^ 25 }
        ensures { TakesValue content_view (content_of header) self.old self.new result }
    {
        let content = content_at(self.section, header)?;
        self.budget = spent_bytes(self.budget, content.payload())?;
        self.offset = content_end(header);
        Ok(content)
    }

    // Goes to a pointer's target.
    #[inline(always)]
    pub(super) fn follow(&mut self, header: Header) -> Result<usize, DecodeErrorKind>
        requires { header.size < 32 }
        ensures { Takes (λ next. next) (entered_pointer self.old header) self.old self.new result }
    {
        if self.levels >= MAX_LEVELS {
            return Err(DecodeErrorKind::TooDeep);
        }
        let pointer = pointer_at(self.section, header.body, header.size as u8)?;
        self.offset = pointer.target;
        self.levels += 1;
        Ok(pointer.next)
    }

    // Goes to a container's first part.
    #[inline(always)]
    pub(super) fn descend(&mut self, header: Header, count: usize) -> Result<(), DecodeErrorKind>
        requires { count < 2 ^ 26 }
        ensures ok { OnOk result (entered_parts self.old header count ≡ Some self.new) }
        ensures err { OnErr result (entered_parts self.old header count ≡ None) }
        ensures same { OnErr result (self.new ≡ self.old) }
    {
        if self.levels >= MAX_LEVELS {
            return Err(DecodeErrorKind::TooDeep);
        }
        self.budget = spent(self.budget, count, 0)?;
        self.offset = header.body;
        self.levels += 1;
        Ok(())
    }

    /// What follows the header at the offset, which is that of a value that holds no others. A text is not tested for
    /// UTF-8.
    #[inline(always)]
    pub fn try_content(&mut self, header: Header) -> Result<Content<'de>, Failed>
        requires { header.size < 2 ^ 25 }
        ensures { TakesValue content_view (content_of header) self.old self.new result }
    {
        match self.take_content(header) {
            Ok(content) => Ok(content),
            Err(_) => Err(self.fail(Step::Value)),
        }
    }

    /// The key at the offset, charged in full and not tested for UTF-8.
    #[inline(always)]
    pub fn try_key(&mut self) -> Result<&'de [u8], Failed>
        ensures { TakesValue (λ x. x.now) raw_key_at self.old self.new result }
    {
        match self.take_key(0) {
            Ok(key) => Ok(key),
            Err(_) => Err(self.fail(Step::Key)),
        }
    }
}

impl<'de> Stepping for Decoder<'de> {
    ghost state = { λ d. d };

    #[inline(always)]
    fn try_header(&mut self) -> Result<Header, Failed> {
        match self.header_here() {
            Ok(header) => Ok(header),
            Err(_) => Err(self.fail(Step::Value)),
        }
    }

    #[inline(always)]
    fn try_follow(&mut self, header: Header) -> Result<usize, Failed> {
        match self.follow(header) {
            Ok(next) => Ok(next),
            Err(fault) => Err(self.fail(step_of(Step::Value, fault))),
        }
    }

    #[inline(always)]
    fn try_descend(&mut self, header: Header, count: usize) -> Result<(), Failed> {
        match self.descend(header, count) {
            Ok(()) => Ok(()),
            Err(fault) => Err(self.fail(step_of(Step::Parts, fault))),
        }
    }

    #[inline(always)]
    fn rise(&mut self) {
        self.levels -= 1;
    }

    #[inline(always)]
    fn rise_to(&mut self, next: usize) {
        self.offset = next;
        self.levels -= 1;
    }
}
