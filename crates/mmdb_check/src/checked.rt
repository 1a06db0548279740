//! A check with a memory.
ghost use Rattle.std.specs.Prelude.{◌≡◌, ◌↔◌, ℕ, ◌-◌, ◌*◌, length, IfOk, IfErr, OnOk, OnErr, IsOk, map, leb, true, false};
ghost use Rattle.mmdb_format.specs.Error.{OfInput, OfMemory, kind_of, FailsAs};
ghost use Rattle.mmdb_check.specs.Checking.{Seen, IsAllowed, CanAdd, CanAddAll, Added, Costs};
ghost use Rattle.mmdb_offsets.specs.OffsetSet.{holds, offsets_of};
ghost use Rattle.mmdb_check.specs.Halting.{IsHalted};
ghost use Rattle.mmdb_check.specs.Memory.{Ready};

use crate::work::{Failure, UNSEEN, Work};
use mmdb_format::decode_error_kind::DecodeErrorKind;
use mmdb_format::error::MaxMindDbError;
use mmdb_format::message::{Message, Text};
use mmdb_offsets::OffsetSet;
use std::alloc::Global;
use std::marker::Model;

/// A section of a file, and the offsets in it that were found good.
///
/// An offset is good whose value is a finite tree of valid texts, at most 128 containers and pointers deep, and
/// whose pointers lead to good offsets alone. Each good offset costs its own values: one for each value and
/// pointer that is there under no pointer, and one for each byte of a text among them. Together they may cost eight
/// times the section's length.
#[derive(Drop)]
pub struct Checked<'s> {
    work: Work<'s>,
    failed: bool,
}

impl<'s> Model for Checked<'s> {
    ghost Value = { Seen };

    ghost view = { λ c. record {
      section = c.work.section.now;
      good = map (leb 2) c.work.marks.items;
      charged = 8 * length c.work.section.now - c.work.left;
      failed = c.failed;
    } };

    ghost invariant = { λ c. c.failed ≡ false
        → Ready c.work.section.now c.work.marks.items c.work.left };
}

impl<'s> Checked<'s> {
    /// A check of this section, no offset of which is good yet. It takes a byte of memory for each byte of the
    /// section, and fails, as `Memory`, only where there is none.
    pub fn new(alloc: Global, section: &'s [u8]) -> Result<Checked<'s>, MaxMindDbError>
        ensures section { IfOk result (λ c. c.section ≡ section.now) }
        ensures none { IfOk result (λ c. (q : ℕ) → holds c.good q ≡ false) }
        ensures charged { IfOk result (λ c. c.charged ≡ 0) }
        ensures going { IfOk result (λ c. c.failed ≡ false) }
        ensures memory { IfErr result (λ e. kind_of e ≡ OfMemory) }
    {
        let marks = vec![in alloc; UNSEEN; section.len()]?;
        let left = 8 * section.len() as u128;
        Ok(Checked {
            work: Work {
                section,
                marks,
                left,
                failure: Failure {
                    fault: DecodeErrorKind::EndOfBuffer,
                    offset: 0,
                },
            },
            failed: false,
        })
    }
}

/// Checks the value at an offset, and all that it leads to: keys may be of any type, and pointers may lead to
/// pointers.
///
/// It succeeds, whatever memory there is, exactly where no check failed before, the value can be found
/// good, and the good offsets that would result keep the allowance. Rejected are, as `InvalidDatabase`, a value
/// that can't be read, a text that is not UTF-8, a pointer to an offset under check and more than 128 levels; as
/// `ResourceLimit` more work than is allowed; as `InvalidInput`, and nothing else is, every check after a
/// error. `Memory` takes the place of an error whose text finds none. Offsets count from the section's start.
pub fn check_value(alloc: Global, c: &mut Checked, offset: usize) -> Result<(), MaxMindDbError>
    ensures section { c.new.section ≡ c.old.section }
    ensures exact { IsOk result
        ↔ ((c.old.failed ≡ false) × CanAdd c.old.section (holds c.old.good) offset) }
    ensures ok { OnOk result (Added c.old.section (holds c.old.good) (holds c.new.good) offset) }
    ensures charged { OnOk result (Costs c.new.section (holds c.new.good) c.new.charged) }
    ensures going { OnOk result (c.new.failed ≡ false) }
    ensures err { OnErr result (c.new.failed ≡ true) }
    ensures halted { OnErr result (c.old.failed ≡ false
        → IsHalted c.new.section (holds c.new.good) offset c.new.charged) }
    ensures after_err { FailsAs OfInput result ↔ (c.old.failed ≡ true) }
{
    if c.failed {
        return Err(already_failed());
    }
    c.failed = true;
    match c.work.target(offset, 0) {
        Ok(_) => {
            c.failed = false;
            Ok(())
        }
        Err(_) => {
            let failure = c.work.failure;
            Err(failure.fault.to_error(alloc, failure.offset))
        }
    }
}

// The error of a check after one that failed.
fn already_failed() -> MaxMindDbError
    ensures { kind_of result ≡ OfInput }
{
    MaxMindDbError::InvalidInput {
        message: Message::Fixed(Text::AlreadyFailed),
    }
}

impl Checked<'_> {
    // Whether no check failed. Then the good offsets keep the allowance.
    fn verdict(&self) -> Result<(), MaxMindDbError>
        ensures going { IsOk result ↔ (self.now.failed ≡ false) }
        ensures allowed { OnOk result (IsAllowed self.now.section (holds self.now.good)) }
    {
        if self.failed {
            Err(already_failed())
        } else {
            Ok(())
        }
    }
}

/// Checks the values at the offsets of a set, ascending, with one memory of good offsets. It fails as the
/// first `check_value` that is.
pub fn check_offsets(
    alloc: Global,
    c: &mut Checked,
    offsets: &OffsetSet,
) -> Result<(), MaxMindDbError>
    requires { c.old.failed ≡ false }
    ensures { IsOk result ↔ CanAddAll c.old.section (holds c.old.good) (offsets_of offsets.now) }
{
    let mut next = 0;
    while let Some(offset) = offsets.next_from(next) {
        check_value(alloc, c, offset)?;
        next = offset + 1;
    }
    c.verdict()
}
