//! Single steps of a reader that follows pointers of any length, as that of any value does. Typed reads
//! and records need none of them. Why a step fails is kept aside.
ghost use Rattle.std.specs.Prelude.{◌≡◌, ◌<◌, ◌^◌, ◌-◌, Some, None, IfOk, IfErr, OnOk, OnErr};
ghost use Rattle.std.specs.Result.{result_ok};
ghost use Rattle.mmdb_format.specs.Header.{header_at};
ghost use Rattle.mmdb_decode.specs.State.{State, GivenUp};
ghost use Rattle.mmdb_decode.specs.Levels.{entered_pointer, entered_parts};
ghost use Rattle.mmdb_decode.specs.Errors.{Takes};
ghost use Rattle.mmdb_decode.specs.declared.failed.Failed.TheVariants.{Unreadable};

use crate::failed::Failed;
use mmdb_format::header::Header;

/// The steps that a decoder takes over pointers and into containers.
pub trait Stepping: Sized {
    ghost state: { Self → State };

    /// The header at the offset.
    fn try_header(&mut self) -> Result<Header, Failed>
        ensures value { result_ok result
            ≡ header_at (state self.old).section (state self.old).offset }
        ensures bound { IfOk result (λ h. (h.size < 2 ^ 25) × (h.kind ≡ 1 → h.size < 32)) }
        ensures err { IfErr result (λ e. e ≡ Unreadable) }
        ensures same { state self.new ≡ state self.old };

    /// Goes to the target of the pointer whose header is at the offset, one level down, and says the
    /// offset after the pointer.
    fn try_follow(&mut self, header: Header) -> Result<usize, Failed>
        requires { header.size < 32 }
        ensures { Takes (λ next. next) (entered_pointer (state self.old) header)
            (state self.old) (state self.new) result };

    /// Goes to the first part of the container whose header is at the offset, one level down, and
    /// charges that many values.
    fn try_descend(&mut self, header: Header, count: usize) -> Result<(), Failed>
        requires { count < 2 ^ 26 }
        ensures ok { OnOk result
            (entered_parts (state self.old) header count ≡ Some (state self.new)) }
        ensures err { OnErr result (entered_parts (state self.old) header count ≡ None) }
        ensures given_up { OnErr result (GivenUp (state self.old) (state self.new)) };

    /// Goes one level up.
    fn rise(&mut self)
        requires { 0 < (state self.old).levels }
        ensures { state self.new
            ≡ record (state self.old) { levels = (state self.old).levels - 1 } };

    /// Goes one level up, to the offset after a pointer.
    fn rise_to(&mut self, next: usize)
        requires { 0 < (state self.old).levels }
        ensures { state self.new
            ≡ record (state self.old) { offset = next; levels = (state self.old).levels - 1 } };
}
