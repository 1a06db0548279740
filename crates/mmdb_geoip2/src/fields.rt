//! What the fields of records share.
ghost use Rattle.std.specs.Prelude.{true, false, IfOk, IfErr, OnOk, OnErr, IsSome, map};
ghost use Rattle.mmdb_decode.specs.Arrays.{few_at};
ghost use Rattle.mmdb_decode.specs.State.{decoded, GivenUp};
ghost use Rattle.mmdb_decode.specs.Errors.{IsRead, Declines, Kept};
ghost use Rattle.mmdb_record.specs.TableReads.{TakesPart};
ghost use Rattle.mmdb_geoip2.specs.Working.{FailsEarly};

use mmdb_decode::decoder::Decoder;
use mmdb_decode::detours::forget_array;
use mmdb_decode::failed::Failed;
use mmdb_record::try_decode::{TryDecode, try_items};
use std::alloc::Global;

// Reads the value after a name: a row for each field. What no row names is skipped by the last.
macro_rules! fields_by_name {
    ($alloc:expr, $name:expr, $d:expr; $($text:literal => $read:ident($($slot:expr),+),)+ _ => $skip:ident() $(,)?) => {{
        $(if named($name, $text) {
            return $read($alloc, $d, $name, $($slot),+);
        })+
        $d.$skip()
    }};
}

pub(crate) use fields_by_name;

/// The most subdivisions that a record may have.
pub const MAX_SUBDIVISIONS: usize = 32;

// Reads a list of at most 32. A longer one is rejected before an element is read, unless at most 32 bytes
// are left, and never handed out.
fn read_few<'de, T: TryDecode<'de>>(alloc: Global, d: &mut Decoder<'de>) -> Result<Vec<T>, Failed>
    ensures ok { IfOk result (λ v.
        IsRead true (few_at 32 T.meaning) d.old (map T.datum v.items) d.new) }
    ensures kept { OnOk result (Kept d.old d.new) }
    ensures err { IfErr result (λ e. Declines false e (decoded true (few_at 32 T.meaning) d.old)) }
    ensures given_up { OnErr result (GivenUp d.old d.new) }
    ensures early { FailsEarly 32 d.old d.new result }
{
    let mut items = d.try_array()?;
    let declared = d.remaining(&items);
    if d.hint(&items) > MAX_SUBDIVISIONS {
        forget_array(items);
        return Err(d.fail_list());
    }
    match try_items(alloc, d, &mut items) {
        Ok(list) => {
            d.end_array(items);
            if declared > MAX_SUBDIVISIONS {
                return Err(d.fail_list());
            }
            Ok(list)
        }
        Err(e) => {
            forget_array(items);
            Err(e)
        }
    }
}

/// Reads a list of at most 32 that comes at most once.
pub fn read_few_once<'de, T: TryDecode<'de>>(
    alloc: Global,
    d: &mut Decoder<'de>,
    name: &'de [u8],
    met: &mut bool,
    list: &mut Vec<T>,
) -> Result<(), Failed>
    requires { IsSome d.old.budget }
    ensures { TakesPart false (few_at 32 T.meaning) (met.old, map T.datum list.old.items)
        (met.new, map T.datum list.new.items) d.old d.new result }
{
    if *met {
        return Err(d.fail_repeated(name));
    }
    *list = read_few(alloc, d)?;
    *met = true;
    Ok(())
}
