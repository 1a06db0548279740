//! Parts of a record that are at one offset: such a part is read once. Writers of files keep equal maps once, so that
//! the country of an address and the country that its network is registered in are mostly one map.
ghost use Rattle.std.specs.Prelude.{◌≡◌, true, false, Some, OnOk, IsSome};
ghost use Rattle.mmdb_decode.specs.State.{decoded};
ghost use Rattle.mmdb_record.specs.Memos.{IsPlaceOf};
ghost use Rattle.mmdb_record.specs.Tables.{data_of, record_of};
ghost use Rattle.mmdb_record.specs.TableReads.{TakesPart};

use crate::fields::{Fields, read_part_into};
use mmdb_decode::decoder::Decoder;
use mmdb_decode::detours::{again, forget_map, go_to, spend};
use mmdb_decode::failed::Failed;
use std::alloc::Global;

/// Where the pairs of a record are, `count` of them: the decoders before them and after them.
#[derive(Drop)]
pub struct Place<'de> {
    pub(crate) before: Decoder<'de>,
    pub(crate) count: usize,
    pub(crate) behind: Decoder<'de>,
}

/// Reads a part as `read_part` does, and notes where its pairs are.
#[inline(never)]
pub fn read_part_noting<'de, R: Fields<'de>>(
    alloc: Global,
    d: &mut Decoder<'de>,
    name: &'de [u8],
    met: &mut bool,
    part: &mut R,
    place: &mut Option<Place<'de>>,
) -> Result<(), Failed>
    requires { IsSome d.old.budget }
    ensures read { TakesPart R.free (record_of R.table) (met.old, data_of R.table part.old)
        (met.new, data_of R.table part.new) d.old d.new result }
    ensures noted { OnOk result (IsPlaceOf R.table place.new part.new d.old.section) }
{
    read_part_into::<R, true>(alloc, d, name, met, part, place)
}

// Goes past a map whose pairs are where those of a known record are, and says whether it did.
#[inline(always)]
fn reuse<'de, R: Fields<'de>>(d: &mut Decoder<'de>, known: &R, place: &Option<Place<'de>>) -> bool
    requires { IsPlaceOf R.table place.now known.now d.old.section }
    ensures ok { result ≡ true → decoded true (record_of R.table) d.old
        ≡ Some (data_of R.table known.now, d.new) }
    ensures same { result ≡ false → d.new ≡ d.old }
{
    let Some(place) = place else {
        return false;
    };
    let mut here = again(d);
    let Ok(mut entries) = here.try_map() else {
        return false;
    };
    if place.count != entries.left() || !here.repeat(&place.before, &place.behind) {
        forget_map(entries);
        return false;
    }
    spend(&mut entries);
    here.end_map(entries);
    go_to(d, &here);
    true
}

/// Reads a part as `read_part` does, or takes a known one whose pairs are the same. Both ways read by one function.
#[inline(always)]
pub fn read_part_or_reuse<'de, R: Fields<'de> + Copy>(
    alloc: Global,
    d: &mut Decoder<'de>,
    name: &'de [u8],
    met: &mut bool,
    part: &mut R,
    known: &R,
    place: &Option<Place<'de>>,
) -> Result<(), Failed>
    requires started { IsSome d.old.budget }
    requires noted { IsPlaceOf R.table place.now known.now d.old.section }
    ensures { TakesPart R.free (record_of R.table) (met.old, data_of R.table part.old)
        (met.new, data_of R.table part.new) d.old d.new result }
{
    if !*met && reuse(d, known, place) {
        *part = *known;
        *met = true;
        return Ok(());
    }
    read_part_noting(alloc, d, name, met, part, &mut None)
}
