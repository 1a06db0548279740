//! Any value, read whole by steps that keep aside why they fail, so that no large error passes through memory for each
//! value. The decoder stays where it failed, and says why.
ghost use Rattle.std.specs.Prelude.{◌≡◌, ◌<◌, ◌^◌, ◌++◌, ◌∷◌, [], ℕ, List, Bool, true, false, Some, OnOk, OnErr, IfErr, map};
ghost use Rattle.mmdb_format.specs.Header.{header_at};
ghost use Rattle.mmdb_format.specs.Contents.{text as spec_text};
ghost use Rattle.mmdb_format.specs.Unfolding.{Tree, scalar};
ghost use Rattle.mmdb_decode.specs.Arrays.{elements};
ghost use Rattle.mmdb_decode.specs.Errors.{IsRead, Declines, TriesValue};
ghost use Rattle.mmdb_decode.specs.State.{Within, GivenUp, decoded};
ghost use Rattle.mmdb_value.specs.AnyValue.{value_at, key_at, pair_at, scalar_of, array_of as spec_array_of, table_of as spec_table_of};

use mmdb_decode::failed::Failed;
use mmdb_decode::steps::Stepping;
use mmdb_format::header::Header;
use mmdb_format::kind::{ARRAY, MAP, POINTER, TEXT};
use std::alloc::Global;

/// A list or a map takes memory for this many parts at once, and for more of them as they are read: what a file says of
/// its size is not believed before.
const FEW: usize = 16;

/// A decoder that takes texts in the way that `K` names.
pub(crate) trait Source<K>: Stepping {
    type Text: Copy;

    type Value: Drop;

    /// Whether texts are tested for UTF-8.
    ghost tested: { Bool };

    ghost tree: { Self.Value → Tree };

    ghost text_bytes: { Self.Text → List ℕ };

    /// The key at the offset.
    fn key(&mut self) -> Result<Self::Text, Failed>
        ensures { TriesValue text_bytes false (key_at tested)
            (Self.state self.old) (Self.state self.new) result };

    /// The text after a header.
    fn text(&mut self, header: Header) -> Result<Self::Text, Failed>
        requires size { header.size < 2 ^ 25 }
        requires kind { header.kind ≡ 2 }
        ensures { TriesValue (λ x. scalar (spec_text (text_bytes x))) false
            (scalar_of tested header) (Self.state self.old) (Self.state self.new) result };

    /// The value after a header, which holds no others.
    fn scalar(&mut self, header: Header) -> Result<Self::Value, Failed>
        requires { header.size < 2 ^ 25 }
        ensures { TriesValue tree false (scalar_of tested header)
            (Self.state self.old) (Self.state self.new) result };

    fn of_text(text: Self::Text) -> Self::Value
        ensures { tree result ≡ scalar (spec_text (text_bytes text)) };

    fn array(all: Vec<Self::Value>) -> Self::Value
        ensures { tree result ≡ spec_array_of (map tree all.items) };

    fn table(all: Vec<(Self::Text, Self::Value)>) -> Self::Value
        ensures { tree result
            ≡ spec_table_of (map (λ x. (text_bytes x.0, tree x.1)) all.items) };
}

/// Any value.
#[cycle(here)]
#[inline(always)]
pub(crate) fn value_here<K, D: Source<K>>(alloc: Global, d: &mut D) -> Result<D::Value, Failed>
    requires { Within (D.state d.old).budget }
    ensures { TriesValue D.tree false (value_at D.tested) (D.state d.old) (D.state d.new) result }
{
    let header = d.try_header()?;
    value_of::<K, D>(alloc, d, header)
}

// Any value whose header was read.
#[cycle(here)]
#[inline(always)]
fn value_of<K, D: Source<K>>(alloc: Global, d: &mut D, header: Header) -> Result<D::Value, Failed>
    requires within { Within (D.state d.old).budget }
    requires header { header_at (D.state d.old).section (D.state d.old).offset ≡ Some header }
    requires size { (header.size < 2 ^ 25) × (header.kind ≡ 1 → header.size < 32) }
    ensures { TriesValue D.tree false (value_at D.tested) (D.state d.old) (D.state d.new) result }
{
    match header.kind {
        POINTER => target_of::<K, D>(alloc, d, header),
        MAP => table_of::<K, D>(alloc, d, header),
        ARRAY => array_of::<K, D>(alloc, d, header),
        _ => d.scalar(header),
    }
}

// The value that a pointer leads to.
#[cycle(here)]
#[inline(never)]
fn target_of<K, D: Source<K>>(alloc: Global, d: &mut D, header: Header) -> Result<D::Value, Failed>
    requires within { Within (D.state d.old).budget }
    requires header { header_at (D.state d.old).section (D.state d.old).offset ≡ Some header }
    requires kind { header.kind ≡ 1 }
    requires size { header.size < 32 }
    ensures { TriesValue D.tree false (value_at D.tested) (D.state d.old) (D.state d.new) result }
{
    let next = d.try_follow(header)?;
    let value = value_here::<K, D>(alloc, d)?;
    d.rise_to(next);
    Ok(value)
}

#[cycle(here)]
#[inline(never)]
fn array_of<K, D: Source<K>>(alloc: Global, d: &mut D, header: Header) -> Result<D::Value, Failed>
    requires within { Within (D.state d.old).budget }
    requires header { header_at (D.state d.old).section (D.state d.old).offset ≡ Some header }
    requires kind { header.kind ≡ 11 }
    requires size { header.size < 2 ^ 25 }
    ensures { TriesValue D.tree false (value_at D.tested) (D.state d.old) (D.state d.new) result }
{
    d.try_descend(header, header.size)?;
    let all = values_of::<K, D>(alloc, d, header.size)?;
    d.rise();
    Ok(D::array(all))
}

#[cycle(here)]
#[inline(never)]
fn table_of<K, D: Source<K>>(alloc: Global, d: &mut D, header: Header) -> Result<D::Value, Failed>
    requires within { Within (D.state d.old).budget }
    requires header { header_at (D.state d.old).section (D.state d.old).offset ≡ Some header }
    requires kind { header.kind ≡ 7 }
    requires size { header.size < 2 ^ 25 }
    ensures { TriesValue D.tree false (value_at D.tested) (D.state d.old) (D.state d.new) result }
{
    d.try_descend(header, 2 * header.size)?;
    let all = pairs_of::<K, D>(alloc, d, header.size)?;
    d.rise();
    Ok(D::table(all))
}

// The elements of an array.
#[cycle(here)]
fn values_of<K, D: Source<K>>(
    alloc: Global,
    d: &mut D,
    count: usize,
) -> Result<Vec<D::Value>, Failed>
    requires { Within (D.state d.old).budget }
    ensures { TriesValue (λ all. map D.tree all.items) false (elements (value_at D.tested) count)
        (D.state d.old) (D.state d.new) result }
{
    let Ok(mut all) = Vec::with_capacity(alloc, count.min(FEW)) else {
        return Err(Failed::OutOfMemory);
    };
    for _ in 0..count {
        all.push(value_here::<K, D>(alloc, d)?)?;
    }
    Ok(all)
}

// The pairs of a map.
#[cycle(here)]
fn pairs_of<K, D: Source<K>>(
    alloc: Global,
    d: &mut D,
    count: usize,
) -> Result<Vec<(D::Text, D::Value)>, Failed>
    requires { Within (D.state d.old).budget }
    ensures { TriesValue (λ all. map (λ x. (D.text_bytes x.0, D.tree x.1)) all.items) false
        (elements (pair_at D.tested (value_at D.tested)) count)
        (D.state d.old) (D.state d.new) result }
{
    let Ok(mut all) = Vec::with_capacity(alloc, count.min(FEW)) else {
        return Err(Failed::OutOfMemory);
    };
    for _ in 0..count {
        push_pair::<K, D>(alloc, d, &mut all)?;
    }
    Ok(all)
}

// Adds the next pair of a map. Most values are texts, which are put where they stay: they pass through no answer in memory.
#[cycle(here)]
#[inline(always)]
fn push_pair<K, D: Source<K>>(
    alloc: Global,
    d: &mut D,
    all: &mut Vec<(D::Text, D::Value)>,
) -> Result<(), Failed>
    requires { Within (D.state d.old).budget }
    ensures read { OnOk result ((x : D.Text × D.Value) × (all.new.items ≡ all.old.items ++ (x ∷ []))
        × IsRead false (pair_at D.tested (value_at D.tested)) (D.state d.old)
        (D.text_bytes x.0, D.tree x.1) (D.state d.new)) }
    ensures err { IfErr result (λ e. Declines false e
        (decoded false (pair_at D.tested (value_at D.tested)) (D.state d.old))) }
    ensures given_up { OnErr result (GivenUp (D.state d.old) (D.state d.new)) }
{
    let key = d.key()?;
    let header = d.try_header()?;
    if header.kind == TEXT {
        let text = d.text(header)?;
        return Ok(all.push((key, D::of_text(text)))?);
    }
    let value = value_of::<K, D>(alloc, d, header)?;
    Ok(all.push((key, value))?)
}
