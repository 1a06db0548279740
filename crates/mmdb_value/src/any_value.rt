//! Any value, read whole.
ghost use Rattle.std.specs.Prelude.{◌≡◌, ◌<◌, ◌^◌, true, false, map, option_map};
ghost use Rattle.mmdb_format.specs.Contents.{text as spec_text};
ghost use Rattle.mmdb_format.specs.Unfolding.{Tree, scalar as scalar_tree};
ghost use Rattle.mmdb_format.specs.Views.{content_view};
ghost use Rattle.mmdb_decode.specs.Errors.{TriesValue, ReadsValue};
ghost use Rattle.mmdb_decode.specs.State.{Within};
ghost use Rattle.mmdb_value.specs.AnyValue.{value_at, key_at as spec_key_at, scalar_of, if_scalar_text, array_of, table_of};
ghost use Rattle.mmdb_value.specs.Values.{value_tree};

use crate::read::{Source, value_here};
use mmdb_decode::decoder::Decoder;
use mmdb_decode::direct::text_of;
use mmdb_decode::failed::Failed;
use mmdb_format::content::{Content, Double, Float};
use mmdb_format::error::DecodeResult;
use mmdb_format::header::Header;
use mmdb_record::decode::Decode;
use std::alloc::Global;

/// Any value. A map keeps its pairs in file order, repeated keys too. Texts and bytes are borrowed from the file.
///
///     let value: Option<Value<'_>> = found.decode(rt.alloc())?;
///     println!(rt; "{address} is in {}: {value:?}", found.network()?)?;
#[derive(Debug, PartialEq, Eq, Drop)]
pub enum Value<'de> {
    String(&'de str),
    Bytes(&'de [u8]),
    Bool(bool),
    I32(i32),
    U16(u16),
    U32(u32),
    U64(u64),
    U128(u128),
    Double(Double),
    Float(Float),
    Array(Vec<Value<'de>>),
    Map(Vec<(&'de str, Value<'de>)>),
}

/// Texts are tested for UTF-8.
pub(crate) struct Tested;

// The value of a content, if that is no text of other bytes than UTF-8.
#[inline(always)]
fn of_content<'de>(content: Content<'de>) -> Option<Value<'de>>
    ensures { option_map value_tree result
        ≡ option_map scalar_tree (if_scalar_text true (content_view content.entry)) }
{
    Some(match content {
        Content::Text(bytes) => Value::String(text_of(bytes).ok()?),
        Content::Bytes(bytes) => Value::Bytes(bytes),
        Content::Bool(b) => Value::Bool(b),
        Content::I32(n) => Value::I32(n),
        Content::U16(n) => Value::U16(n),
        Content::U32(n) => Value::U32(n),
        Content::U64(n) => Value::U64(n),
        Content::U128(n) => Value::U128(n),
        Content::Double(x) => Value::Double(x),
        Content::Float(x) => Value::Float(x),
    })
}

// A map's key.
#[inline(always)]
fn key_at<'de>(d: &mut Decoder<'de>) -> Result<&'de str, Failed>
    ensures { TriesValue (λ x. x.now) false (spec_key_at true) d.old d.new result }
{
    let bytes = d.try_key()?;
    match text_of(bytes) {
        Ok(text) => Ok(text),
        Err(_) => Err(d.fail_text()),
    }
}

// The text after a header.
#[inline(always)]
fn text_at<'de>(d: &mut Decoder<'de>, header: Header) -> Result<&'de str, Failed>
    requires size { header.size < 2 ^ 25 }
    requires kind { header.kind ≡ 2 }
    ensures { TriesValue (λ x. scalar_tree (spec_text x.now)) false (scalar_of true header)
        d.old d.new result }
{
    let Content::Text(bytes) = d.try_content(header)? else {
        unreachable!();
    };
    match text_of(bytes) {
        Ok(text) => Ok(text),
        Err(_) => Err(d.fail_text()),
    }
}

// A value that holds no others.
#[inline(always)]
fn scalar_at<'de>(d: &mut Decoder<'de>, header: Header) -> Result<Value<'de>, Failed>
    requires { header.size < 2 ^ 25 }
    ensures { TriesValue value_tree false (scalar_of true header) d.old d.new result }
{
    let content = d.try_content(header)?;
    match of_content(content) {
        Some(value) => Ok(value),
        None => Err(d.fail_text()),
    }
}

impl<'de> Source<Tested> for Decoder<'de> {
    type Text = &'de str;

    type Value = Value<'de>;

    ghost tested = { true };

    ghost tree = { value_tree };

    ghost text_bytes = { λ x. x.now };

    #[inline(always)]
    fn key(&mut self) -> Result<&'de str, Failed> {
        key_at(self)
    }

    #[inline(always)]
    fn text(&mut self, header: Header) -> Result<&'de str, Failed> {
        text_at(self, header)
    }

    #[inline(always)]
    fn scalar(&mut self, header: Header) -> Result<Value<'de>, Failed> {
        scalar_at(self, header)
    }

    #[inline(always)]
    fn of_text(text: &'de str) -> Value<'de>
        ensures { value_tree result ≡ scalar_tree (spec_text text.now) }
    {
        Value::String(text)
    }

    #[inline(always)]
    fn array(all: Vec<Value<'de>>) -> Value<'de>
        ensures { value_tree result ≡ array_of (map value_tree all.entry.items) }
    {
        Value::Array(all)
    }

    #[inline(always)]
    fn table(all: Vec<(&'de str, Value<'de>)>) -> Value<'de>
        ensures { value_tree result
            ≡ table_of (map (λ x. (x.0.now, value_tree x.1)) all.entry.items) }
    {
        Value::Map(all)
    }
}

// Any value, under a budget. The decoder stays where it failed, and says why.
fn read_value<'de>(alloc: Global, d: &mut Decoder<'de>) -> DecodeResult<Value<'de>>
    requires { Within d.old.budget }
    ensures { ReadsValue value_tree false (value_at true) d.old d.new result }
{
    match value_here::<Tested, Decoder<'de>>(alloc, d) {
        Ok(value) => Ok(value),
        Err(failed) => Err(d.error_of(alloc, failed)),
    }
}

impl<'de> Decode<'de> for Value<'de> {
    ghost Datum = { Tree };

    ghost datum = { value_tree };

    ghost meaning = { value_at true };

    ghost starts = { true };

    ghost free = { false };

    fn decode(alloc: Global, d: &mut Decoder<'de>) -> DecodeResult<Value<'de>> {
        d.begin_budget();
        read_value(alloc, d)
    }
}
