//! Any value, read whole, its texts as bytes.
ghost use Rattle.std.specs.Prelude.{◌≡◌, ◌<◌, ◌^◌, true, false, map};
ghost use Rattle.mmdb_format.specs.Contents.{text as spec_text};
ghost use Rattle.mmdb_format.specs.Unfolding.{Tree, scalar as scalar_tree};
ghost use Rattle.mmdb_format.specs.Views.{content_view};
ghost use Rattle.mmdb_decode.specs.Errors.{TriesValue, ReadsValue};
ghost use Rattle.mmdb_decode.specs.State.{Within};
ghost use Rattle.mmdb_value.specs.AnyValue.{value_at, key_at as spec_key_at, scalar_of, array_of, table_of};
ghost use Rattle.mmdb_value.specs.RawValues.{raw_tree};

use crate::read::{Source, value_here};
use mmdb_decode::decoder::Decoder;
use mmdb_decode::failed::Failed;
use mmdb_format::content::{Content, Double, Float};
use mmdb_format::error::DecodeResult;
use mmdb_format::header::Header;
use mmdb_record::decode::Decode;
use std::alloc::Global;

/// Any value, its texts not tested. A map keeps its pairs in file order, repeated keys too.
#[derive(Debug, PartialEq, Eq, Drop)]
pub enum RawValue<'de> {
    String(&'de [u8]),
    Bytes(&'de [u8]),
    Bool(bool),
    I32(i32),
    U16(u16),
    U32(u32),
    U64(u64),
    U128(u128),
    Double(Double),
    Float(Float),
    Array(Vec<RawValue<'de>>),
    Map(Vec<(&'de [u8], RawValue<'de>)>),
}

/// Texts are taken as bytes.
pub(crate) struct Untested;

fn of_content<'de>(content: Content<'de>) -> RawValue<'de>
    ensures { raw_tree result ≡ scalar_tree (content_view content.entry) }
{
    match content {
        Content::Text(bytes) => RawValue::String(bytes),
        Content::Bytes(bytes) => RawValue::Bytes(bytes),
        Content::Bool(b) => RawValue::Bool(b),
        Content::I32(n) => RawValue::I32(n),
        Content::U16(n) => RawValue::U16(n),
        Content::U32(n) => RawValue::U32(n),
        Content::U64(n) => RawValue::U64(n),
        Content::U128(n) => RawValue::U128(n),
        Content::Double(x) => RawValue::Double(x),
        Content::Float(x) => RawValue::Float(x),
    }
}

// A map's key.
fn key_at<'de>(d: &mut Decoder<'de>) -> Result<&'de [u8], Failed>
    ensures { TriesValue (λ x. x.now) false (spec_key_at false) d.old d.new result }
{
    let bytes = d.try_key()?;
    Ok(bytes)
}

// The text after a header.
fn text_at<'de>(d: &mut Decoder<'de>, header: Header) -> Result<&'de [u8], Failed>
    requires size { header.size < 2 ^ 25 }
    requires kind { header.kind ≡ 2 }
    ensures { TriesValue (λ x. scalar_tree (spec_text x.now)) false (scalar_of false header)
        d.old d.new result }
{
    let Content::Text(bytes) = d.try_content(header)? else {
        unreachable!();
    };
    Ok(bytes)
}

// A value that holds no others.
fn scalar_at<'de>(d: &mut Decoder<'de>, header: Header) -> Result<RawValue<'de>, Failed>
    requires { header.size < 2 ^ 25 }
    ensures { TriesValue raw_tree false (scalar_of false header) d.old d.new result }
{
    let content = d.try_content(header)?;
    Ok(of_content(content))
}

impl<'de> Source<Untested> for Decoder<'de> {
    type Text = &'de [u8];

    type Value = RawValue<'de>;

    ghost tested = { false };

    ghost tree = { raw_tree };

    ghost text_bytes = { λ x. x.now };

    fn key(&mut self) -> Result<&'de [u8], Failed> {
        key_at(self)
    }

    fn text(&mut self, header: Header) -> Result<&'de [u8], Failed> {
        text_at(self, header)
    }

    fn scalar(&mut self, header: Header) -> Result<RawValue<'de>, Failed> {
        scalar_at(self, header)
    }

    fn of_text(text: &'de [u8]) -> RawValue<'de>
        ensures { raw_tree result ≡ scalar_tree (spec_text text.now) }
    {
        RawValue::String(text)
    }

    fn array(all: Vec<RawValue<'de>>) -> RawValue<'de>
        ensures { raw_tree result ≡ array_of (map raw_tree all.entry.items) }
    {
        RawValue::Array(all)
    }

    fn table(all: Vec<(&'de [u8], RawValue<'de>)>) -> RawValue<'de>
        ensures { raw_tree result
            ≡ table_of (map (λ x. (x.0.now, raw_tree x.1)) all.entry.items) }
    {
        RawValue::Map(all)
    }
}

// Any value, under a budget. The decoder stays where it failed, and says why.
fn read_value<'de>(alloc: Global, d: &mut Decoder<'de>) -> DecodeResult<RawValue<'de>>
    requires { Within d.old.budget }
    ensures { ReadsValue raw_tree false (value_at false) d.old d.new result }
{
    match value_here::<Untested, Decoder<'de>>(alloc, d) {
        Ok(value) => Ok(value),
        Err(failed) => Err(d.error_of(alloc, failed)),
    }
}

impl<'de> Decode<'de> for RawValue<'de> {
    ghost Datum = { Tree };

    ghost datum = { raw_tree };

    ghost meaning = { value_at false };

    ghost starts = { true };

    ghost free = { false };

    fn decode(alloc: Global, d: &mut Decoder<'de>) -> DecodeResult<RawValue<'de>> {
        d.begin_budget();
        read_value(alloc, d)
    }
}
