//! Values that are put into a section.
use mmdb_format::content::{Double, Float};

/// A number, or a truth value: it is in its place.
#[derive(Clone, Copy, Debug, PartialEq, Eq)]
pub enum Number {
    Bool(bool),
    I32(i32),
    U16(u16),
    U32(u32),
    U64(u64),
    U128(u128),
    Double(Double),
    Float(Float),
}

/// A part of a value: a number, or the offset of a value that is in the section already.
#[derive(Clone, Copy, Debug, PartialEq, Eq)]
pub enum SectionPart {
    Number(Number),
    At(u32),
}

/// A value, the parts of which are in the section already. A map has pairs of a key and a value.
#[derive(Clone, Copy)]
pub enum WrittenValue<'a> {
    Text(&'a str),
    Bytes(&'a [u8]),
    Number(Number),
    Array(&'a [SectionPart]),
    Map(&'a [(SectionPart, SectionPart)]),
}

impl WrittenValue<'_> {
    ghost use Rattle.std.specs.Prelude.{◌≡◌};
    ghost use Rattle.mmdb_section.specs.Sections.{size_of};

    // How many bytes, parts or pairs it has.
    pub(crate) fn size(&self) -> usize
        ensures { result ≡ size_of self.now }
    {
        match self {
            WrittenValue::Text(text) => text.len(),
            WrittenValue::Bytes(bytes) => bytes.len(),
            WrittenValue::Number(_) => 0,
            WrittenValue::Array(parts) => parts.len(),
            WrittenValue::Map(pairs) => pairs.len(),
        }
    }
}
