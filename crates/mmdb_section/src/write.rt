//! Values as bytes.
ghost use Rattle.std.specs.Prelude.{◌≡◌, ◌≤◌, ◌++◌, length, OnOk};
ghost use Rattle.mmdb_section.specs.Bytes.{part_bytes, parts_bytes, pairs_bytes, shape_bytes};
ghost use Rattle.mmdb_section.specs.Sections.{most_size, size_of, shape_of, elements, entries};
ghost use Rattle.mmdb_section.specs.Working.{Appends, WritesPart, WritesParts, WritesPairs, WritesArray, WritesMap, WritesValue};

use crate::header::push_header;
use crate::pointer::push_pointer;
use crate::scalar::{push_bytes, push_number, push_text};
use crate::value::{SectionPart, WrittenValue};
use mmdb_format::kind::{ARRAY, MAP};
use std::alloc::AllocError;

// A part: a number, or a pointer to a value.
fn push_part(out: &mut Vec<u8>, part: SectionPart) -> Result<(), AllocError>
    ensures says { OnOk result (Appends (WritesPart part) out.old.items out.new.items) }
    ensures bytes { OnOk result (out.new.items ≡ out.old.items ++ part_bytes part) }
{
    match part {
        SectionPart::Number(number) => push_number(out, number),
        SectionPart::At(offset) => push_pointer(out, offset),
    }
}

// The elements of an array.
fn push_parts(out: &mut Vec<u8>, parts: &[SectionPart]) -> Result<(), AllocError>
    ensures says { OnOk result (Appends (WritesParts parts.now) out.old.items out.new.items) }
    ensures bytes { OnOk result (out.new.items ≡ out.old.items ++ parts_bytes parts.now) }
{
    for part in parts {
        push_part(out, *part)?;
    }
    Ok(())
}

// The pairs of a map.
fn push_pairs(out: &mut Vec<u8>, pairs: &[(SectionPart, SectionPart)]) -> Result<(), AllocError>
    ensures says { OnOk result (Appends (WritesPairs pairs.now) out.old.items out.new.items) }
    ensures bytes { OnOk result (out.new.items ≡ out.old.items ++ pairs_bytes pairs.now) }
{
    for (key, value) in pairs {
        push_part(out, *key)?;
        push_part(out, *value)?;
    }
    Ok(())
}

fn push_array(out: &mut Vec<u8>, parts: &[SectionPart]) -> Result<(), AllocError>
    requires { length parts.now ≤ most_size }
    ensures says { OnOk result (Appends (WritesArray parts.now) out.old.items out.new.items) }
    ensures bytes { let shape = elements parts.now in
        OnOk result (out.new.items ≡ out.old.items ++ shape_bytes shape) }
{
    push_header(out, ARRAY, parts.len())?;
    push_parts(out, parts)
}

fn push_map(out: &mut Vec<u8>, pairs: &[(SectionPart, SectionPart)]) -> Result<(), AllocError>
    requires { length pairs.now ≤ most_size }
    ensures says { OnOk result (Appends (WritesMap pairs.now) out.old.items out.new.items) }
    ensures bytes { let shape = entries pairs.now in
        OnOk result (out.new.items ≡ out.old.items ++ shape_bytes shape) }
{
    push_header(out, MAP, pairs.len())?;
    push_pairs(out, pairs)
}

// A value, which begins with no pointer.
pub(crate) fn push_value(out: &mut Vec<u8>, value: WrittenValue<'_>) -> Result<(), AllocError>
    requires { size_of value ≤ most_size }
    ensures says { OnOk result (Appends (WritesValue value.entry) out.old.items out.new.items) }
    ensures bytes { let shape = shape_of value.entry in
        OnOk result (out.new.items ≡ out.old.items ++ shape_bytes shape) }
{
    match value {
        WrittenValue::Text(text) => push_text(out, text),
        WrittenValue::Bytes(bytes) => push_bytes(out, bytes),
        WrittenValue::Number(number) => push_number(out, number),
        WrittenValue::Array(parts) => push_array(out, parts),
        WrittenValue::Map(pairs) => push_map(out, pairs),
    }
}
