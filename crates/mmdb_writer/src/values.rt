//! Values that are put into a data section.
ghost use Rattle.std.specs.Prelude.{◌≡◌, ◌≤◌, ◌^◌, IfOk, IfErr, OnErr, length};
ghost use Rattle.mmdb_section.specs.declared.value.SectionPart.TheVariants.{At};
ghost use Rattle.mmdb_value.specs.Values.{value_tree};
ghost use Rattle.mmdb_writer.specs.Working.{Puts, HoldsBeside, Keeps, IsWithin};

use mmdb_section::{Number, Section, SectionError, SectionPart, WrittenValue};
use mmdb_value::Value;
use std::alloc::Global;

// Adds a value, its parts first, and answers the part that stands for it.
fn add_part(
    alloc: Global,
    section: &mut Section,
    value: &Value<'_>,
) -> Result<SectionPart, SectionError>
    ensures ok { IfOk result (λ part. Puts (value_tree value.now) section.old section.new part) }
    ensures kept { OnErr result (Keeps section.old section.new) }
    ensures too_large { IfErr result (λ e. e ≡ SectionError.TooLarge
        → IsWithin (value_tree value.now) → 2 ^ 32 ≤ length section.new.bytes) }
{
    match value {
        Value::String(text) => Ok(SectionPart::At(section.add(alloc, WrittenValue::Text(*text))?)),
        Value::Bytes(bytes) => Ok(SectionPart::At(section.add(
            alloc,
            WrittenValue::Bytes(*bytes),
        )?)),
        Value::Bool(truth) => Ok(SectionPart::Number(Number::Bool(*truth))),
        Value::I32(integer) => Ok(SectionPart::Number(Number::I32(*integer))),
        Value::U16(integer) => Ok(SectionPart::Number(Number::U16(*integer))),
        Value::U32(integer) => Ok(SectionPart::Number(Number::U32(*integer))),
        Value::U64(integer) => Ok(SectionPart::Number(Number::U64(*integer))),
        Value::U128(integer) => Ok(SectionPart::Number(Number::U128(*integer))),
        Value::Double(double) => Ok(SectionPart::Number(Number::Double(*double))),
        Value::Float(float) => Ok(SectionPart::Number(Number::Float(*float))),
        Value::Array(values) => {
            let mut parts = Vec::new(alloc);
            for value in values {
                let part = add_part(alloc, section, value)?;
                parts.push(part)?;
            }
            let offset = section.add(alloc, WrittenValue::Array(&parts))?;
            Ok(SectionPart::At(offset))
        }
        Value::Map(pairs) => {
            let mut parts = Vec::new(alloc);
            for pair in pairs {
                let key = section.add(alloc, WrittenValue::Text(pair.0))?;
                let part = add_part(alloc, section, &pair.1)?;
                parts.push((SectionPart::At(key), part))?;
            }
            let offset = section.add(alloc, WrittenValue::Map(&parts))?;
            Ok(SectionPart::At(offset))
        }
    }
}

// Adds a value, and answers the offset at which it begins.
pub(crate) fn put_value(
    alloc: Global,
    section: &mut Section,
    value: &Value<'_>,
) -> Result<u32, SectionError>
    ensures ok { IfOk result
        (λ offset. HoldsBeside (value_tree value.now) section.old section.new (At offset)) }
    ensures kept { OnErr result (Keeps section.old section.new) }
    ensures too_large { IfErr result (λ e. e ≡ SectionError.TooLarge
        → IsWithin (value_tree value.now) → 2 ^ 32 ≤ length section.new.bytes) }
{
    match add_part(alloc, section, value)? {
        SectionPart::At(offset) => Ok(offset),
        SectionPart::Number(number) => section.add(alloc, WrittenValue::Number(number)),
    }
}
