//! Values of JSON as values of this format.
use crate::error::{InputError, Reason};
use crate::scalars::{TextSource, bool_value, null_value, number_value, text_value};
use crate::types::Types;
use bumpalo::Bump;
use mmdb_format::kind::Kind;
use mmdb_value::Value;
use std::alloc::Global;

// Whether a container may be where values have these types.
fn check_container(kinds: &[Kind], kind: Kind) -> Result<(), Reason> {
    match kinds {
        [other, ..] if !kinds.contains(&kind) => Err(Reason::NotOf(*other)),
        _ => Ok(()),
    }
}

/// The value that JSON shows, of the types at a node and below it. Byte strings are put into the arena.
pub(crate) fn value_of<'a>(
    alloc: Global,
    shown: &json::Value<'a>,
    types: &Types,
    node: Option<usize>,
    arena: &'a Bump,
) -> Result<Value<'a>, InputError> {
    let kinds = types.kinds(node);
    match shown {
        json::Value::Null => Ok(null_value(kinds)?),
        json::Value::Bool(truth) => Ok(bool_value(*truth, kinds)?),
        json::Value::Number(text) => match number_value(*text, kinds) {
            Ok(value) => Ok(value),
            Err(reason) => Err(InputError::from(reason).of_text(alloc, *text)),
        },
        json::Value::String(text) => {
            match text_value(alloc, *text, TextSource::Json, kinds, arena) {
                Ok(value) => Ok(value),
                Err(error) => Err(error.of_text(alloc, *text)),
            }
        }
        json::Value::Array(items) => {
            check_container(kinds, Kind::Array)?;
            let below = types.items(node);
            let mut values = Vec::new(alloc);
            for (index, item) in items.iter().enumerate() {
                match value_of(alloc, item, types, below, arena) {
                    Ok(value) => values.push(value)?,
                    Err(error) => return Err(error.below_index(alloc, index)),
                }
            }
            Ok(Value::Array(values))
        }
        json::Value::Object(members) => {
            check_container(kinds, Kind::Map)?;
            let mut pairs = Vec::new(alloc);
            for member in members {
                let below = types.member(node, member.0);
                match value_of(alloc, &member.1, types, below, arena) {
                    Ok(value) => pairs.push((member.0, value))?,
                    Err(error) => return Err(error.below_key(alloc, member.0)),
                }
            }
            Ok(Value::Map(pairs))
        }
    }
}
