//! Which values are given back by readings.
ghost use Rattle.std.specs.Prelude.{◌≡◌, ◌≢◌, ◌+◌, ◌<◌, OnOk, IfErr};
ghost use Rattle.mmdb_value.specs.Values.{value_tree};
ghost use Rattle.mmdb_writer.specs.Limits.{IsWithinLimits, Exceeds};
ghost use Rattle.mmdb_writer.specs.Working.{TakesRoom, ExceedsRoom};

use mmdb_value::Value;
use thiserror::Error;

/// Why no reading gives a value back.
#[derive(Clone, Copy, Debug, PartialEq, Eq, Error)]
pub enum ValueError {
    /// It has more than 65,536 values: itself, its parts and their parts, keys included.
    #[error("more than 65,536 values")]
    TooManyValues,
    /// Its texts, keys included, and byte strings have more than 2,097,152 bytes.
    #[error("more than 2,097,152 bytes of texts and byte strings")]
    TooManyBytes,
    /// More than 64 arrays and maps are in one another.
    #[error("more than 64 arrays and maps in one another")]
    TooDeep,
    /// In a map a key occurs twice.
    #[error("a key stands twice in a map")]
    KeyTwice,
}

/// How many arrays and maps may be in one another: each may be reached through a pointer, and a verification takes 128 levels.
const MOST_LEVELS: u8 = 64;

// What a value may still have.
#[derive(Drop)]
struct Room {
    values: usize,
    bytes: usize,
}

impl Room {
    // Takes the room of a value, without its parts, and of `bytes` bytes of content.
    fn take(&mut self, bytes: usize) -> Result<(), ValueError>
        ensures values { OnOk result (self.new.values + 1 ≡ self.old.values) }
        ensures bytes { OnOk result (self.new.bytes + bytes ≡ self.old.bytes) }
        ensures too_many { IfErr result (λ e. e ≡ ValueError.TooManyValues → self.old.values ≡ 0) }
        ensures too_long { IfErr result (λ e.
            e ≡ ValueError.TooManyBytes → self.old.bytes < bytes) }
        ensures not_deep { IfErr result (λ e. e ≢ ValueError.TooDeep) }
        ensures not_twice { IfErr result (λ e. e ≢ ValueError.KeyTwice) }
    {
        let Some(values) = self.values.checked_sub(1) else {
            return Err(ValueError::TooManyValues);
        };
        let Some(left) = self.bytes.checked_sub(bytes) else {
            return Err(ValueError::TooManyBytes);
        };
        self.values = values;
        self.bytes = left;
        Ok(())
    }
}

// Takes the room of a value whose arrays and maps may be in one another at most `levels` deep.
fn take_room(room: &mut Room, levels: u8, value: &Value<'_>) -> Result<(), ValueError>
    ensures ok { OnOk result (TakesRoom levels (value_tree value.now) room.old room.new) }
    ensures err { IfErr result (ExceedsRoom levels (value_tree value.now) room.old) }
{
    match value {
        Value::String(text) => room.take(text.len()),
        Value::Bytes(bytes) => room.take(bytes.len()),
        Value::Bool(_) => room.take(0),
        Value::I32(_) => room.take(0),
        Value::U16(_) => room.take(0),
        Value::U32(_) => room.take(0),
        Value::U64(_) => room.take(0),
        Value::U128(_) => room.take(0),
        Value::Double(_) => room.take(0),
        Value::Float(_) => room.take(0),
        Value::Array(values) => {
            let Some(below) = levels.checked_sub(1) else {
                return Err(ValueError::TooDeep);
            };
            room.take(0)?;
            for value in values {
                take_room(room, below, value)?;
            }
            Ok(())
        }
        Value::Map(pairs) => {
            let Some(below) = levels.checked_sub(1) else {
                return Err(ValueError::TooDeep);
            };
            room.take(0)?;
            for pair in pairs {
                room.take(pair.0.len())?;
                take_room(room, below, &pair.1)?;
            }
            Ok(())
        }
    }
}

// Whether a value is within the limits of readings.
pub(crate) fn check_value(value: &Value<'_>) -> Result<(), ValueError>
    ensures ok { OnOk result (IsWithinLimits (value_tree value.now)) }
    ensures err { IfErr result (λ e. Exceeds e (value_tree value.now)) }
{
    let mut room = Room {
        values: 65_536,
        bytes: 2_097_152,
    };
    take_room(&mut room, MOST_LEVELS, value)
}
