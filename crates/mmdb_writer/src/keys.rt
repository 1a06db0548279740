//! Keys of maps, each of which occurs once.
ghost use Rattle.std.specs.Prelude.{◌≡◌, false, IfOk, IsTrue};
ghost use Rattle.mmdb_value.specs.Values.{value_tree};
ghost use Rattle.mmdb_writer.specs.Limits.{HasKeyTwice};

use mmdb_value::Value;
use std::alloc::{AllocError, Global};
use std::collections::BTreeMap;

// Whether in no map of a value a key occurs twice.
pub(crate) fn has_keys_once(alloc: Global, value: &Value<'_>) -> Result<bool, AllocError>
    ensures once { IfOk result (λ once. IsTrue once → ¬ HasKeyTwice (value_tree value.now)) }
    ensures twice { IfOk result (λ once. once ≡ false → HasKeyTwice (value_tree value.now)) }
{
    match value {
        Value::Array(values) => {
            for value in values {
                if !has_keys_once(alloc, value)? {
                    return Ok(false);
                }
            }
            Ok(true)
        }
        Value::Map(pairs) => {
            let mut seen = BTreeMap::new(alloc);
            for pair in pairs {
                if seen.insert(pair.0, ())?.is_some() {
                    return Ok(false);
                }
                if !has_keys_once(alloc, &pair.1)? {
                    return Ok(false);
                }
            }
            Ok(true)
        }
        _ => Ok(true),
    }
}
