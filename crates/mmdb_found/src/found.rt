//! What a lookup found along a path, as a value and as JSON.
ghost use Rattle.std.specs.Prelude.{◌≡◌, true, false, IfOk, IfErr, IfSome, IfNone};
ghost use Rattle.mmdb_reader.specs.Decoding.{FailsToDecode};
ghost use Rattle.mmdb_reader.specs.Found.{section_asked, offset_found};
ghost use Rattle.mmdb_reader.specs.Selecting.{SelectsTo, answer_along};
ghost use Rattle.mmdb_value.specs.AnyValue.{value_at};
ghost use Rattle.mmdb_value.specs.Values.{value_tree};
ghost use Rattle.mmdb_found.specs.Found.{value_found, NothingAlong, IsJsonAlong, WritesAlong, FailsAlong};

use json::Token;
use mmdb_json::{TokenSink, compact, write_value};
use mmdb_reader::{LookupResult, MaxMindDbError, PathElement};
use mmdb_value::Value;
use std::alloc::Global;
use std::convert::AsSlice;

// Nothing in place of an error where the path meets a value of another type.
#[cold]
#[inline(never)]
fn none_or_error<'a, S: AsSlice<u8> + Drop>(
    found: &LookupResult<'_, S>,
    path: &[PathElement<'_>],
    error: MaxMindDbError,
) -> Result<Option<Value<'a>>, MaxMindDbError>
    requires { FailsToDecode false error (answer_along path.now true (value_at true)
        (section_asked found.now)) (offset_found found.now) }
    ensures ok { IfOk result (λ value. SelectsTo value_tree
        (value_found path.now (section_asked found.now)) (offset_found found.now) value) }
    ensures err { IfErr result (λ e. FailsToDecode false e
        (value_found path.now (section_asked found.now)) (offset_found found.now)) }
    ensures none { IfOk result (λ value. IfNone value
        (NothingAlong path.now (section_asked found.now) (offset_found found.now))) }
{
    match error {
        MaxMindDbError::Memory => Err(MaxMindDbError::Memory),
        _ => {
            if found.meets_other_type(path) {
                Ok(None)
            } else {
                Err(error)
            }
        }
    }
}

/// The value at the end of a path into the network's record, or none exactly where there is no data, the path leads nowhere,
/// or a step of it meets a value of another type. An empty path is the whole record.
///
/// Fails, unless out of memory, exactly where what the path goes through, or the value at its end, can't be read.
#[inline(always)]
pub fn value_along<'a, S: AsSlice<u8> + Drop>(
    alloc: Global,
    found: &LookupResult<'a, S>,
    path: &[PathElement<'_>],
) -> Result<Option<Value<'a>>, MaxMindDbError>
    ensures ok { IfOk result (λ value. SelectsTo value_tree
        (value_found path.now (section_asked found.now)) (offset_found found.now) value) }
    ensures err { IfErr result (λ e. FailsToDecode false e
        (value_found path.now (section_asked found.now)) (offset_found found.now)) }
    ensures none { IfOk result (λ value. IfNone value
        (NothingAlong path.now (section_asked found.now) (offset_found found.now))) }
{
    match found.decode_path(alloc, path) {
        Ok(value) => Ok(value),
        Err(error) => none_or_error(found, path, error),
    }
}

/// The compact text of the value that `value_along` gives, or none where it gives none. Fails as `value_along` does.
pub fn found_json<S: AsSlice<u8> + Drop>(
    alloc: Global,
    found: &LookupResult<'_, S>,
    path: &[PathElement<'_>],
) -> Result<Option<Vec<u8>>, MaxMindDbError>
    ensures json { IfOk result (λ text. IfSome text (λ t.
        IsJsonAlong path.now (section_asked found.now) (offset_found found.now) t.items)) }
    ensures none { IfOk result (λ text.
        IfNone text (NothingAlong path.now (section_asked found.now) (offset_found found.now))) }
    ensures rejected { IfErr result (λ e.
        FailsAlong path.now (section_asked found.now) (offset_found found.now) e) }
{
    let value = value_along(alloc, found, path)?;
    match &value {
        Some(value) => Ok(Some(compact(alloc, value)?)),
        None => Ok(None),
    }
}

/// Gives the tokens of that value, or `null` where there is none, and says whether there is one.
///
/// Fails as `found_json` does; only where there is no memory some tokens were given.
pub fn write_found<S: AsSlice<u8> + Drop, W: TokenSink>(
    alloc: Global,
    found: &LookupResult<'_, S>,
    path: &[PathElement<'_>],
    out: &mut W,
) -> Result<bool, MaxMindDbError>
    ensures written { IfOk result (λ is_found. WritesAlong path.now (section_asked found.now)
        (offset_found found.now) is_found (W.tokens out.old) (W.tokens out.new)) }
    ensures front { W.front out.new ≡ W.front out.old }
    ensures rejected { IfErr result (λ e.
        FailsAlong path.now (section_asked found.now) (offset_found found.now) e) }
{
    let value = value_along(alloc, found, path)?;
    match &value {
        Some(value) => {
            write_value(alloc, value, out)?;
            Ok(true)
        }
        None => {
            out.token(Token::Null)?;
            Ok(false)
        }
    }
}
