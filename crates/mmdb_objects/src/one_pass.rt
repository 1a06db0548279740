//! Objects of JSON, read in one pass over their bytes.
//!
//! Most lines are read so. What this pass does not know, as a character in two escapes or an escape
//! in a key, and every error are left to the reader of the crate `json`.
ghost use Rattle.std.specs.Prelude.{◌≡◌, ◌+◌, ◌<◌, ◌≤◌, IfSome, Some, false, length, drop, option_map, option_and_then, cond};
ghost use Rattle.std.specs.Str.{bytes_eq};
ghost use Rattle.json.specs.Find.{as_str, get_member};
ghost use Rattle.json.specs.Json.{Json, Items, Members, object, document};
ghost use Rattle.json.specs.Word.{head};
ghost use Rattle.mmdb_objects.specs.Scanned.{StandsBehind, HasKey, HasValue, HasItems, HasMembers};
ghost use Rattle.mmdb_objects.specs.Working.{HoldsMembers, HoldsText};
ghost use Rattle.mmdb_objects.specs.Objects.{text_along};

use crate::lexemes::{
    Stop, byte_at, digits_word_end, is_integer_start, plain_string_end, seen_at, space_end,
    stop_at, string_end, word_end,
};
use crate::step::PathStep;
use json::MAX_DEPTH;

// Where the text of a key ends, and its value with the byte that it begins with.
#[derive(Clone, Copy)]
struct ObjectKey {
    quote: usize,
    value: Stop,
}

// What is after a key's colon, from the byte after the key on. Mostly there is no white space,
// or a space.
#[inline(always)]
fn behind_colon(text: &[u8], from: usize) -> Option<Stop>
    requires { from ≤ length text.now }
    ensures at { IfSome result (λ stop. StandsBehind text.now from 58 stop.at) }
    ensures byte { IfSome result (λ stop. stop.byte ≡ head (drop stop.at text.now)) }
{
    if from + 2 < text.len() && text[from] == b':' {
        if text[from + 1] > b' ' {
            return Some(seen_at(text, from + 1));
        }
        if text[from + 1] == b' ' && text[from + 2] > b' ' {
            return Some(seen_at(text, from + 2));
        }
    }
    let colon = space_end(text, from);
    if byte_at(text, colon) != b':' {
        return None;
    }
    Some(stop_at(text, space_end(text, colon + 1)))
}

// The key whose first quote is at a byte.
#[inline(always)]
fn read_key(text: &[u8], from: usize) -> Option<ObjectKey>
    requires within { from < length text.now }
    requires first { head (drop from text.now) ≡ 34 }
    ensures key { IfSome result (λ key. HasKey text.now from key.quote key.value.at) }
    ensures byte { IfSome result (λ key. key.value.byte ≡ head (drop key.value.at text.now)) }
{
    let quote = plain_string_end(text, from + 1)?;
    let value = behind_colon(text, quote + 1)?;
    Some(ObjectKey { quote, value })
}

// Where the next key is, or where the object ends.
#[derive(Clone, Copy)]
struct Next {
    at: usize,
    is_end: bool,
}

// What is after a member of an object. Mostly there is no white space, or a space.
#[inline(always)]
fn behind_member(text: &[u8], from: usize) -> Option<Next>
    requires { from ≤ length text.now }
    ensures at { IfSome result (λ next. StandsBehind text.now from
        (cond next.is_end 125 44) next.at) }
    ensures key { IfSome result (λ next. next.is_end ≡ false
        → (next.at < length text.now) × (head (drop next.at text.now) ≡ 34)) }
{
    if from + 2 < text.len() && text[from] == b',' {
        if text[from + 1] == b'"' {
            return Some(Next {
                at: from + 1,
                is_end: false,
            });
        }
        if text[from + 1] == b' ' && text[from + 2] == b'"' {
            return Some(Next {
                at: from + 2,
                is_end: false,
            });
        }
    }
    let end = space_end(text, from);
    let byte = byte_at(text, end);
    if byte == b'}' {
        return Some(Next {
            at: end + 1,
            is_end: true,
        });
    }
    if byte != b',' {
        return None;
    }
    let at = space_end(text, end + 1);
    if byte_at(text, at) == b'"' {
        Some(Next { at, is_end: false })
    } else {
        None
    }
}

// Where a value ends that begins at a byte, of which the first byte is given.
#[cycle(scan)]
#[inline(always)]
fn value_end(text: &[u8], from: usize, byte: u8, depth: usize) -> Option<usize>
    requires within { from ≤ length text.now }
    requires first { byte ≡ head (drop from text.now) }
    ensures bounds { IfSome result (λ end. (from ≤ end) × (end ≤ length text.now)) }
    ensures value { IfSome result (λ end. (j : Json) × HasValue text.now from end depth j) }
{
    if byte == b'"' {
        let quote = string_end(text, from + 1)?;
        Some(quote + 1)
    } else if is_integer_start(byte) {
        digits_word_end(text, from)
    } else if byte == b'{' && depth > 0 {
        members_end(text, from + 1, depth - 1)
    } else if byte == b'[' && depth > 0 {
        items_end(text, from + 1, depth - 1)
    } else {
        word_end(text, from)
    }
}

// Where an array ends, from after its open bracket on.
#[cycle(scan)]
#[inline(never)]
fn items_end(text: &[u8], from: usize, depth: usize) -> Option<usize>
    requires { from ≤ length text.now }
    ensures bounds { IfSome result (λ end. (from ≤ end) × (end ≤ length text.now)) }
    ensures value { IfSome result (λ end. (js : Items) × HasItems text.now from end depth js) }
{
    let mut at = space_end(text, from);
    if byte_at(text, at) == b']' {
        return Some(at + 1);
    }
    loop {
        let item = value_end(text, at, byte_at(text, at), depth)?;
        let end = space_end(text, item);
        let byte = byte_at(text, end);
        if byte == b']' {
            return Some(end + 1);
        }
        if byte != b',' {
            return None;
        }
        at = space_end(text, end + 1);
    }
}

// Where an object ends, from after its open brace on.
#[cycle(scan)]
#[inline(never)]
fn members_end(text: &[u8], from: usize, depth: usize) -> Option<usize>
    requires { from ≤ length text.now }
    ensures bounds { IfSome result (λ end. (from ≤ end) × (end ≤ length text.now)) }
    ensures value { IfSome result (λ end. (ms : Members) × HasMembers text.now from end depth ms) }
{
    let mut at = space_end(text, from);
    let byte = byte_at(text, at);
    if byte == b'}' {
        return Some(at + 1);
    }
    if byte != b'"' {
        return None;
    }
    loop {
        let key = read_key(text, at)?;
        let value = value_end(text, key.value.at, key.value.byte, depth)?;
        let next = behind_member(text, value)?;
        if next.is_end {
            return Some(next.at);
        }
        at = next.at;
    }
}

// Where a value ends that begins at a byte.
#[inline(never)]
fn any_value_end(text: &[u8], from: usize, depth: usize) -> Option<usize>
    requires { from ≤ length text.now }
    ensures bounds { IfSome result (λ end. (from ≤ end) × (end ≤ length text.now)) }
    ensures value { IfSome result (λ end. (j : Json) × HasValue text.now from end depth j) }
{
    value_end(text, from, byte_at(text, from), depth)
}

// A value that was followed along a path: where it ends, and the text that the path leads to.
#[derive(Clone, Copy)]
struct Followed<'a> {
    end: usize,
    text: Option<&'a [u8]>,
}

// Follows the end of a path.
#[inline(always)]
fn follow_no_further(text: &[u8], from: usize, depth: usize) -> Option<Followed<'_>>
    requires { from ≤ length text.now }
    ensures bounds { IfSome result (λ f. (from ≤ f.end) × (f.end ≤ length text.now)) }
    ensures value { IfSome result (λ f. (j : Json) × HasValue text.now from f.end depth j
        × (option_map (λ s. s.now) f.text ≡ as_str j)) }
{
    if byte_at(text, from) == b'"' {
        let quote = plain_string_end(text, from + 1)?;
        Some(Followed {
            end: quote + 1,
            text: Some(&text[from + 1..quote]),
        })
    } else {
        let end = any_value_end(text, from, depth)?;
        Some(Followed { end, text: None })
    }
}

// Whether a key has this name.
#[inline(always)]
fn is_name(key: &[u8], name: &str) -> bool
    ensures { result ≡ bytes_eq key.now name.now }
{
    key == name.as_bytes()
}

// Follows a path into a value.
#[cycle(follow)]
#[inline(never)]
fn follow<'a>(
    text: &'a [u8],
    from: usize,
    path: &[PathStep<'_>],
    depth: usize,
) -> Option<Followed<'a>>
    requires { from ≤ length text.now }
    ensures bounds { IfSome result (λ f. (from ≤ f.end) × (f.end ≤ length text.now)) }
    ensures value { IfSome result (λ f. (j : Json) × HasValue text.now from f.end depth j
        × (option_map (λ s. s.now) f.text ≡ text_along path.now j)) }
{
    if path.is_empty() {
        return follow_no_further(text, from, depth);
    }
    let PathStep::Key(name) = &path[0] else {
        return None;
    };
    if byte_at(text, from) != b'{' {
        let end = any_value_end(text, from, depth)?;
        return Some(Followed { end, text: None });
    }
    if depth == 0 {
        return None;
    }
    follow_members(text, from + 1, name, &path[1..], depth - 1)
}

// Follows a path into a member of this name, and passes over another one, which leaves the text
// that an earlier one gave.
#[cycle(follow)]
#[inline(always)]
fn follow_member<'a>(
    text: &'a [u8],
    is_named: bool,
    value: Stop,
    path: &[PathStep<'_>],
    depth: usize,
    earlier: Option<&'a [u8]>,
) -> Option<Followed<'a>>
    requires within { value.at ≤ length text.now }
    requires first { value.byte ≡ head (drop value.at text.now) }
    ensures bounds { IfSome result (λ f. (value.at ≤ f.end) × (f.end ≤ length text.now)) }
    ensures value { IfSome result (λ f. (j : Json) × HasValue text.now value.at f.end depth j
        × (option_map (λ s. s.now) f.text
        ≡ cond is_named (text_along path.now j) (option_map (λ s. s.now) earlier.entry))) }
{
    if is_named && path.is_empty() {
        return follow_no_further(text, value.at, depth);
    }
    if is_named {
        return follow(text, value.at, path, depth);
    }
    let end = value_end(text, value.at, value.byte, depth)?;
    Some(Followed { end, text: earlier })
}

// Follows a path into the last member of this name, from after an object's open brace on.
#[cycle(follow)]
fn follow_members<'a>(
    text: &'a [u8],
    from: usize,
    name: &str,
    path: &[PathStep<'_>],
    depth: usize,
) -> Option<Followed<'a>>
    requires { from ≤ length text.now }
    ensures bounds { IfSome result (λ f. (from ≤ f.end) × (f.end ≤ length text.now)) }
    ensures value { IfSome result (λ f. (ms : Members) × HasMembers text.now from f.end depth ms
        × (option_map (λ s. s.now) f.text
        ≡ option_and_then (text_along path.now) (get_member name.now ms))) }
{
    let mut found = None;
    let mut at = space_end(text, from);
    let byte = byte_at(text, at);
    if byte == b'}' {
        return Some(Followed {
            end: at + 1,
            text: None,
        });
    }
    if byte != b'"' {
        return None;
    }
    loop {
        let key = read_key(text, at)?;
        let is_named = is_name(&text[at + 1..key.quote], name);
        let member = follow_member(text, is_named, key.value, path, depth, found)?;
        let next = behind_member(text, member.end)?;
        if next.is_end {
            return Some(Followed {
                end: next.at,
                text: member.text,
            });
        }
        found = member.text;
        at = next.at;
    }
}

/// An object that was followed along a path.
#[derive(Clone, Copy)]
pub(crate) struct Object<'a> {
    /// Where it ends.
    end: usize,
    /// The text that the path leads to.
    pub(crate) text: Option<&'a [u8]>,
    /// Whether it has no member.
    pub(crate) is_empty: bool,
    /// Whether it has a member of the name that is asked about.
    pub(crate) is_taken: bool,
}

// Follows a path into the last member of this name, from after the open brace of a whole object on, and sees whether a
// member has another one.
#[inline(never)]
fn follow_object<'a>(
    text: &'a [u8],
    from: usize,
    name: &str,
    path: &[PathStep<'_>],
    depth: usize,
    other: &str,
) -> Option<Object<'a>>
    requires { from ≤ length text.now }
    ensures bounds { IfSome result (λ f. f.end ≤ length text.now) }
    ensures value { IfSome result (λ f. (ms : Members) × HasMembers text.now from f.end depth ms
        × HoldsMembers name.now path.now other.now ms f) }
{
    let mut found = None;
    let mut is_taken = false;
    let mut at = space_end(text, from);
    let byte = byte_at(text, at);
    if byte == b'}' {
        return Some(Object {
            end: at + 1,
            text: None,
            is_empty: true,
            is_taken: false,
        });
    }
    if byte != b'"' {
        return None;
    }
    loop {
        let key = read_key(text, at)?;
        let is_named = is_name(&text[at + 1..key.quote], name);
        let is_other = is_name(&text[at + 1..key.quote], other);
        if is_other {
            is_taken = true;
        }
        let member = follow_member(text, is_named, key.value, path, depth, found)?;
        let next = behind_member(text, member.end)?;
        if next.is_end {
            return Some(Object {
                end: next.at,
                text: member.text,
                is_empty: false,
                is_taken,
            });
        }
        found = member.text;
        at = next.at;
    }
}

/// The object that a text is, followed along a path. None where the text is no object, and where one pass over plain bytes
/// does not say what it is.
pub(crate) fn followed_object<'a>(
    text: &'a [u8],
    path: &[PathStep<'_>],
    other: &str,
) -> Option<Object<'a>>
    ensures { IfSome result (λ f. (ms : Members) × (document text.now ≡ Some (object ms))
        × HoldsText path.now other.now ms f) }
{
    if path.is_empty() {
        return None;
    }
    let PathStep::Key(name) = &path[0] else {
        return None;
    };
    let from = space_end(text, 0);
    if byte_at(text, from) != b'{' {
        return None;
    }
    let object = follow_object(text, from + 1, name, &path[1..], MAX_DEPTH - 1, other)?;
    if space_end(text, object.end) < text.len() {
        return None;
    }
    Some(object)
}
