//! A text that is being laid out.
ghost use Rattle.std.specs.Prelude.{◌≡◌, ◌++◌, ◌∷◌, ◌≤◌, [], length, IfSome, OnOk, true, false, drop};
ghost use Rattle.json.specs.Print.{quoted};
ghost use Rattle.base64.specs.GeneralPurpose.{encode_of};
ghost use Rattle.base64.specs.Engines.{standard};
ghost use Rattle.mmdb_json.specs.Appended.{comma_if};
ghost use Rattle.mmdb_json.specs.Drafts.{AreWithin, Grows, IsBehind, filled, shown, later_string};

use crate::strings::{MOST_APART, is_plain, put_bytes, put_plain, put_string};
use std::alloc::{AllocError, Global};
use std::marker::Model;
use std::mem;

/// This many bytes of texts with escapes and of byte strings are laid out at once. More of them are put in when all of a
/// record was read: to lay them out takes far longer than to read them, which is of no use where the record can't be read.
const MOST_AT_ONCE: usize = 512;

/// A larger room for a text is not kept for the next one.
const MOST_ROOM: usize = 65_536;

/// Where a text is laid out, and where strings are that are written apart.
#[derive(Drop)]
pub(crate) struct Rooms {
    text: Vec<u8>,
    string: Vec<u8>,
}

impl Rooms {
    /// Rooms that take no memory yet.
    pub(crate) fn new(alloc: Global) -> Rooms {
        Rooms {
            text: Vec::new(alloc),
            string: Vec::new(alloc),
        }
    }
}

/// What is put in last.
#[derive(Clone, Copy)]
pub(crate) enum Later<'r> {
    /// The string of a text.
    Text(&'r str),
    /// The string of bytes, in base64.
    Bytes(&'r [u8]),
}

/// Where something is put in last: after this many bytes of the text.
#[derive(Clone, Copy)]
pub(crate) struct Hole<'r> {
    pub(crate) at: usize,
    pub(crate) later: Later<'r>,
}

/// How far a draft has come: the number of its bytes, and of the strings that are put in last.
#[derive(Clone, Copy)]
pub(crate) struct DraftLength {
    pub(crate) bytes: usize,
    pub(crate) holes: usize,
}

/// A text that is being laid out, into which some strings are put last.
#[derive(Drop)]
pub(crate) struct Draft<'r> {
    alloc: Global,
    text: Vec<u8>,
    /// Where strings are put in, one after another.
    holes: Vec<Hole<'r>>,
    /// How many bytes may still be laid out at once.
    at_once: usize,
    /// Where strings are written apart.
    room: Vec<u8>,
}

impl<'r> Model for Draft<'r> {
    ghost use Rattle.mmdb_json.specs.Drafts.{Drafted, AreWithin};

    ghost Value = { Drafted };

    ghost view = { λ d. record { text = d.text.items; holes = d.holes.items } };

    ghost invariant = { λ d. AreWithin d.text.items d.holes.items };
}

// Appends the string of what is put in last.
fn put_later(
    alloc: Global,
    later: Later<'_>,
    room: &mut Vec<u8>,
    out: &mut Vec<u8>,
) -> Result<(), AllocError>
    ensures put { OnOk result (out.new.items ≡ out.old.items ++ later_string later.entry) }
    ensures behind { IsBehind out.old.items out.new.items }
{
    match later {
        Later::Text(text) => put_string(alloc, text, room, out),
        Later::Bytes(bytes) => put_bytes(alloc, bytes, room, out),
    }
}

// Appends a text, with what is put into it.
fn put_filled(
    alloc: Global,
    text: &[u8],
    holes: &[Hole<'_>],
    room: &mut Vec<u8>,
    out: &mut Vec<u8>,
) -> Result<(), AllocError>
    requires { AreWithin text.now holes.now }
    ensures put { OnOk result (out.new.items ≡ out.old.items ++ filled 0 text.now holes.now) }
    ensures behind { IsBehind out.old.items out.new.items }
{
    let mut from = 0;
    for hole in holes {
        if from <= hole.at && hole.at <= text.len() {
            out.extend_from_slice(&text[from..hole.at])?;
        }
        put_later(alloc, hole.later, room, out)?;
        from = hole.at;
    }
    out.extend_from_slice(text.split_at(from.min(text.len())).1)
}

impl<'r> Draft<'r> {
    /// Of no text yet, which is laid out in these rooms.
    pub(crate) fn new(alloc: Global, rooms: Rooms) -> Draft<'r>
        ensures { result ≡ record { text = []; holes = [] } }
    {
        let mut text = rooms.text;
        text.clear();
        Draft {
            alloc,
            text,
            holes: Vec::new(alloc),
            at_once: MOST_AT_ONCE,
            room: rooms.string,
        }
    }

    /// The rooms for another text. A large one is let go.
    pub(crate) fn into_rooms(self) -> Rooms {
        if self.text.capacity() > MOST_ROOM {
            return Rooms::new(self.alloc);
        }
        Rooms {
            text: self.text,
            string: self.room,
        }
    }

    /// Appends a byte.
    #[inline(always)]
    pub(crate) fn push(&mut self, byte: u8) -> Result<(), AllocError>
        ensures { OnOk result (Grows self.old self.new (byte ∷ [])) }
    {
        self.text.push(byte)?;
        Ok(())
    }

    /// Appends the comma that follows a value.
    #[inline(always)]
    pub(crate) fn put_comma(&mut self, after_value: bool) -> Result<(), AllocError>
        ensures { OnOk result (Grows self.old self.new (comma_if after_value)) }
    {
        if after_value { self.push(b',') } else { Ok(()) }
    }

    /// Appends bytes.
    #[inline(always)]
    pub(crate) fn put(&mut self, bytes: &[u8]) -> Result<(), AllocError>
        ensures { OnOk result (Grows self.old self.new bytes.now) }
    {
        self.text.extend_from_slice(bytes)
    }

    // Notes what is put in last after what there is.
    fn put_last(&mut self, later: Later<'r>) -> Result<(), AllocError>
        ensures { OnOk result (Grows self.old self.new (later_string later.entry)) }
    {
        let at = self.text.len();
        self.holes.push(Hole { at, later })?;
        Ok(())
    }

    // Whether this many bytes may be laid out at once. They are counted then. A long string is put in last, so that it is
    // copied once.
    fn may_be_at_once(&mut self, bytes: usize) -> bool
        ensures { self.new ≡ self.old }
    {
        if bytes > MOST_APART || bytes > self.at_once {
            return false;
        }
        self.at_once -= bytes;
        true
    }

    // Appends the string of a text in which bytes are escaped, or notes it.
    #[inline(never)]
    fn put_escaped(&mut self, text: &'r str) -> Result<(), AllocError>
        ensures { OnOk result (Grows self.old self.new (quoted text.now)) }
    {
        if !self.may_be_at_once(text.len()) {
            return self.put_last(Later::Text(text));
        }
        put_string(self.alloc, text, &mut self.room, &mut self.text)
    }

    /// Appends the string of a text.
    #[inline(always)]
    pub(crate) fn put_string(&mut self, text: &'r str) -> Result<(), AllocError>
        ensures { OnOk result (Grows self.old self.new (quoted text.now)) }
    {
        if !is_plain(text.as_bytes()) {
            return self.put_escaped(text);
        }
        put_plain(text.as_bytes(), &mut self.text)
    }

    /// Appends the string of bytes, in base64.
    #[inline(never)]
    pub(crate) fn put_bytes(&mut self, bytes: &'r [u8]) -> Result<(), AllocError>
        ensures { OnOk result (Grows self.old self.new (quoted (encode_of standard bytes.now))) }
    {
        if !self.may_be_at_once(bytes.len()) {
            return self.put_last(Later::Bytes(bytes));
        }
        put_bytes(self.alloc, bytes, &mut self.room, &mut self.text)
    }

    /// How far it has come.
    #[inline(always)]
    pub(crate) fn reached(&self) -> DraftLength
        ensures bytes { result.bytes ≡ length self.now.text }
        ensures holes { result.holes ≡ length self.now.holes }
    {
        DraftLength {
            bytes: self.text.len(),
            holes: self.holes.len(),
        }
    }

    /// What was appended since then, unless something of it is put in last.
    pub(crate) fn since(&self, before: DraftLength) -> Option<&[u8]>
        ensures { IfSome result (λ bytes. (bytes.now ≡ drop before.bytes self.now.text)
            × (length self.now.holes ≡ before.holes)) }
    {
        if self.holes.len() != before.holes || before.bytes > self.text.len() {
            return None;
        }
        Some(self.text.as_slice().split_at(before.bytes).1)
    }

    // Appends the text with what is put into it, as far as there is memory.
    fn put_all(&mut self, out: &mut Vec<u8>) -> Result<(), AllocError>
        ensures put { OnOk result (out.new.items ≡ out.old.items ++ shown self.old) }
        ensures behind { IsBehind out.old.items out.new.items }
    {
        put_filled(
            self.alloc,
            self.text.as_slice(),
            self.holes.as_slice(),
            &mut self.room,
            out,
        )
    }

    // Whether it is the text itself, which has so large a room that this is not kept for another one.
    fn is_large_and_whole(&self) -> bool
        ensures { result ≡ true → self.now.holes ≡ [] }
    {
        self.holes.is_empty() && self.text.capacity() > MOST_ROOM
    }

    /// Appends the whole text. Whether there was memory for it; if not, nothing is appended. A large text that has
    /// nothing before it is handed over.
    pub(crate) fn append_to(&mut self, out: &mut Vec<u8>) -> bool
        ensures put { result ≡ true → out.new.items ≡ out.old.items ++ shown self.old }
        ensures left { result ≡ false → out.new.items ≡ out.old.items }
    {
        if out.is_empty() && self.is_large_and_whole() {
            mem::swap(&mut self.text, out);
            return true;
        }
        let before = out.len();
        if self.put_all(out).is_ok() {
            return true;
        }
        out.truncate(before);
        false
    }
}
