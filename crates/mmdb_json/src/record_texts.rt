//! The texts of records.
ghost use Rattle.std.specs.Prelude.{◌≡◌, ◌<◌, ◌≤◌, ◌^◌, ◌++◌, ℕ, Some, IfSome, [], length, drop, true, false};
ghost use Rattle.mmdb_format.specs.Header.{header_at as spec_header_at};
ghost use Rattle.mmdb_json.specs.Appended.{AppendsText, AppendsOwnName, ChargesKept, ChargesBytes};
ghost use Rattle.mmdb_json.specs.Drafts.{Drafted, Grows, shown};

use crate::budget::Budget;
use crate::draft::{Draft, DraftLength, Rooms};
use crate::kept::KeptText;
use crate::scalars::{put_content, utf8_of};
use mmdb_cache::Cache;
use mmdb_decode::budget::{MAX_BYTES, MAX_VALUES};
use mmdb_format::content::{content_at, content_bytes, content_end};
use mmdb_format::header::{Header, MAX_LEVELS, header_at, pointer_at};
use mmdb_format::kind::{ARRAY, MAP, POINTER, TEXT};
use std::alloc::Global;
use std::marker::Model;
use std::mem;

/// No longer text is kept, and no shorter one of a map or an array, or of another value: it is laid out in fewer steps than
/// it is kept in.
const MOST_KEPT: usize = 2048;

const LEAST_KEPT: usize = 16;

const LEAST_KEPT_STRING: usize = 512;

/// All that is kept of a record takes at most this many times the bytes of its text: of values that are reached
/// through many pointers in turn the inner ones are kept, and the others where they are met again.
const MOST_COPIES: usize = 2;

/// After the first record that was laid out for nothing twice as many are thought to be such, after each further one twice as
/// many as before, and at most `MOST_SUSPECTED`.
const FEWEST_SUSPECTED: usize = 2;

const MOST_SUSPECTED: usize = 64;

/// At least one for each this many of its bytes that were laid out for nothing: such a record takes as long as many small ones.
const BYTES_OF_SUSPECTED: usize = 128;

/// What is kept of the names of members takes this part of all that is kept: one part in this many.
const PART_OF_NAMES: usize = 8;

/// The bytes that are counted for an offset whose record can't be read.
const BYTES_OF_UNREADABLE: usize = 64;

/// The texts of the records of a data section as JSON. What pointers lead to is laid out once, and kept by its offset.
#[derive(Drop)]
pub struct RecordTexts<'r> {
    alloc: Global,
    section: &'r [u8],
    values: Cache<KeptText>,
    names: Cache<KeptText>,
    /// The offsets of records of which it is noted that they can't be read.
    unreadable: Cache<bool>,
    rooms: Rooms,
    /// How many bytes of the record that is laid out are kept.
    copied: usize,
    /// How many bytes of the record that was met last were laid out for nothing.
    in_vain: usize,
    /// How many records that come next are thought to be such, by the last ones that were met.
    suspected: usize,
    /// How many were after the last one that was laid out for nothing, by how often that was so.
    span: usize,
}

/// The text of a record, which was laid out by `RecordTexts` and is appended by it.
#[derive(Drop)]
pub struct RecordText<'r> {
    draft: Draft<'r>,
}

impl<'r> Model for RecordText<'r> {
    ghost use Rattle.std.specs.Prelude.{ℕ, List};
    ghost use Rattle.mmdb_json.specs.Drafts.{shown};

    ghost Value = { List ℕ };

    ghost view = { λ t. shown t.draft };
}

impl<'r> Model for RecordTexts<'r> {
    ghost use Rattle.std.specs.Prelude.{ℕ, List};
    ghost use Rattle.mmdb_json.specs.Kept.{AreRight};

    ghost Value = { List ℕ };

    ghost view = { λ t. t.section.now };

    ghost invariant = { λ t. AreRight t.section.now t.values t.names };
}

// Appends the value after a header, which holds no others; where it ends.
#[inline(always)]
fn put_scalar<'r>(
    section: &'r [u8],
    offset: usize,
    header: Header,
    levels: usize,
    budget: &mut Budget,
    out: &mut Draft<'r>,
) -> Option<usize>
    requires header { spec_header_at section.now offset ≡ Some header }
    requires levels { budget.old.levels ≤ levels }
    ensures { IfSome result (λ end. AppendsText section.now offset end levels
        budget.old budget.new out.old out.new) }
{
    let content = content_at(section, header).ok()?;
    if put_content(content, budget, out) {
        Some(content_end(header))
    } else {
        None
    }
}

// Appends the name that is the text after a header; where the text ends.
fn put_own_name<'r>(
    section: &'r [u8],
    offset: usize,
    header: Header,
    budget: &mut Budget,
    out: &mut Draft<'r>,
) -> Option<usize>
    requires header { spec_header_at section.now offset ≡ Some header }
    ensures { IfSome result (λ end. AppendsOwnName section.now offset end
        budget.old budget.new out.old out.new) }
{
    if header.kind != TEXT {
        return None;
    }
    let bytes = content_bytes(section, header).ok()?;
    if !budget.charge_bytes(bytes.len()) {
        return None;
    }
    let text = utf8_of(bytes)?;
    out.put_string(text).ok()?;
    out.push(b':').ok()?;
    Some(header.body + header.size)
}

// Appends a text that is kept, with `levels` levels left. Whether it is within what is left, and there was memory.
#[inline(always)]
fn put_kept(kept: &KeptText, levels: usize, budget: &mut Budget, out: &mut Draft<'_>) -> bool
    ensures charged { result ≡ true → ChargesKept kept.now levels budget.old budget.new }
    ensures put { result ≡ true → Grows out.old out.new kept.now.text.items }
{
    if !budget.charge_kept(kept, levels) {
        return false;
    }
    out.put(kept.text.as_slice()).is_ok()
}

// Appends a name that is kept. Whether it is within what is left, and there was memory.
#[inline(always)]
fn put_kept_name(kept: &KeptText, budget: &mut Budget, out: &mut Draft<'_>) -> bool
    ensures charged { result ≡ true → ChargesBytes budget.old budget.new kept.now.bytes }
    ensures put { result ≡ true → Grows out.old out.new kept.now.text.items }
{
    if !budget.charge_bytes(kept.bytes) {
        return false;
    }
    out.put(kept.text.as_slice()).is_ok()
}

// Whether what was appended since then is kept, the text of a value that a pointer leads to: it takes longer to lay out than
// to keep and to copy.
#[inline(always)]
fn is_worth_keeping(before: DraftLength, out: &Draft<'_>) -> bool {
    let Some(text) = out.since(before) else {
        return false;
    };
    match text.first() {
        Some(b'{' | b'[') => text.len() >= LEAST_KEPT,
        _ => text.len() >= LEAST_KEPT_STRING,
    }
}

// A copy of a text, where it is not too long, not too much of the record was copied yet, and there is memory.
fn copy_of(alloc: Global, text: &[u8], laid_out: usize, copied: &mut usize) -> Option<Vec<u8>>
    ensures { IfSome result (λ copy. copy.items ≡ text.now) }
{
    let bytes = copied.saturating_add(text.len());
    if text.len() > MOST_KEPT || bytes / MOST_COPIES > laid_out {
        return None;
    }
    *copied = bytes;
    Vec::from_slice(alloc, text).ok()
}

impl<'r> RecordTexts<'r> {
    ghost use Rattle.mmdb_json.specs.Appended.{AppendsText, AppendsName, AppendsOwnName, AppendsMember, AppendsItem};
    ghost use Rattle.mmdb_json.specs.Kept.{IsKeptText, IsKeptName};
    ghost use Rattle.mmdb_json.specs.RecordText.{AppendsRecord};

    /// Of the records of a data section, of which none was met yet. At most `most` bytes are kept of them together.
    pub fn new(alloc: Global, section: &'r [u8], most: usize) -> RecordTexts<'r>
        ensures { result ≡ section.now }
    {
        let most_of_names = most / PART_OF_NAMES;
        RecordTexts {
            alloc,
            section,
            values: Cache::new(alloc, most.saturating_sub(2 * most_of_names)),
            names: Cache::new(alloc, most_of_names),
            unreadable: Cache::new(alloc, most_of_names),
            rooms: Rooms::new(alloc),
            copied: 0,
            in_vain: 0,
            suspected: 0,
            span: FEWEST_SUSPECTED,
        }
    }

    /// Lets go of all that is kept.
    pub fn clear(&mut self)
        ensures { self.new ≡ self.old }
    {
        self.values.clear();
        self.names.clear();
        self.unreadable.clear();
        self.rooms = Rooms::new(self.alloc);
    }

    // Keeps what was appended since then, the text of the value at an offset.
    #[inline(never)]
    fn keep_value(
        &mut self,
        offset: usize,
        levels: usize,
        before: Budget,
        budget: &Budget,
        reached: DraftLength,
        out: &Draft<'r>,
    )
        requires { (old : Drafted) × (end : ℕ) × (reached.bytes ≡ length old.text)
            × (reached.holes ≡ length old.holes)
            × AppendsText self.old offset end levels before budget.now old out.now }
        ensures { self.new ≡ self.old }
    {
        let Some(text) = out.since(reached) else {
            return;
        };
        let laid_out = out.reached().bytes;
        let Some(text) = copy_of(self.alloc, text, laid_out, &mut self.copied) else {
            return;
        };
        let bytes = text.len();
        let kept = KeptText {
            text,
            levels: levels.saturating_sub(budget.levels),
            values: before.values.saturating_sub(budget.values),
            bytes: before.bytes.saturating_sub(budget.bytes),
        };
        self.values.put(offset, kept, bytes);
    }

    // Keeps what was appended since then, the name that the text at an offset is.
    #[inline(never)]
    fn keep_name(
        &mut self,
        offset: usize,
        before: Budget,
        budget: &Budget,
        reached: DraftLength,
        out: &Draft<'r>,
    )
        requires { (old : Drafted) × (end : ℕ) × (reached.bytes ≡ length old.text)
            × (reached.holes ≡ length old.holes)
            × AppendsOwnName self.old offset end before budget.now old out.now }
        ensures { self.new ≡ self.old }
    {
        let Some(text) = out.since(reached) else {
            return;
        };
        let laid_out = out.reached().bytes;
        let Some(text) = copy_of(self.alloc, text, laid_out, &mut self.copied) else {
            return;
        };
        let bytes = text.len();
        let kept = KeptText {
            text,
            levels: 0,
            values: 0,
            bytes: before.bytes.saturating_sub(budget.bytes),
        };
        self.names.put(offset, kept, bytes);
    }

    // Lays out the name that the text at an offset is, appends and keeps it. Whether there is a text.
    #[inline(never)]
    fn make_name(&mut self, offset: usize, budget: &mut Budget, out: &mut Draft<'r>) -> bool
        ensures name { result ≡ true → (end : ℕ) × AppendsOwnName self.old offset end
            budget.old budget.new out.old out.new }
        ensures section { self.new ≡ self.old }
    {
        let reached = out.reached();
        let before = *budget;
        let Ok(header) = header_at(self.section, offset) else {
            return false;
        };
        let Some(_) = put_own_name(self.section, offset, header, budget, out) else {
            return false;
        };
        self.keep_name(offset, before, budget, reached, out);
        true
    }

    // Appends the name that the text at an offset is. Whether there is a text.
    #[inline(always)]
    fn put_name_at(&mut self, offset: usize, budget: &mut Budget, out: &mut Draft<'r>) -> bool
        ensures name { result ≡ true → (end : ℕ) × AppendsOwnName self.old offset end
            budget.old budget.new out.old out.new }
        ensures section { self.new ≡ self.old }
    {
        match self.names.get(offset) {
            Some(kept) => put_kept_name(kept, budget, out),
            None => self.make_name(offset, budget, out),
        }
    }

    // Appends the name that a key at an offset gives; where the key ends.
    #[inline(always)]
    fn put_name(&mut self, offset: usize, budget: &mut Budget, out: &mut Draft<'r>) -> Option<usize>
        ensures name { IfSome result (λ end. AppendsName self.old offset end
            budget.old budget.new out.old out.new) }
        ensures section { self.new ≡ self.old }
    {
        let header = header_at(self.section, offset).ok()?;
        if header.kind != POINTER {
            return put_own_name(self.section, offset, header, budget, out);
        }
        let pointer = pointer_at(self.section, header.body, header.size as u8).ok()?;
        if self.put_name_at(pointer.target, budget, out) {
            return Some(pointer.next);
        }
        None
    }

    // Lays out the value at an offset, appends and keeps it. Whether there is one.
    #[cycle(texts)]
    #[inline(never)]
    fn make_value(
        &mut self,
        offset: usize,
        levels: usize,
        budget: &mut Budget,
        out: &mut Draft<'r>,
    ) -> bool
        ensures value { result ≡ true → (end : ℕ) × AppendsText self.old offset end levels
            budget.old budget.new out.old out.new }
        ensures section { self.new ≡ self.old }
    {
        let reached = out.reached();
        let before = *budget;
        budget.levels = levels;
        let inner = *budget;
        let Some(_) = self.put_value(offset, levels, budget, out) else {
            return false;
        };
        if is_worth_keeping(reached, out) {
            self.keep_value(offset, levels, inner, budget, reached, out);
        }
        budget.note_levels(before.levels);
        true
    }

    // Appends the value at an offset, to which a pointer leads. Whether there is one.
    #[cycle(texts)]
    #[inline(always)]
    fn put_value_at(
        &mut self,
        offset: usize,
        levels: usize,
        budget: &mut Budget,
        out: &mut Draft<'r>,
    ) -> bool
        ensures value { result ≡ true → (end : ℕ) × AppendsText self.old offset end levels
            budget.old budget.new out.old out.new }
        ensures section { self.new ≡ self.old }
    {
        match self.values.get(offset) {
            Some(kept) => put_kept(kept, levels, budget, out),
            None => self.make_value(offset, levels, budget, out),
        }
    }

    // Appends what the pointer after a header leads to; where the pointer ends.
    #[cycle(texts)]
    #[inline(always)]
    fn put_target(
        &mut self,
        offset: usize,
        header: Header,
        levels: usize,
        budget: &mut Budget,
        out: &mut Draft<'r>,
    ) -> Option<usize>
        requires header { spec_header_at self.old offset ≡ Some header }
        requires kind { header.kind ≡ 1 }
        requires size { header.size < 32 }
        ensures value { IfSome result (λ end. AppendsText self.old offset end levels
            budget.old budget.new out.old out.new) }
        ensures section { self.new ≡ self.old }
    {
        if levels == 0 {
            return None;
        }
        let pointer = pointer_at(self.section, header.body, header.size as u8).ok()?;
        if self.put_value_at(pointer.target, levels - 1, budget, out) {
            return Some(pointer.next);
        }
        None
    }

    // Appends a member: the name that a key at an offset gives, and the value after it; where that ends.
    #[cycle(texts)]
    #[inline(always)]
    fn put_member(
        &mut self,
        offset: usize,
        after_value: bool,
        levels: usize,
        budget: &mut Budget,
        out: &mut Draft<'r>,
    ) -> Option<usize>
        requires levels { budget.old.levels ≤ levels }
        ensures member { IfSome result (λ end. AppendsMember self.old offset end levels after_value
            budget.old budget.new out.old out.new) }
        ensures section { self.new ≡ self.old }
    {
        out.put_comma(after_value).ok()?;
        let value = self.put_name(offset, budget, out)?;
        self.put_value(value, levels, budget, out)
    }

    // Appends an item: the value at an offset; where that ends.
    #[cycle(texts)]
    #[inline(always)]
    fn put_item(
        &mut self,
        offset: usize,
        after_value: bool,
        levels: usize,
        budget: &mut Budget,
        out: &mut Draft<'r>,
    ) -> Option<usize>
        requires levels { budget.old.levels ≤ levels }
        ensures item { IfSome result (λ end. AppendsItem self.old offset end levels after_value
            budget.old budget.new out.old out.new) }
        ensures section { self.new ≡ self.old }
    {
        out.put_comma(after_value).ok()?;
        self.put_value(offset, levels, budget, out)
    }

    // Appends the map after a header; where it ends.
    #[cycle(texts)]
    fn put_table(
        &mut self,
        offset: usize,
        header: Header,
        levels: usize,
        budget: &mut Budget,
        out: &mut Draft<'r>,
    ) -> Option<usize>
        requires header { spec_header_at self.old offset ≡ Some header }
        requires kind { header.kind ≡ 7 }
        requires size { header.size < 2 ^ 25 }
        ensures value { IfSome result (λ end. AppendsText self.old offset end levels
            budget.old budget.new out.old out.new) }
        ensures section { self.new ≡ self.old }
    {
        if levels == 0 || !budget.charge_values(2 * header.size) {
            return None;
        }
        budget.note_levels(levels - 1);
        out.push(b'{').ok()?;
        let mut at = header.body;
        let mut after_value = false;
        for _i in 0..header.size {
            at = self.put_member(at, after_value, levels - 1, budget, out)?;
            after_value = true;
        }
        out.push(b'}').ok()?;
        Some(at)
    }

    // Appends the array after a header; where it ends.
    #[cycle(texts)]
    #[inline(never)]
    fn put_array(
        &mut self,
        offset: usize,
        header: Header,
        levels: usize,
        budget: &mut Budget,
        out: &mut Draft<'r>,
    ) -> Option<usize>
        requires header { spec_header_at self.old offset ≡ Some header }
        requires kind { header.kind ≡ 11 }
        ensures value { IfSome result (λ end. AppendsText self.old offset end levels
            budget.old budget.new out.old out.new) }
        ensures section { self.new ≡ self.old }
    {
        if levels == 0 || !budget.charge_values(header.size) {
            return None;
        }
        budget.note_levels(levels - 1);
        out.push(b'[').ok()?;
        let mut at = header.body;
        let mut after_value = false;
        for _i in 0..header.size {
            at = self.put_item(at, after_value, levels - 1, budget, out)?;
            after_value = true;
        }
        out.push(b']').ok()?;
        Some(at)
    }

    // Appends the value at an offset, of at most `levels` levels; where it ends.
    #[cycle(texts)]
    fn put_value(
        &mut self,
        offset: usize,
        levels: usize,
        budget: &mut Budget,
        out: &mut Draft<'r>,
    ) -> Option<usize>
        requires levels { budget.old.levels ≤ levels }
        ensures value { IfSome result (λ end. AppendsText self.old offset end levels
            budget.old budget.new out.old out.new) }
        ensures section { self.new ≡ self.old }
    {
        let header = header_at(self.section, offset).ok()?;
        match header.kind {
            POINTER => self.put_target(offset, header, levels, budget, out),
            MAP => self.put_table(offset, header, levels, budget, out),
            ARRAY => self.put_array(offset, header, levels, budget, out),
            _ => put_scalar(self.section, offset, header, levels, budget, out),
        }
    }

    // Lays out the record at an offset as a draft. Whether it can be read, and there was memory.
    fn lay_out_as(&mut self, offset: usize, draft: &mut Draft<'r>) -> bool
        requires { shown draft.old ≡ [] }
        ensures laid_out { result ≡ true → AppendsRecord self.old offset [] (shown draft.new) }
        ensures section { self.new ≡ self.old }
    {
        let most_levels = usize::from(MAX_LEVELS);
        let mut budget = Budget {
            values: MAX_VALUES - 1,
            bytes: MAX_BYTES,
            levels: most_levels,
        };
        let Some(_) = self.put_value(offset, most_levels, &mut budget, draft) else {
            self.in_vain = draft.reached().bytes;
            return false;
        };
        true
    }

    // Begins a draft of a record, in the rooms that there are.
    fn new_draft(&mut self) -> Draft<'r>
        ensures draft { result ≡ record { text = []; holes = [] } }
        ensures section { self.new ≡ self.old }
    {
        self.copied = 0;
        self.in_vain = 0;
        Draft::new(
            self.alloc,
            mem::replace(&mut self.rooms, Rooms::new(self.alloc)),
        )
    }

    /// Lays out the text of the record at an offset, in which strings that are put in last are not written yet. None where
    /// the record is left: each that can't be read as a value within the limits, and where memory is short.
    pub fn lay_out(&mut self, offset: usize) -> Option<RecordText<'r>>
        ensures record { IfSome result (λ text. AppendsRecord self.old offset [] text) }
        ensures section { self.new ≡ self.old }
    {
        let mut draft = self.new_draft();
        if self.lay_out_as(offset, &mut draft) {
            return Some(RecordText { draft });
        }
        self.rooms = draft.into_rooms();
        None
    }

    /// Appends the text of a record that was laid out. Whether there was memory for it; if not, nothing is appended.
    pub fn append(&mut self, text: RecordText<'r>, out: &mut Vec<u8>) -> bool
        ensures put { result ≡ true → out.new.items ≡ out.old.items ++ text.entry }
        ensures left { result ≡ false → out.new.items ≡ out.old.items }
        ensures section { self.new ≡ self.old }
    {
        let mut draft = text.draft;
        let is_put = draft.append_to(out);
        self.rooms = draft.into_rooms();
        is_put
    }

    /// Appends the compact text of the record at an offset. False where it is left, as by `lay_out`; nothing is appended then.
    pub fn put(&mut self, offset: usize, out: &mut Vec<u8>) -> bool
        ensures put { result ≡ true → AppendsRecord self.old offset out.old.items out.new.items }
        ensures left { result ≡ false → out.new.items ≡ out.old.items }
        ensures section { self.new ≡ self.old }
    {
        let mut draft = self.new_draft();
        let is_put = self.lay_out_as(offset, &mut draft) && draft.append_to(out);
        self.rooms = draft.into_rooms();
        is_put
    }

    /// Whether the record at an offset is thought to be one that can't be read: that is noted of it, or it is noted of those
    /// that were met last. To lay such a record out is mostly for nothing, so it is better read by steps that say why it can't
    /// be.
    pub fn is_suspected(&self, offset: usize) -> bool {
        self.suspected > 0 || self.unreadable.get(offset).is_some()
    }

    // Notes that `bytes` bytes were laid out for nothing.
    fn note_in_vain(&mut self, bytes: usize)
        ensures { self.new ≡ self.old }
    {
        self.suspected = self.suspected.max(bytes / BYTES_OF_SUSPECTED);
    }

    /// Lets go of a text that was laid out for nothing, since another record that it belongs to can't be read.
    pub fn leave(&mut self, text: RecordText<'r>)
        ensures { self.new ≡ self.old }
    {
        self.note_in_vain(text.draft.reached().bytes);
        self.rooms = text.draft.into_rooms();
    }

    /// Notes that the record at an offset can't be read.
    pub fn note_unreadable(&mut self, offset: usize)
        ensures { self.new ≡ self.old }
    {
        if self.unreadable.get(offset).is_some() {
            return;
        }
        self.unreadable.put(offset, true, BYTES_OF_UNREADABLE);
        if self.suspected == 0 {
            self.span = self.span.saturating_mul(2).min(MOST_SUSPECTED);
        }
        self.suspected = self.suspected.max(self.span);
        self.note_in_vain(self.in_vain);
        self.in_vain = 0;
    }

    /// Notes that a record which was suspected can be read.
    pub fn note_readable(&mut self)
        ensures { self.new ≡ self.old }
    {
        self.suspected = self.suspected.saturating_sub(1);
    }
}
