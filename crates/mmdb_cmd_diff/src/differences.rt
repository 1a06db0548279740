//! The values of networks in two databases, compared by how they are shown.
ghost use Rattle.std.specs.Prelude.{◌≡◌, ◌↔◌, ℕ, List, Option, IsTrue, true, false, IfOk, IfErr, IfSome, OnOk, option_map};
ghost use Rattle.std.specs.Io.KnownBytes.{Appends};
ghost use Rattle.std.specs.Option.{ForSome};
ghost use Rattle.mmdb_format.specs.Error.{MemoryApart};
ghost use Rattle.mmdb_reader.specs.File.{data_section};
ghost use Rattle.mmdb_reader.specs.Found.{section_asked, offset_found};
ghost use Rattle.mmdb_value.specs.Values.{value_tree};
ghost use Rattle.mmdb_compare.specs.Kept.{AreKeptAs};
ghost use Rattle.mmdb_compare.specs.Same.{Sections};
ghost use Rattle.mmdb_cmd_diff.specs.Alike.{AreAlikeIn, AreAlike, IsOfAlike, AreKeptAlike, IsUnreadable, IsUnreadableOn, IsUnread, IsFoundIn, AreFoundIn, IsRead, HaveSameText, IsTextIf};
ghost use Rattle.mmdb_cmd_diff.specs.Lines.{WritesLine, WritesNone, line_of, line_with, front_of, is_of_output, shows_records as spec_shows_records};
ghost use Rattle.mmdb_cmd_diff.specs.Seen.{HaveOneValueAt, AreSeenSame, AreKeptAsSeen};
ghost use Rattle.mmdb_cmd_diff.specs.Shown.{IsShown};
ghost use Rattle.mmdb_cmd_diff.specs.Showing.{IsNumberOf, IsShownPair, offset_at};

use crate::shown::{ShownPair, ShownPairs, number_of};
use crate::texts::BothTexts;
use json::{Token, Writer};
use mmdb_compare::{KnownPairs, Offsets, Side, SideBySide};
use mmdb_console::ProgramError;
use mmdb_json::compact;
use mmdb_layout::{
    ChosenFields, Database, Found, Layout, line_of_cells, line_of_names, write_values,
};
use mmdb_reader::{IpNetwork, MaxMindDbError};
use mmdb_value::Value;
use mmdb_value::laws::values_equal_where_same;
use std::alloc::{AllocError, Global};
use std::io::Write;

/// How many bytes are kept of what is shown of pairs, and of the texts of the records of each database: 8 MiB together.
const MOST_OF_SHOWN: usize = 2 << 20;

const MOST_OF_TEXTS: usize = 3 << 20;

/// The pairs of records of two databases that were compared last, and what is kept of their records.
#[derive(Drop)]
pub(crate) struct Pairs<'a, 'r> {
    /// How they are shown.
    pub(crate) layout: &'a Layout<'a>,
    older: &'r Database,
    newer: &'r Database,
    pub(crate) kept: KnownPairs,
    /// The records of both, read side by side.
    records: SideBySide<'r>,
    /// What is shown of pairs that differ.
    shown: ShownPairs<'r>,
    /// The texts of whole records, where those are shown.
    texts: Option<BothTexts<'r>>,
    ghost in_old: { shown.sections.in_old ≡ data_section older.now },
    ghost in_new: { shown.sections.in_new ≡ data_section newer.now },
    ghost are_whole: { shown.are_whole ≡ spec_shows_records layout.now },
    ghost texts_of_old: { ForSome texts (λ t. t.old ≡ data_section older.now) },
    ghost texts_of_new: { ForSome texts (λ t. t.new ≡ data_section newer.now) },
    ghost records_are: { records ≡ shown.sections },
}

/// Why a value can't be shown: the database that it is of, and its error.
#[derive(Drop)]
pub(crate) struct UnreadableValue {
    pub(crate) side: Side,
    pub(crate) error: MaxMindDbError,
}

impl UnreadableValue {
    // Whether memory was out.
    fn is_memory(&self) -> bool {
        matches!(self.error, MaxMindDbError::Memory)
    }
}

/// What two databases have for a network.
#[derive(Clone, Copy)]
pub(crate) struct FoundInBoth<'f, 'r> {
    pub(crate) old: Option<&'f Found<'r>>,
    pub(crate) new: Option<&'f Found<'r>>,
}

// An object of the values at some paths, each null where there is no record.
fn write_object(
    alloc: Global,
    fields: &ChosenFields<'_>,
    found: Option<&Found<'_>>,
    out: &mut Writer,
) -> Result<(), MaxMindDbError> {
    out.token(Token::BeginObject)?;
    write_values(alloc, fields, found, out)?;
    Ok(out.token(Token::EndObject)?)
}

fn values_text(
    alloc: Global,
    fields: &ChosenFields<'_>,
    found: Option<&Found<'_>>,
) -> Result<Vec<u8>, MaxMindDbError> {
    let mut out = Writer::new(Vec::with_capacity(alloc, 128)?);
    write_object(alloc, fields, found, &mut out)?;
    Ok(out.into_inner())
}

// The text of the record at an offset of a database, or of no record.
fn record_text_at(
    alloc: Global,
    database: &Database,
    offset: Option<usize>,
) -> Result<Vec<u8>, MaxMindDbError>
    ensures { IfOk result (λ text. IsShown (data_section database.now) offset text.items) }
{
    let Some(offset) = offset else {
        return Ok(b"null".to_vec(alloc)?);
    };
    let record: Value<'_> = database.stored_record(offset).decode(alloc)?;
    let text = compact(alloc, &record);
    drop(record);
    Ok(text?)
}

// The text of a record that was read, or of no record.
fn text_or_null(alloc: Global, value: &Option<Value<'_>>) -> Result<Vec<u8>, AllocError>
    ensures text { (s : List ℕ) (offset : Option ℕ)
        → IsRead s offset (option_map value_tree value.now)
        → IfOk result (λ text. IsShown s offset text.items) }
{
    match value {
        Some(value) => compact(alloc, value),
        None => b"null".to_vec(alloc),
    }
}

// The text of the record that was found, or of no record.
fn record_text(alloc: Global, found: Option<&Found<'_>>) -> Result<Vec<u8>, MaxMindDbError>
    ensures text { (s : List ℕ) → IsFoundIn s found.entry
        → IfOk result (λ text. IsShown s (offset_at found.entry) text.items) }
    ensures failed { (s : List ℕ) → IsFoundIn s found.entry → IfErr result
        (λ e. MemoryApart e (IsUnreadable s (offset_at found.entry))) }
{
    let record = match found {
        Some(found) => found.decode_path(alloc, &[])?,
        None => None,
    };
    let text = text_or_null(alloc, &record);
    drop(record);
    Ok(text?)
}

/// The value of a network as JSON: its record, or an object of the values that are asked for.
fn value_text(
    alloc: Global,
    layout: &Layout<'_>,
    found: Option<&Found<'_>>,
) -> Result<Vec<u8>, MaxMindDbError>
    ensures text { (s : List ℕ) → spec_shows_records layout.now ≡ true → IsFoundIn s found.entry
        → IfOk result (λ text. IsShown s (offset_at found.entry) text.items) }
    ensures failed { (s : List ℕ) → spec_shows_records layout.now ≡ true → IsFoundIn s found.entry
        → IfErr result (λ e. MemoryApart e (IsUnreadable s (offset_at found.entry))) }
{
    match layout {
        Layout::Records => record_text(alloc, found),
        Layout::Values(fields) | Layout::Cells(fields) => values_text(alloc, fields, found),
    }
}

// The value of a network in one of the databases.
fn text_in(
    alloc: Global,
    layout: &Layout<'_>,
    side: Side,
    found: Option<&Found<'_>>,
) -> Result<Vec<u8>, UnreadableValue>
    ensures text { (s : List ℕ) → spec_shows_records layout.now ≡ true → IsFoundIn s found.entry
        → IfOk result (λ text. IsShown s (offset_at found.entry) text.items) }
    ensures failed { (s : List ℕ) → spec_shows_records layout.now ≡ true → IsFoundIn s found.entry
        → IfErr result (λ u. MemoryApart u.error (IsUnreadable s (offset_at found.entry))) }
    ensures side { IfErr result (λ u. u.side ≡ side) }
{
    match value_text(alloc, layout, found) {
        Ok(text) => Ok(text),
        Err(error) => Err(UnreadableValue { side, error }),
    }
}

// The whole record of a network in one of the databases.
fn record_in<'r>(
    alloc: Global,
    side: Side,
    found: &Found<'r>,
) -> Result<Option<Value<'r>>, UnreadableValue>
    ensures read { IfOk result (λ value. IsRead (section_asked found.now)
        (offset_found found.now) (option_map value_tree value)) }
    ensures failed { IfErr result (λ u. MemoryApart u.error
        (IsUnreadable (section_asked found.now) (offset_found found.now))) }
    ensures side { IfErr result (λ u. u.side ≡ side) }
{
    match found.decode_path(alloc, &[]) {
        Ok(record) => Ok(record),
        Err(error) => Err(UnreadableValue { side, error }),
    }
}

// A record as JSON.
fn text_of(
    alloc: Global,
    side: Side,
    value: &Option<Value<'_>>,
) -> Result<Option<Vec<u8>>, UnreadableValue>
    ensures text { IfOk result (λ text. IsTextIf (option_map value_tree value.now)
        (option_map (λ t. t.items) text)) }
    ensures failed { IfErr result (λ u. u.error ≡ MaxMindDbError.Memory) }
{
    let Some(value) = value else {
        return Ok(None);
    };
    match compact(alloc, value) {
        Ok(text) => Ok(Some(text)),
        Err(_) => Err(UnreadableValue {
            side,
            error: MaxMindDbError::Memory,
        }),
    }
}

// Whether two records that are not equal are shown the same.
#[cold]
#[inline(never)]
fn have_same_text(
    alloc: Global,
    old: &Option<Value<'_>>,
    new: &Option<Value<'_>>,
) -> Result<bool, UnreadableValue>
    ensures same { IfOk result (λ is_same. is_same ≡ true
        → HaveSameText (option_map value_tree old.now) (option_map value_tree new.now)) }
    ensures failed { IfErr result (λ u. u.error ≡ MaxMindDbError.Memory) }
{
    let old_text = text_of(alloc, Side::Old, old)?;
    let new_text = text_of(alloc, Side::New, new)?;
    Ok(old_text == new_text)
}

// Whether two records are equal, or there is none.
fn are_equal<'r>(old: &Option<Value<'r>>, new: &Option<Value<'r>>) -> bool
    ensures { result ≡ true → option_map value_tree old.now ≡ option_map value_tree new.now }
{
    values_equal_where_same();
    match (old, new) {
        (Some(old), Some(new)) => *old == *new,
        (None, None) => true,
        _ => false,
    }
}

// Whether a record of the old database is shown as what was found in the new one.
fn is_shown_as<'r>(
    alloc: Global,
    old: &Option<Value<'r>>,
    new: &Found<'r>,
) -> Result<bool, UnreadableValue>
    ensures same { (s : Sections) (at : Option ℕ)
        → IsRead s.in_old at (option_map value_tree old.now) → section_asked new.now ≡ s.in_new
        → IfOk result (λ is_same. is_same ≡ true → AreAlikeIn s at (offset_found new.now)) }
    ensures failed { (s : Sections) (at : Option ℕ) → section_asked new.now ≡ s.in_new
        → IfErr result (λ u. MemoryApart u.error
        (IsUnreadableOn s at (offset_found new.now) u.side)) }
{
    let new = record_in(alloc, Side::New, new)?;
    let is_same = if are_equal(old, &new) {
        Ok(true)
    } else {
        have_same_text(alloc, old, &new)
    };
    drop(new);
    is_same
}

// Whether two records are shown the same, of which each is read whole.
fn are_same_values<'r>(
    alloc: Global,
    old: &Found<'r>,
    new: &Found<'r>,
) -> Result<bool, UnreadableValue>
    ensures same { (s : Sections) → section_asked old.now ≡ s.in_old
        → section_asked new.now ≡ s.in_new → IfOk result (λ is_same. is_same ≡ true
        → AreAlikeIn s (offset_found old.now) (offset_found new.now)) }
    ensures failed { (s : Sections) → section_asked old.now ≡ s.in_old
        → section_asked new.now ≡ s.in_new → IfErr result (λ u. MemoryApart u.error
        (IsUnreadableOn s (offset_found old.now) (offset_found new.now) u.side)) }
{
    let old = record_in(alloc, Side::Old, old)?;
    let is_same = is_shown_as(alloc, &old, new);
    drop(old);
    is_same
}

// Whether the values of a network in both databases are shown the same.
#[inline(never)]
fn are_same(
    alloc: Global,
    layout: &Layout<'_>,
    answers: FoundInBoth<'_, '_>,
) -> Result<bool, UnreadableValue>
    ensures same { (s : Sections) → spec_shows_records layout.now ≡ true
        → AreFoundIn s answers.entry.old answers.entry.new → IfOk result (λ is_same.
        is_same ≡ true → AreAlikeIn s (offset_at answers.entry.old) (offset_at answers.entry.new)) }
    ensures failed { (s : Sections) → spec_shows_records layout.now ≡ true
        → AreFoundIn s answers.entry.old answers.entry.new → IfErr result (λ u. MemoryApart u.error
        (IsUnreadableOn s (offset_at answers.entry.old) (offset_at answers.entry.new) u.side)) }
{
    if let (Layout::Records, Some(old), Some(new)) = (layout, answers.old, answers.new) {
        return are_same_values(alloc, old, new);
    }
    let old_text = text_in(alloc, layout, Side::Old, answers.old)?;
    let new_text = text_in(alloc, layout, Side::New, answers.new)?;
    Ok(old_text == new_text)
}

/// Where the record of what was found is, if there is one.
pub(crate) fn offset_of(found: Option<&Found<'_>>) -> Option<usize>
    ensures { result ≡ offset_at found.entry }
{
    match found {
        Some(found) => found.offset(),
        None => None,
    }
}

impl FoundInBoth<'_, '_> {
    // The offsets by which it is kept whether the pair is the same, unless one is too large.
    fn offsets(&self) -> Option<Offsets>
        ensures { IfSome result (AreKeptAs (offset_at self.now.old) (offset_at self.now.new)) }
    {
        Offsets::of(offset_of(self.old), offset_of(self.new))
    }

    // The number by which it is kept what is shown of the pair, unless an offset is too large.
    fn number(&self) -> Option<usize>
        ensures { IfSome result (IsNumberOf (offset_at self.now.old) (offset_at self.now.new)) }
    {
        number_of(offset_of(self.old), offset_of(self.new))
    }

    /// Whether others are the same records of the same databases.
    pub(crate) fn are_same_records(&self, others: FoundInBoth<'_, '_>) -> bool
        ensures old { result ≡ true → offset_at self.now.old ≡ offset_at others.entry.old }
        ensures new { result ≡ true → offset_at self.now.new ≡ offset_at others.entry.new }
    {
        offset_of(self.old) == offset_of(others.old) && offset_of(self.new) == offset_of(others.new)
    }
}

// What two databases have for a network as JSON objects of the values that are asked for.
fn shown_values(
    alloc: Global,
    fields: &ChosenFields<'_>,
    answers: FoundInBoth<'_, '_>,
) -> Result<ShownPair, MaxMindDbError> {
    Ok(ShownPair {
        old: values_text(alloc, fields, answers.old)?,
        new: values_text(alloc, fields, answers.new)?,
    })
}

// Whether whole records are shown.
fn shows_records(layout: &Layout<'_>) -> bool
    ensures { result ≡ spec_shows_records layout.now }
{
    match layout {
        Layout::Records => true,
        Layout::Values(_) | Layout::Cells(_) => false,
    }
}

// The texts of the records of two databases, where whole ones are shown.
fn texts_of<'r>(
    alloc: Global,
    layout: &Layout<'_>,
    old: &'r Database,
    new: &'r Database,
) -> Option<BothTexts<'r>>
    ensures old { ForSome result (λ texts. texts.old ≡ data_section old.now) }
    ensures new { ForSome result (λ texts. texts.new ≡ data_section new.now) }
{
    if shows_records(layout) {
        Some(BothTexts::new(alloc, old.data_section(), new.data_section(), MOST_OF_TEXTS))
    } else {
        None
    }
}

// Notes which record can't be read, so that it is not laid out again.
fn note_unreadable(
    texts: &mut BothTexts<'_>,
    unreadable: &UnreadableValue,
    answers: FoundInBoth<'_, '_>,
)
    ensures old { texts.exit.now.old ≡ texts.entry.now.old }
    ensures new { texts.exit.now.new ≡ texts.entry.now.new }
{
    let found = match unreadable.side {
        Side::Old => answers.old,
        Side::New => answers.new,
    };
    if let (false, Some(offset)) = (unreadable.is_memory(), offset_of(found)) {
        texts.note_unreadable(unreadable.side, offset);
    }
}

impl<'a, 'r> Pairs<'a, 'r> {
    /// No pairs yet.
    pub(crate) fn new(
        alloc: Global,
        layout: &'a Layout<'a>,
        old: &'r Database,
        new: &'r Database,
    ) -> Result<Pairs<'a, 'r>, AllocError>
        ensures kept { IfOk result (λ pairs. AreKeptAlike pairs.shown pairs.kept) }
        ensures old { IfOk result (λ pairs. pairs.shown.sections.in_old ≡ data_section old.now) }
        ensures new { IfOk result (λ pairs. pairs.shown.sections.in_new ≡ data_section new.now) }
        ensures whole { IfOk result
            (λ pairs. pairs.shown.are_whole ≡ spec_shows_records layout.now) }
        ensures layout { IfOk result (λ pairs. pairs.layout ≡ layout.entry) }
    {
        let (in_old, in_new) = (old.data_section(), new.data_section());
        let are_whole = shows_records(layout);
        Ok(Pairs {
            layout,
            older: old,
            newer: new,
            kept: KnownPairs::new(alloc)?,
            records: SideBySide::new(alloc, in_old, in_new)?,
            shown: ShownPairs::new(alloc, in_old, in_new, are_whole, MOST_OF_SHOWN),
            texts: texts_of(alloc, layout, old, new),
        })
    }

    /// Lets go of all that is kept as text.
    #[cold]
    #[inline(never)]
    pub(crate) fn let_go(&mut self)
        ensures shown { self.new.shown ≡ self.old.shown }
        ensures kept { self.new.kept ≡ self.old.kept }
        ensures layout { self.new.layout ≡ self.old.layout }
    {
        self.shown.clear();
        if let Some(texts) = &mut self.texts {
            texts.clear();
        }
    }

    /// Says of two records that are kept as the same that they came last.
    pub(crate) fn keep_last(&mut self, offsets: Option<Offsets>)
        ensures kept { AreKeptAlike self.old.shown self.old.kept
            → ForSome offsets (IsOfAlike self.old.shown)
            → AreKeptAlike self.old.shown self.new.kept }
        ensures shown { self.new.shown ≡ self.old.shown }
        ensures layout { self.new.layout ≡ self.old.layout }
    {
        self.kept.keep_last(offsets);
    }

    // What two databases have for a network, where whole records are shown and both can be laid out without a tree.
    fn laid_out(&mut self, alloc: Global, answers: FoundInBoth<'_, '_>) -> Option<ShownPair>
        ensures pair { IfSome result
            (IsShownPair self.old.shown
            (offset_at answers.entry.old) (offset_at answers.entry.new)) }
        ensures shown { self.new.shown ≡ self.old.shown }
        ensures kept { self.new.kept ≡ self.old.kept }
        ensures layout { self.new.layout ≡ self.old.layout }
    {
        match &mut self.texts {
            Some(texts) => texts.shown(alloc, offset_of(answers.old), offset_of(answers.new)),
            None => None,
        }
    }

    // Whether the same is shown. What differs is shown next.
    fn is_shown_same(&mut self, answers: FoundInBoth<'_, '_>, shown: ShownPair) -> bool
        requires { IsShownPair self.old.shown (offset_at answers.old) (offset_at answers.new)
            shown }
        ensures same { IsTrue result ↔ (shown.old.items ≡ shown.new.items) }
        ensures shown { self.new.shown ≡ self.old.shown }
        ensures kept { self.new.kept ≡ self.old.kept }
        ensures layout { self.new.layout ≡ self.old.layout }
    {
        if shown.old == shown.new {
            return true;
        }
        if let Some(number) = answers.number() {
            self.shown.note_last(number, shown);
        }
        false
    }

    // Compares what was found for a network in both databases, of which each value is read.
    fn compare_values(
        &mut self,
        alloc: Global,
        answers: FoundInBoth<'_, '_>,
    ) -> Result<bool, UnreadableValue>
        ensures same { AreFoundIn self.old.shown.sections answers.entry.old answers.entry.new
            → IfOk result (λ is_same. is_same ≡ true → AreAlike self.old.shown
            (offset_at answers.entry.old) (offset_at answers.entry.new)) }
        ensures failed { AreFoundIn self.old.shown.sections answers.entry.old answers.entry.new
            → IfErr result (λ u. MemoryApart u.error (IsUnread self.old.shown
            (offset_at answers.entry.old) (offset_at answers.entry.new) u.side)) }
        ensures shown { self.new.shown ≡ self.old.shown }
        ensures kept { self.new.kept ≡ self.old.kept }
        ensures layout { self.new.layout ≡ self.old.layout }
    {
        let is_same = are_same(alloc, self.layout, answers);
        self.note(&is_same, answers);
        is_same
    }

    // Compares what was found for a network in both databases.
    #[inline(never)]
    fn compare(
        &mut self,
        alloc: Global,
        answers: FoundInBoth<'_, '_>,
    ) -> Result<bool, UnreadableValue>
        ensures same { AreFoundIn self.old.shown.sections answers.entry.old answers.entry.new
            → IfOk result (λ is_same. is_same ≡ true → AreAlike self.old.shown
            (offset_at answers.entry.old) (offset_at answers.entry.new)) }
        ensures failed { AreFoundIn self.old.shown.sections answers.entry.old answers.entry.new
            → IfErr result (λ u. MemoryApart u.error (IsUnread self.old.shown
            (offset_at answers.entry.old) (offset_at answers.entry.new) u.side)) }
        ensures shown { self.new.shown ≡ self.old.shown }
        ensures kept { self.new.kept ≡ self.old.kept }
        ensures layout { self.new.layout ≡ self.old.layout }
    {
        self.shown.forget_last();
        match self.laid_out(alloc, answers) {
            Some(shown) => Ok(self.is_shown_same(answers, shown)),
            None => self.compare_values(alloc, answers),
        }
    }

    // Notes whether two records that were compared can be read, and if not, which one can't.
    fn note(&mut self, compared: &Result<bool, UnreadableValue>, answers: FoundInBoth<'_, '_>)
        ensures shown { self.new.shown ≡ self.old.shown }
        ensures kept { self.new.kept ≡ self.old.kept }
        ensures layout { self.new.layout ≡ self.old.layout }
    {
        let Some(texts) = &mut self.texts else {
            return;
        };
        match compared {
            Ok(_) => texts.note_readable(),
            Err(unreadable) => note_unreadable(texts, unreadable, answers),
        }
    }

    // Whether whole records are shown and those at two offsets are seen to be equal.
    #[inline(always)]
    fn are_equal(&mut self, old: Option<usize>, new: Option<usize>) -> bool
        ensures same { result ≡ true → HaveOneValueAt self.old.records old new }
        ensures shown { self.new.shown ≡ self.old.shown }
        ensures layout { self.new.layout ≡ self.old.layout }
        ensures records { self.new.records ≡ self.old.records }
        ensures kept { self.new.kept ≡ self.old.kept }
    {
        match (shows_records(self.layout), old, new) {
            (true, Some(old), Some(new)) => self.records.have_equal(old, new),
            _ => false,
        }
    }

    /// Whether the records at two offsets are seen to be shown the same, before they are looked up: they were compared, or
    /// are equal whole records. Of others `is_same` says it.
    pub(crate) fn is_seen_same(&mut self, offsets: Offsets) -> bool
        ensures same { result ≡ true → AreSeenSame self.old.records self.old.kept offsets }
        ensures alike { AreKeptAlike self.old.shown self.old.kept → result ≡ true
            → IsOfAlike self.old.shown offsets }
        ensures all { AreKeptAlike self.old.shown self.old.kept
            → AreKeptAlike self.old.shown self.new.kept }
        ensures shown { self.new.shown ≡ self.old.shown }
        ensures layout { self.new.layout ≡ self.old.layout }
        ensures kept { AreKeptAsSeen self.old.records self.old.kept self.new.kept }
        ensures records { self.new.records ≡ self.old.records }
    {
        if let Some(is_same) = self.kept.kept(offsets) {
            return is_same;
        }
        let Some((old, new)) = offsets.both() else {
            return false;
        };
        if !self.are_equal(Some(old), Some(new)) {
            return false;
        }
        self.kept.keep(offsets, true);
        true
    }

    // Whether a network is shown the same in both databases, as far as there is memory.
    #[inline(always)]
    fn try_same(
        &mut self,
        alloc: Global,
        answers: FoundInBoth<'_, '_>,
    ) -> Result<bool, UnreadableValue>
        ensures same { AreFoundIn self.old.shown.sections answers.entry.old answers.entry.new
            → AreKeptAlike self.old.shown self.old.kept
            → IfOk result (λ is_same. is_same ≡ true → AreAlike self.old.shown
            (offset_at answers.entry.old) (offset_at answers.entry.new)) }
        ensures failed { AreFoundIn self.old.shown.sections answers.entry.old answers.entry.new
            → IfErr result (λ u. MemoryApart u.error (IsUnread self.old.shown
            (offset_at answers.entry.old) (offset_at answers.entry.new) u.side)) }
        ensures shown { self.new.shown ≡ self.old.shown }
        ensures kept { AreFoundIn self.old.shown.sections answers.entry.old answers.entry.new
            → AreKeptAlike self.old.shown self.old.kept
            → AreKeptAlike self.old.shown self.new.kept }
        ensures layout { self.new.layout ≡ self.old.layout }
    {
        let Some(offsets) = answers.offsets() else {
            let (old, new) = (offset_of(answers.old), offset_of(answers.new));
            if self.are_equal(old, new) {
                return Ok(true);
            }
            return self.compare(alloc, answers);
        };
        if let Some(is_same) = self.kept.kept(offsets) {
            return Ok(is_same);
        }
        let is_same = self.compare(alloc, answers)?;
        self.kept.keep(offsets, is_same);
        Ok(is_same)
    }

    // Whether a network is shown the same in both databases, of which each value is read.
    #[cold]
    #[inline(never)]
    fn is_same_by_values(
        &mut self,
        alloc: Global,
        answers: FoundInBoth<'_, '_>,
    ) -> Result<bool, UnreadableValue>
        ensures same { AreFoundIn self.old.shown.sections answers.entry.old answers.entry.new
            → IfOk result (λ is_same. is_same ≡ true → AreAlike self.old.shown
            (offset_at answers.entry.old) (offset_at answers.entry.new)) }
        ensures failed { AreFoundIn self.old.shown.sections answers.entry.old answers.entry.new
            → IfErr result (λ u. MemoryApart u.error (IsUnread self.old.shown
            (offset_at answers.entry.old) (offset_at answers.entry.new) u.side)) }
        ensures shown { self.new.shown ≡ self.old.shown }
        ensures kept { AreFoundIn self.old.shown.sections answers.entry.old answers.entry.new
            → AreKeptAlike self.old.shown self.old.kept
            → AreKeptAlike self.old.shown self.new.kept }
        ensures layout { self.new.layout ≡ self.old.layout }
    {
        let is_same = self.compare_values(alloc, answers)?;
        if let Some(offsets) = answers.offsets() {
            self.kept.keep(offsets, is_same);
        }
        Ok(is_same)
    }

    /// Whether a network is shown the same in both databases. Where there is no memory, all that is kept as text is let go,
    /// and it is tried once more, with the memory of two values alone.
    pub(crate) fn is_same(
        &mut self,
        alloc: Global,
        answers: FoundInBoth<'_, '_>,
    ) -> Result<bool, UnreadableValue>
        ensures same { AreFoundIn self.old.shown.sections answers.entry.old answers.entry.new
            → AreKeptAlike self.old.shown self.old.kept
            → IfOk result (λ is_same. is_same ≡ true → AreAlike self.old.shown
            (offset_at answers.entry.old) (offset_at answers.entry.new)) }
        ensures failed { AreFoundIn self.old.shown.sections answers.entry.old answers.entry.new
            → IfErr result (λ u. MemoryApart u.error (IsUnread self.old.shown
            (offset_at answers.entry.old) (offset_at answers.entry.new) u.side)) }
        ensures shown { self.new.shown ≡ self.old.shown }
        ensures kept { AreFoundIn self.old.shown.sections answers.entry.old answers.entry.new
            → AreKeptAlike self.old.shown self.old.kept
            → AreKeptAlike self.old.shown self.new.kept }
        ensures layout { self.new.layout ≡ self.old.layout }
    {
        match self.try_same(alloc, answers) {
            Err(unreadable) if unreadable.is_memory() => {
                drop(unreadable);
                self.let_go();
                self.is_same_by_values(alloc, answers)
            }
            done => done,
        }
    }

    // What two databases have for a network as JSON, of which each value is read.
    fn shown_by_values(
        &self,
        alloc: Global,
        answers: FoundInBoth<'_, '_>,
    ) -> Result<ShownPair, MaxMindDbError>
        ensures { IfOk result
            (IsShownPair self.now.shown
            (offset_at answers.entry.old) (offset_at answers.entry.new)) }
    {
        match self.layout {
            Layout::Records => Ok(ShownPair {
                old: record_text_at(alloc, self.older, offset_of(answers.old))?,
                new: record_text_at(alloc, self.newer, offset_of(answers.new))?,
            }),
            Layout::Values(fields) | Layout::Cells(fields) => shown_values(alloc, fields, answers),
        }
    }

    // What two databases have for a network as JSON.
    fn shown_of(
        &mut self,
        alloc: Global,
        answers: FoundInBoth<'_, '_>,
    ) -> Result<ShownPair, MaxMindDbError>
        ensures pair { IfOk result
            (IsShownPair self.old.shown
            (offset_at answers.entry.old) (offset_at answers.entry.new)) }
        ensures shown { self.new.shown ≡ self.old.shown }
        ensures kept { self.new.kept ≡ self.old.kept }
        ensures layout { self.new.layout ≡ self.old.layout }
    {
        match self.laid_out(alloc, answers) {
            Some(shown) => Ok(shown),
            None => self.shown_by_values(alloc, answers),
        }
    }

    // What is shown of two answers, kept from now on by the number of their records.
    fn shown_anew(
        &mut self,
        alloc: Global,
        number: usize,
        answers: FoundInBoth<'_, '_>,
    ) -> Result<ShownPair, MaxMindDbError>
        requires { IsNumberOf (offset_at answers.old) (offset_at answers.new) number }
        ensures pair { IfOk result
            (IsShownPair self.old.shown
            (offset_at answers.entry.old) (offset_at answers.entry.new)) }
        ensures shown { self.new.shown ≡ self.old.shown }
        ensures kept { self.new.kept ≡ self.old.kept }
        ensures layout { self.new.layout ≡ self.old.layout }
    {
        let shown = self.shown_of(alloc, answers)?;
        self.shown.keep(alloc, number, &shown);
        Ok(shown)
    }

    // What is shown of two answers, which may be kept, as far as there is memory.
    #[inline(always)]
    fn try_shown(
        &mut self,
        alloc: Global,
        answers: FoundInBoth<'_, '_>,
    ) -> Result<ShownPair, MaxMindDbError>
        ensures pair { IfOk result
            (IsShownPair self.old.shown
            (offset_at answers.entry.old) (offset_at answers.entry.new)) }
        ensures shown { self.new.shown ≡ self.old.shown }
        ensures kept { self.new.kept ≡ self.old.kept }
        ensures layout { self.new.layout ≡ self.old.layout }
    {
        let Some(number) = answers.number() else {
            return self.shown_of(alloc, answers);
        };
        match self.shown.kept(alloc, number)? {
            Some(shown) => Ok(shown),
            None => self.shown_anew(alloc, number, answers),
        }
    }

    /// What is shown of two answers, which may be kept. Where there is no memory, all that is kept as text is let go, and
    /// each value is read.
    pub(crate) fn shown_by(
        &mut self,
        alloc: Global,
        answers: FoundInBoth<'_, '_>,
    ) -> Result<ShownPair, MaxMindDbError>
        ensures pair { IfOk result
            (IsShownPair self.old.shown
            (offset_at answers.entry.old) (offset_at answers.entry.new)) }
        ensures shown { self.new.shown ≡ self.old.shown }
        ensures kept { self.new.kept ≡ self.old.kept }
        ensures layout { self.new.layout ≡ self.old.layout }
    {
        match self.try_shown(alloc, answers) {
            Err(MaxMindDbError::Memory) => {
                self.let_go();
                self.shown_by_values(alloc, answers)
            }
            done => done,
        }
    }
}

// Writes some bytes.
#[inline(always)]
fn put<O: Write>(bytes: &[u8], out: &mut O) -> Result<(), ProgramError>
    ensures written { OnOk result (Appends (O.contents out.old) (O.contents out.new) bytes.now) }
    ensures failed { IfErr result (λ e. is_of_output e ≡ true) }
{
    match out.write_all(bytes) {
        Ok(()) => Ok(()),
        Err(error) => Err(ProgramError::Write(error)),
    }
}

// Puts the beginning of a line of JSON together, up to the value of the old database.
fn begin_line(network: IpNetwork, line: &mut Vec<u8>) -> Result<(), AllocError>
    ensures { OnOk result (line.new.items ≡ front_of network) }
{
    line.clear();
    line.extend_from_slice(b"{\"network\":\"")?;
    network.push_text(line)?;
    line.extend_from_slice(b"\",\"old\":")
}

// Writes the parts of a line of JSON.
fn put_parts<O: Write>(front: &[u8], shown: &ShownPair, out: &mut O) -> Result<(), ProgramError>
    ensures written { OnOk result (Appends (O.contents out.old) (O.contents out.new)
        (line_with front.now shown.now)) }
    ensures failed { IfErr result (λ e. is_of_output e ≡ true) }
{
    put(front, out)?;
    put(shown.old.as_slice(), out)?;
    put(b",\"new\":", out)?;
    put(shown.new.as_slice(), out)?;
    put(b"}\n", out)
}

// Writes a line of JSON.
fn put_object<O: Write>(
    network: IpNetwork,
    shown: &ShownPair,
    line: &mut Vec<u8>,
    out: &mut O,
) -> Result<(), ProgramError>
    ensures written { OnOk result (Appends (O.contents out.old) (O.contents out.new)
        (line_of network shown.now)) }
    ensures failed { IfErr result (WritesNone (O.contents out.old) (O.contents out.new)) }
{
    begin_line(network, line)?;
    put_parts(line.as_slice(), shown, out)
}

// Writes a line of cells.
fn put_cells<O: Write>(
    alloc: Global,
    fields: &ChosenFields<'_>,
    network: IpNetwork,
    answers: FoundInBoth<'_, '_>,
    out: &mut O,
) -> Result<(), ProgramError>
    ensures written { OnOk result ((text : List ℕ)
        × Appends (O.contents out.old) (O.contents out.new) text) }
    ensures failed { IfErr result (WritesNone (O.contents out.old) (O.contents out.new)) }
{
    let text = network.to_string(alloc)?;
    let line = line_of_cells(alloc, fields, text.as_str(), &[answers.old, answers.new])?;
    put(line.as_slice(), out)
}

/// What two databases have for a network, and what is shown of it.
#[derive(Clone, Copy)]
pub(crate) struct PairOfNetwork<'f, 'r> {
    pub(crate) answers: FoundInBoth<'f, 'r>,
    pub(crate) shown: &'f ShownPair,
}

/// Writes the line of a network with its values in both databases. Of a line of JSON the beginning is put together in
/// `line`. Nothing is written where memory is out.
pub(crate) fn put_difference<O: Write>(
    alloc: Global,
    layout: &Layout<'_>,
    network: IpNetwork,
    pair: PairOfNetwork<'_, '_>,
    line: &mut Vec<u8>,
    out: &mut O,
) -> Result<(), ProgramError>
    ensures written { OnOk result (WritesLine layout.now network pair.entry.shown.now
        (O.contents out.old) (O.contents out.new)) }
    ensures failed { IfErr result (WritesNone (O.contents out.old) (O.contents out.new)) }
{
    match layout {
        Layout::Cells(fields) => put_cells(alloc, fields, network, pair.answers, out),
        Layout::Records | Layout::Values(_) => put_object(network, pair.shown, line, out),
    }
}

/// Writes the line of the columns' names, where there are columns.
pub(crate) fn put_names<O: Write>(
    alloc: Global,
    layout: &Layout<'_>,
    out: &mut O,
) -> Result<(), ProgramError> {
    match layout {
        Layout::Cells(fields) => {
            let line = line_of_names(alloc, &["old.", "new."], fields.names.as_slice())?;
            put(line.as_slice(), out)
        }
        Layout::Records | Layout::Values(_) => Ok(()),
    }
}
