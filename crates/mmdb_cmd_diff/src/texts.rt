//! The records of two databases as JSON, laid out without trees of them.
ghost use Rattle.std.specs.Prelude.{◌≡◌, ℕ, [], Some, IfSome};
ghost use Rattle.mmdb_json.specs.RecordText.{AppendsRecord};
ghost use Rattle.mmdb_cmd_diff.specs.Shown.{IsLaidOut, text_or_null, IsShown};

use crate::shown::ShownPair;
use mmdb_compare::Side;
use mmdb_json::{RecordText, RecordTexts};
use std::alloc::Global;

/// What is shown where there is no record.
const NO_RECORD: &[u8] = b"null";

/// The texts of the records of two databases.
#[derive(Drop)]
pub(crate) struct BothTexts<'r> {
    old: RecordTexts<'r>,
    new: RecordTexts<'r>,
}

// The record at an offset, if there is one, where it can be laid out so.
fn lay_out<'r>(offset: Option<usize>, texts: &mut RecordTexts<'r>) -> Option<Option<RecordText<'r>>>
    ensures laid_out { IfSome result (IsLaidOut texts.old offset) }
    ensures section { texts.new ≡ texts.old }
{
    match offset {
        Some(offset) => Some(Some(texts.lay_out(offset)?)),
        None => Some(None),
    }
}

// The text of a record that was laid out. It takes no more memory than its length.
fn record_text<'r>(
    alloc: Global,
    laid_out: RecordText<'r>,
    texts: &mut RecordTexts<'r>,
) -> Option<Vec<u8>>
    ensures text { IfSome result (λ text. text.items ≡ laid_out.entry) }
    ensures section { texts.new ≡ texts.old }
{
    let mut text = Vec::new(alloc);
    if texts.append(laid_out, &mut text) {
        text.shrink_to_fit();
        return Some(text);
    }
    None
}

// What is shown of a record that was laid out, or of no record.
fn text_of<'r>(
    alloc: Global,
    laid_out: Option<RecordText<'r>>,
    texts: &mut RecordTexts<'r>,
) -> Option<Vec<u8>>
    ensures text { IfSome result (λ text. text.items ≡ text_or_null laid_out.entry) }
    ensures section { texts.new ≡ texts.old }
{
    match laid_out {
        Some(laid_out) => record_text(alloc, laid_out, texts),
        None => NO_RECORD.to_vec(alloc).ok(),
    }
}

// Lets go of a record that was laid out needlessly, if it is one.
fn leave<'r>(laid_out: Option<RecordText<'r>>, texts: &mut RecordTexts<'r>)
    ensures { texts.new ≡ texts.old }
{
    if let Some(laid_out) = laid_out {
        texts.leave(laid_out);
    }
}

// Whether the record at an offset is thought to be one that can't be read, if there is one.
fn is_suspected(offset: Option<usize>, texts: &RecordTexts<'_>) -> bool {
    match offset {
        Some(offset) => texts.is_suspected(offset),
        None => false,
    }
}

impl<'r> BothTexts<'r> {
    /// Of the records of two data sections, of which none was met yet. At most `most` bytes are kept of each.
    pub(crate) fn new(alloc: Global, old: &'r [u8], new: &'r [u8], most: usize) -> BothTexts<'r>
        ensures old { result.old ≡ old.now }
        ensures new { result.new ≡ new.now }
    {
        BothTexts {
            old: RecordTexts::new(alloc, old, most),
            new: RecordTexts::new(alloc, new, most),
        }
    }

    /// Lets go of all that is kept.
    pub(crate) fn clear(&mut self)
        ensures old { self.exit.now.old ≡ self.entry.now.old }
        ensures new { self.exit.now.new ≡ self.entry.now.new }
    {
        self.old.clear();
        self.new.clear();
    }

    /// Notes that the record at an offset of a side can't be read.
    pub(crate) fn note_unreadable(&mut self, side: Side, offset: usize)
        ensures old { self.exit.now.old ≡ self.entry.now.old }
        ensures new { self.exit.now.new ≡ self.entry.now.new }
    {
        match side {
            Side::Old => self.old.note_unreadable(offset),
            Side::New => self.new.note_unreadable(offset),
        }
    }

    /// Notes that two records that were read to be compared can be read.
    pub(crate) fn note_readable(&mut self)
        ensures old { self.exit.now.old ≡ self.entry.now.old }
        ensures new { self.exit.now.new ≡ self.entry.now.new }
    {
        self.old.note_readable();
        self.new.note_readable();
    }

    /// What is shown of the records at these offsets, or of no record. None where one can't be laid out so or is thought not to
    /// be readable, and where there is no memory: others read it then, and say why not.
    pub(crate) fn shown(
        &mut self,
        alloc: Global,
        old: Option<usize>,
        new: Option<usize>,
    ) -> Option<ShownPair>
        ensures old { IfSome result (λ shown. IsShown self.entry.now.old old shown.old.items) }
        ensures new { IfSome result (λ shown. IsShown self.entry.now.new new shown.new.items) }
        ensures sections { (self.exit.now.old ≡ self.entry.now.old)
            × (self.exit.now.new ≡ self.entry.now.new) }
    {
        if is_suspected(old, &self.old) || is_suspected(new, &self.new) {
            return None;
        }
        let old = lay_out(old, &mut self.old)?;
        let Some(new) = lay_out(new, &mut self.new) else {
            leave(old, &mut self.old);
            return None;
        };
        Some(ShownPair {
            old: text_of(alloc, old, &mut self.old)?,
            new: text_of(alloc, new, &mut self.new)?,
        })
    }
}
