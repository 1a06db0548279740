//! What columns show of the records of several databases, kept.
ghost use Rattle.std.specs.Prelude.{◌≡◌, ◌<◌, ℕ, List, [], Some, None, true, IfOk, IfErr, OnOk, get_or, length};
ghost use Rattle.mmdb_format.specs.Error.{MemoryApart};
ghost use Rattle.mmdb_reader.specs.declared.path.PathElement.{PathElement as SpecElement};
ghost use Rattle.mmdb_query.specs.Had.{offset_at};
ghost use Rattle.mmdb_query.specs.Reading.{reads_in, value_found, values_of, value_of};
ghost use Rattle.mmdb_query_forms.specs.Fitting.{TextsFit};
ghost use Rattle.mmdb_query_forms.specs.Kept.{AreKept, AreAllKept, KeepNone};
ghost use Rattle.mmdb_query_forms.specs.Puts.{PutsRead, PutsFound, PutsKept};
ghost use Rattle.mmdb_query_forms.specs.declared.columns.RowForm.{RowForm as SpecForm};

use crate::columns::Printer;
use mmdb_cache::Cache;
use mmdb_json::RecordTexts;
use mmdb_query::Answer;
use mmdb_reader::{MaxMindDbError, PathElement};
use std::alloc::{AllocError, Global};
use std::marker::Model;

/// No longer text is kept.
const MOST_BYTES: usize = 4096;

/// The bytes that are counted for a text beside its own.
const BYTES_OF_TEXT: usize = 32;

/// What a column shows of the records of several databases, of each by their offsets: the text of a value, or that there is
/// none. With no caches nothing is kept.
#[derive(Drop)]
pub(crate) struct KeptColumn {
    caches: Vec<Cache<Option<Vec<u8>>>>,
}

impl Model for KeptColumn {
    ghost use Rattle.std.specs.Prelude.{List};
    ghost use Rattle.mmdb_query_forms.specs.Kept.{Kept};

    ghost Value = { List Kept };

    ghost view = { λ k. k.caches.items };
}

/// Where the record of one of the databases is: the place of the database, and the offset.
#[derive(Clone, Copy)]
struct RecordPlace {
    place: usize,
    offset: usize,
}

// Adds what is kept of the record at an offset, if it is kept, and says whether there is a value.
fn put_kept(
    offset: usize,
    cache: &Cache<Option<Vec<u8>>>,
    out: &mut Vec<u8>,
) -> Result<Option<bool>, AllocError>
    ensures { (form : SpecForm) → IfOk result (λ found.
        PutsKept form cache.now offset found out.old.items out.new.items) }
{
    let Some(kept) = cache.get(offset) else {
        return Ok(None);
    };
    match kept {
        Some(text) => {
            out.extend_from_slice(text.as_slice())?;
            Ok(Some(true))
        }
        None => Ok(Some(false)),
    }
}

// Keeps the text of a value in the record at an offset, the bytes from a place on, unless it is long or there is no memory.
fn keep_text(
    alloc: Global,
    offset: usize,
    start: usize,
    out: &[u8],
    cache: &mut Cache<Option<Vec<u8>>>,
)
    ensures { (form : SpecForm) (path : List SpecElement) (s before : List ℕ)
        → length before ≡ start
        → PutsFound form (reads_in value_found s (Some offset) path) true before out.now
        → AreKept form path s cache.old → AreKept form path s cache.new }
{
    let Some(text) = out.get(start..) else {
        return;
    };
    if text.len() > MOST_BYTES {
        return;
    }
    if let Ok(text) = Vec::from_slice(alloc, text) {
        let bytes = text.len() + BYTES_OF_TEXT;
        cache.put(offset, Some(text), bytes);
    }
}

// Adds the value at the end of a path in the record at an offset, that of the database at a place, as it is read, and keeps it.
// Whether there is one.
fn put_value_anew<A: Answer>(
    printer: Printer,
    at: RecordPlace,
    path: &[PathElement<'_>],
    cache: &mut Cache<Option<Vec<u8>>>,
    answer: &A,
    out: &mut Vec<u8>,
) -> Result<bool, MaxMindDbError>
    requires offset { offset_at (A.had answer.now).offsets at.place ≡ Some at.offset }
    requires kept { AreKept printer.form path.now
        (get_or (A.sections answer.now) at.place []) cache.old }
    ensures found { IfOk result (λ found. PutsFound printer.form
        (value_of (A.sections answer.now) (A.had answer.now).offsets at.place path.now)
        found out.old.items out.new.items) }
    ensures unread { IfErr result (λ e. MemoryApart e (value_of (A.sections answer.now)
        (A.had answer.now).offsets at.place path.now ≡ None)) }
    ensures kept { AreKept printer.form path.now
        (get_or (A.sections answer.now) at.place []) cache.new }
{
    match answer.read_at(printer.alloc, at.place, path) {
        Ok(Some(value)) => {
            let start = out.len();
            printer.form.put_value(printer.alloc, &value, out)?;
            keep_text(printer.alloc, at.offset, start, out.as_slice(), cache);
            Ok(true)
        }
        Ok(None) => {
            cache.put(at.offset, None, BYTES_OF_TEXT);
            Ok(false)
        }
        Err(error) => Err(error),
    }
}

// The same by what is kept of it, where it is kept, and nothing where the database has no record.
fn put_value_at<A: Answer>(
    printer: Printer,
    place: usize,
    path: &[PathElement<'_>],
    cache: &mut Cache<Option<Vec<u8>>>,
    answer: &A,
    out: &mut Vec<u8>,
) -> Result<bool, MaxMindDbError>
    requires { AreKept printer.form path.now (get_or (A.sections answer.now) place []) cache.old }
    ensures found { IfOk result (λ found. PutsFound printer.form
        (value_of (A.sections answer.now) (A.had answer.now).offsets place path.now)
        found out.old.items out.new.items) }
    ensures unread { IfErr result (λ e. MemoryApart e (value_of (A.sections answer.now)
        (A.had answer.now).offsets place path.now ≡ None)) }
    ensures kept { AreKept printer.form path.now
        (get_or (A.sections answer.now) place []) cache.new }
{
    let Some(offset) = answer.offset(place) else {
        return Ok(false);
    };
    match put_kept(offset, cache, out)? {
        Some(found) => Ok(found),
        None => {
            let at = RecordPlace { place, offset };
            put_value_anew(printer, at, path, cache, answer, out)
        }
    }
}

// Adds the value at the end of a path, that of the first database that has one there, and says whether there is one.
fn put_first<A: Answer>(
    printer: Printer,
    path: &[PathElement<'_>],
    caches: &mut Vec<Cache<Option<Vec<u8>>>>,
    answer: &A,
    out: &mut Vec<u8>,
) -> Result<bool, MaxMindDbError>
    requires some { 0 < length caches.old.items }
    requires kept { AreAllKept printer.form path.now (A.sections answer.now) caches.old.items }
    ensures shown { OnOk result (PutsRead printer.form (values_of (A.sections answer.now)
        (A.had answer.now).offsets path.now) out.old.items out.new.items) }
    ensures unread { IfErr result (λ e. MemoryApart e (values_of (A.sections answer.now)
        (A.had answer.now).offsets path.now ≡ None)) }
    ensures kept { AreAllKept printer.form path.now (A.sections answer.now) caches.new.items }
{
    for place in 0..caches.len() {
        if put_value_at(printer, place, path, &mut caches[place], answer, out)? {
            return Ok(true);
        }
    }
    printer.form.put_none(out)?;
    Ok(false)
}

// Adds the whole record at an offset, that of the database at a place: by what is kept of it, or by its texts or as it is read, and
// then it is kept. Whether there is one.
fn put_record_at<A: Answer>(
    printer: Printer,
    at: RecordPlace,
    cache: &mut Cache<Option<Vec<u8>>>,
    texts: &mut Vec<RecordTexts<'_>>,
    answer: &A,
    out: &mut Vec<u8>,
) -> Result<bool, MaxMindDbError>
    requires offset { offset_at (A.had answer.now).offsets at.place ≡ Some at.offset }
    requires texts { TextsFit texts.old.items (A.sections answer.now) }
    requires kept { AreKept printer.form [] (get_or (A.sections answer.now) at.place []) cache.old }
    ensures shown { OnOk result (PutsRead printer.form (value_of (A.sections answer.now)
        (A.had answer.now).offsets at.place []) out.old.items out.new.items) }
    ensures unread { IfErr result (λ e. MemoryApart e (value_of (A.sections answer.now)
        (A.had answer.now).offsets at.place [] ≡ None)) }
    ensures texts { texts.new.items ≡ texts.old.items }
    ensures kept { AreKept printer.form [] (get_or (A.sections answer.now) at.place []) cache.new }
{
    match put_kept(at.offset, cache, out)? {
        Some(true) => Ok(true),
        Some(false) => {
            printer.form.put_none(out)?;
            Ok(false)
        }
        None => {
            let start = out.len();
            let has_value = printer
                .form
                .put_record(printer.alloc, at.place, texts, answer, out)?;
            if !has_value {
                return Ok(false);
            }
            keep_text(printer.alloc, at.offset, start, out.as_slice(), cache);
            Ok(true)
        }
    }
}

impl KeptColumn {
    ghost use Rattle.mmdb_query_forms.specs.Kept.{AreAllKept, KeepNone};

    /// Nothing yet of the records of so many databases. At most `most` bytes are kept of those of each.
    pub(crate) fn new(alloc: Global, count: usize, most: usize) -> Result<KeptColumn, AllocError>
        ensures { IfOk result (KeepNone count) }
    {
        let mut caches = Vec::with_capacity(alloc, count)?;
        for _ in 0..count {
            caches.push(Cache::new(alloc, most))?;
        }
        Ok(KeptColumn { caches })
    }

    /// Lets go of all that is kept.
    pub(crate) fn clear(&mut self)
        ensures { (form : SpecForm) (path : List SpecElement) (sections : List (List ℕ))
            → AreAllKept form path sections self.old → AreAllKept form path sections self.new }
    {
        for place in 0..self.caches.len() {
            self.caches[place].clear();
        }
    }

    /// Adds the value at the end of a path, that of the first database that has one there, and says whether there is one.
    #[inline(always)]
    pub(crate) fn put_along<A: Answer>(
        &mut self,
        printer: Printer,
        path: &[PathElement<'_>],
        answer: &A,
        out: &mut Vec<u8>,
    ) -> Result<bool, MaxMindDbError>
        requires { AreAllKept printer.form path.now (A.sections answer.now) self.old }
        ensures shown { OnOk result (PutsRead printer.form (values_of (A.sections answer.now)
            (A.had answer.now).offsets path.now) out.old.items out.new.items) }
        ensures unread { IfErr result (λ e. MemoryApart e (values_of (A.sections answer.now)
            (A.had answer.now).offsets path.now ≡ None)) }
        ensures kept { AreAllKept printer.form path.now (A.sections answer.now) self.new }
    {
        if self.caches.is_empty() {
            return printer.form.put_along(printer.alloc, path, answer, out);
        }
        put_first(printer, path, &mut self.caches, answer, out)
    }

    /// Adds the whole record of the database at a place, and says whether there is one.
    pub(crate) fn put_record<A: Answer>(
        &mut self,
        printer: Printer,
        place: usize,
        texts: &mut Vec<RecordTexts<'_>>,
        answer: &A,
        out: &mut Vec<u8>,
    ) -> Result<bool, MaxMindDbError>
        requires texts { TextsFit texts.old.items (A.sections answer.now) }
        requires kept { AreAllKept printer.form [] (A.sections answer.now) self.old }
        ensures shown { OnOk result (PutsRead printer.form (value_of (A.sections answer.now)
            (A.had answer.now).offsets place []) out.old.items out.new.items) }
        ensures unread { IfErr result (λ e. MemoryApart e (value_of (A.sections answer.now)
            (A.had answer.now).offsets place [] ≡ None)) }
        ensures texts { texts.new.items ≡ texts.old.items }
        ensures kept { AreAllKept printer.form [] (A.sections answer.now) self.new }
    {
        if place >= self.caches.len() {
            return printer
                .form
                .put_record(printer.alloc, place, texts, answer, out);
        }
        let Some(offset) = answer.offset(place) else {
            return printer
                .form
                .put_record(printer.alloc, place, texts, answer, out);
        };
        let at = RecordPlace { place, offset };
        put_record_at(printer, at, &mut self.caches[place], texts, answer, out)
    }
}
