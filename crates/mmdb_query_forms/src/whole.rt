//! Whole records in rows.
ghost use Rattle.std.specs.Prelude.{◌≡◌, [], Some, None, IfOk, IfErr, OnOk, get_or, true, false};
ghost use Rattle.mmdb_format.specs.Error.{MemoryApart};
ghost use Rattle.mmdb_query.specs.Had.{offset_at};
ghost use Rattle.mmdb_query.specs.Reading.{reads_in, value_found, value_of};
ghost use Rattle.mmdb_query_forms.specs.Fitting.{TextsFit};
ghost use Rattle.mmdb_query_forms.specs.Kept.{has_value};
ghost use Rattle.mmdb_query_forms.specs.Puts.{PutsRead};
ghost use Rattle.mmdb_query_forms.specs.declared.columns.RowForm.TheVariants.{Json};

use crate::columns::RowForm;
use mmdb_json::RecordTexts;
use mmdb_query::Answer;
use mmdb_reader::MaxMindDbError;
use std::alloc::Global;

// Adds the record at an offset by the texts of the records there. False where it is left, or suspected not to be readable;
// nothing is added then.
#[tactic(auto, using(crate::proofs::RecordLaws::record_put, crate::proofs::RecordLaws::record_found))]
fn put_text(texts: &mut RecordTexts<'_>, offset: usize, out: &mut Vec<u8>) -> bool
    ensures shown { result ≡ true → PutsRead Json
        (reads_in value_found texts.old (Some offset) []) out.old.items out.new.items }
    ensures found { result ≡ true → has_value
        (reads_in value_found texts.old (Some offset) []) ≡ true }
    ensures left { result ≡ false → out.new.items ≡ out.old.items }
    ensures section { texts.new ≡ texts.old }
{
    if texts.is_suspected(offset) {
        return false;
    }
    texts.put(offset, out)
}

// Adds what is read of the record of the database at a place, and notes whether it can be.
#[inline(never)]
fn put_noted<A: Answer>(
    alloc: Global,
    place: usize,
    offset: usize,
    texts: &mut RecordTexts<'_>,
    answer: &A,
    out: &mut Vec<u8>,
) -> Result<bool, MaxMindDbError>
    ensures shown { OnOk result (PutsRead Json (value_of (A.sections answer.now)
        (A.had answer.now).offsets place []) out.old.items out.new.items) }
    ensures unread { IfErr result (λ e. MemoryApart e (value_of (A.sections answer.now)
        (A.had answer.now).offsets place [] ≡ None)) }
    ensures found { IfOk result (λ found. found ≡ has_value (value_of
        (A.sections answer.now) (A.had answer.now).offsets place [])) }
    ensures section { texts.new ≡ texts.old }
{
    match RowForm::Json.put_whole(alloc, place, answer, out) {
        Ok(has_value) => {
            texts.note_readable();
            Ok(has_value)
        }
        Err(MaxMindDbError::Memory) => Err(MaxMindDbError::Memory),
        Err(error) => {
            texts.note_unreadable(offset);
            Err(error)
        }
    }
}

// Adds the record at an offset, that of the database at a place, by the texts of its records, or as it is read where they leave
// it.
#[inline(always)]
fn put_by_texts<A: Answer>(
    alloc: Global,
    place: usize,
    offset: usize,
    texts: &mut RecordTexts<'_>,
    answer: &A,
    out: &mut Vec<u8>,
) -> Result<bool, MaxMindDbError>
    requires offset { offset_at (A.had answer.now).offsets place ≡ Some offset }
    requires section { texts.old ≡ get_or (A.sections answer.now) place [] }
    ensures shown { OnOk result (PutsRead Json (value_of (A.sections answer.now)
        (A.had answer.now).offsets place []) out.old.items out.new.items) }
    ensures unread { IfErr result (λ e. MemoryApart e (value_of (A.sections answer.now)
        (A.had answer.now).offsets place [] ≡ None)) }
    ensures found { IfOk result (λ found. found ≡ has_value (value_of
        (A.sections answer.now) (A.had answer.now).offsets place [])) }
    ensures section { texts.new ≡ texts.old }
{
    if put_text(texts, offset, out) {
        return Ok(true);
    }
    put_noted(alloc, place, offset, texts, answer, out)
}

/// Adds the whole record of the database at a place as JSON, and says whether there is one.
#[tactic(auto, using(crate::proofs::RecordLaws::of_section, crate::proofs::RecordLaws::written_back))]
#[inline(always)]
pub(crate) fn put_record<A: Answer>(
    alloc: Global,
    place: usize,
    texts: &mut Vec<RecordTexts<'_>>,
    answer: &A,
    out: &mut Vec<u8>,
) -> Result<bool, MaxMindDbError>
    requires { TextsFit texts.old.items (A.sections answer.now) }
    ensures shown { OnOk result (PutsRead Json (value_of (A.sections answer.now)
        (A.had answer.now).offsets place []) out.old.items out.new.items) }
    ensures unread { IfErr result (λ e. MemoryApart e (value_of (A.sections answer.now)
        (A.had answer.now).offsets place [] ≡ None)) }
    ensures found { IfOk result (λ found. found ≡ has_value (value_of
        (A.sections answer.now) (A.had answer.now).offsets place [])) }
    ensures texts { texts.new.items ≡ texts.old.items }
{
    if place >= texts.len() {
        return RowForm::Json.put_whole(alloc, place, answer, out);
    }
    match answer.offset(place) {
        Some(offset) => put_by_texts(alloc, place, offset, &mut texts[place], answer, out),
        None => RowForm::Json.put_whole(alloc, place, answer, out),
    }
}
