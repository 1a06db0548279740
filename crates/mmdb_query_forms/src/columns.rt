//! Rows of columns: cells of CSV, or objects of JSON.
ghost use Rattle.std.specs.Prelude.{◌≡◌, ◌<◌, [], Some, None, option_map, is_some, get_or, length, IfOk, IfErr, OnOk};
ghost use Rattle.mmdb_format.specs.Contents.{text as text_content};
ghost use Rattle.mmdb_format.specs.Error.{MemoryApart};
ghost use Rattle.mmdb_format.specs.Unfolding.{scalar};
ghost use Rattle.mmdb_value.specs.Values.{value_tree};
ghost use Rattle.mmdb_query.specs.Reading.{values_of, value_of};
ghost use Rattle.mmdb_query_forms.specs.Columns.{readings_of, read_by, label_of, front_of as spec_front_of, behind_network as spec_behind_network, end_of as spec_end_of, AnyUnread};
ghost use Rattle.mmdb_query_forms.specs.Fitting.{TextsFit, ScratchFits};
ghost use Rattle.mmdb_query_forms.specs.Kept.{SourceFits, has_value};
ghost use Rattle.mmdb_query_forms.specs.Puts.{PutsValue, PutsRead, PutsColumn, PutsColumns};
ghost use Rattle.mmdb_query_forms.specs.declared.columns.RowForm.TheVariants.{Csv, Json};

use crate::column::{Column, ColumnSource};
use crate::kept::KeptColumn;
use crate::scratch::ColumnScratch;
use crate::whole::put_record;
use mmdb_filter::put_csv_cell;
use mmdb_json::{RecordTexts, compact};
use mmdb_query::{Answer, Template};
use mmdb_reader::{MaxMindDbError, PathElement};
use mmdb_value::Value;
use std::alloc::{AllocError, Global};

/// How rows look.
#[derive(Clone, Copy)]
pub enum RowForm {
    /// Cells after commas.
    Csv,
    /// An object of JSON in each line.
    Json,
}

/// How what is read is shown, and the memory that this takes.
#[derive(Clone, Copy)]
pub(crate) struct Printer {
    pub(crate) form: RowForm,
    pub(crate) alloc: Global,
}

// Adds the JSON of a value.
fn put_json(alloc: Global, value: &Value<'_>, out: &mut Vec<u8>) -> Result<(), AllocError>
    ensures { OnOk result
        (PutsValue Json (Some (value_tree value.now)) out.old.items out.new.items) }
{
    let json = compact(alloc, value)?;
    out.extend_from_slice(json.as_slice())
}

// Adds the cell of a text.
fn put_text(text: &str, out: &mut Vec<u8>) -> Result<(), AllocError>
    ensures { OnOk result
        (PutsValue Csv (Some (scalar (text_content text.now))) out.old.items out.new.items) }
{
    put_csv_cell(b',', text.as_bytes(), out)
}

// Adds the cell of a value.
fn put_cell(alloc: Global, value: &Value<'_>, out: &mut Vec<u8>) -> Result<(), AllocError>
    ensures { OnOk result
        (PutsValue Csv (Some (value_tree value.now)) out.old.items out.new.items) }
{
    if let Value::String(text) = value {
        return put_text(*text, out);
    }
    let json = compact(alloc, value)?;
    put_csv_cell(b',', json.as_slice(), out)
}

impl RowForm {
    // What comes before a column's value.
    fn label<'c>(self, column: &'c Column<'_>) -> &'c [u8]
        ensures { result.now ≡ label_of self column.now }
    {
        match self {
            RowForm::Csv => b",",
            RowForm::Json => column.label(),
        }
    }

    // What each row has before its network.
    fn front(self) -> &'static [u8]
        ensures { result.now ≡ spec_front_of self }
    {
        match self {
            RowForm::Csv => b"",
            RowForm::Json => b"{\"network\":\"",
        }
    }

    // What each row has right behind its network.
    fn behind_network(self) -> &'static [u8]
        ensures { result.now ≡ spec_behind_network self }
    {
        match self {
            RowForm::Csv => b"",
            RowForm::Json => b"\"",
        }
    }

    // What each row has at its end.
    fn end(self) -> &'static [u8]
        ensures { result.now ≡ spec_end_of self }
    {
        match self {
            RowForm::Csv => b"\n",
            RowForm::Json => b"}\n",
        }
    }

    /// Adds a value.
    pub(crate) fn put_value(
        self,
        alloc: Global,
        value: &Value<'_>,
        out: &mut Vec<u8>,
    ) -> Result<(), AllocError>
        ensures { OnOk result
            (PutsValue self (Some (value_tree value.now)) out.old.items out.new.items) }
    {
        match self {
            RowForm::Csv => put_cell(alloc, value, out),
            RowForm::Json => put_json(alloc, value, out),
        }
    }

    /// Adds what shows that there is no value.
    pub(crate) fn put_none(self, out: &mut Vec<u8>) -> Result<(), AllocError>
        ensures { OnOk result (PutsValue self None out.old.items out.new.items) }
    {
        match self {
            RowForm::Csv => Ok(()),
            RowForm::Json => out.extend_from_slice(b"null"),
        }
    }

    // Adds what was read, and says whether there is a value.
    #[inline(always)]
    fn put_option(
        self,
        alloc: Global,
        value: &Option<Value<'_>>,
        out: &mut Vec<u8>,
    ) -> Result<bool, AllocError>
        ensures shown { OnOk result
            (PutsValue self (option_map value_tree value.now) out.old.items out.new.items) }
        ensures found { IfOk result (λ found. found ≡ is_some value.now) }
    {
        match value {
            Some(value) => self.put_value(alloc, value, out)?,
            None => self.put_none(out)?,
        }
        Ok(value.is_some())
    }

    /// Adds the value at the end of a path as it is read, that of the first database that has one there, and says whether there is
    /// one.
    #[inline(always)]
    pub(crate) fn put_along<A: Answer>(
        self,
        alloc: Global,
        path: &[PathElement<'_>],
        answer: &A,
        out: &mut Vec<u8>,
    ) -> Result<bool, MaxMindDbError>
        ensures shown { OnOk result (PutsRead self (values_of (A.sections answer.now)
            (A.had answer.now).offsets path.now) out.old.items out.new.items) }
        ensures unread { IfErr result (λ e. MemoryApart e (values_of (A.sections answer.now)
            (A.had answer.now).offsets path.now ≡ None)) }
    {
        match answer.read_along(alloc, path) {
            Ok(value) => Ok(self.put_option(alloc, &value, out)?),
            Err(error) => Err(error),
        }
    }

    /// Adds the whole record of the database at a place as it is read, and says whether there is one.
    #[tactic(auto, using(crate::proofs::RecordLaws::found_as_read))]
    pub(crate) fn put_whole<A: Answer>(
        self,
        alloc: Global,
        place: usize,
        answer: &A,
        out: &mut Vec<u8>,
    ) -> Result<bool, MaxMindDbError>
        ensures shown { OnOk result (PutsRead self (value_of (A.sections answer.now)
            (A.had answer.now).offsets place []) out.old.items out.new.items) }
        ensures unread { IfErr result (λ e. MemoryApart e (value_of (A.sections answer.now)
            (A.had answer.now).offsets place [] ≡ None)) }
        ensures found { IfOk result (λ found. found ≡ has_value (value_of
            (A.sections answer.now) (A.had answer.now).offsets place [])) }
    {
        match answer.read_at(alloc, place, &[]) {
            Ok(value) => Ok(self.put_option(alloc, &value, out)?),
            Err(error) => Err(error),
        }
    }

    /// Adds the whole record of the database at a place, by its texts or as it is read, and says whether there is one.
    #[inline(always)]
    pub(crate) fn put_record<A: Answer>(
        self,
        alloc: Global,
        place: usize,
        texts: &mut Vec<RecordTexts<'_>>,
        answer: &A,
        out: &mut Vec<u8>,
    ) -> Result<bool, MaxMindDbError>
        requires { TextsFit texts.old.items (A.sections answer.now) }
        ensures shown { OnOk result (PutsRead self (value_of (A.sections answer.now)
            (A.had answer.now).offsets place []) out.old.items out.new.items) }
        ensures unread { IfErr result (λ e. MemoryApart e (value_of (A.sections answer.now)
            (A.had answer.now).offsets place [] ≡ None)) }
        ensures found { IfOk result (λ found. found ≡ has_value (value_of
            (A.sections answer.now) (A.had answer.now).offsets place [])) }
        ensures texts { texts.new.items ≡ texts.old.items }
    {
        match self {
            RowForm::Csv => self.put_whole(alloc, place, answer, out),
            RowForm::Json => put_record(alloc, place, texts, answer, out),
        }
    }
}

impl Printer {
    // Adds what a column shows of what databases have, and says whether there is a value.
    #[inline(always)]
    fn put_read<A: Answer>(
        self,
        source: &ColumnSource<'_>,
        texts: &mut Vec<RecordTexts<'_>>,
        kept: &mut KeptColumn,
        answer: &A,
        out: &mut Vec<u8>,
    ) -> Result<bool, MaxMindDbError>
        requires texts { TextsFit texts.old.items (A.sections answer.now) }
        requires kept { SourceFits self.form source.now (A.sections answer.now) kept.old }
        ensures shown { OnOk result (PutsRead self.form (read_by source.now
            (readings_of (A.sections answer.now) (A.had answer.now).offsets))
            out.old.items out.new.items) }
        ensures unread { IfErr result (λ e. MemoryApart e (read_by source.now
            (readings_of (A.sections answer.now) (A.had answer.now).offsets) ≡ None)) }
        ensures texts { texts.new.items ≡ texts.old.items }
        ensures kept { SourceFits self.form source.now (A.sections answer.now) kept.new }
    {
        match source {
            ColumnSource::Path(path) => { kept.put_along(self, path.as_slice(), answer, out) }
            ColumnSource::Record(place) => { kept.put_record(self, *place, texts, answer, out) }
        }
    }

    // Adds a column of what databases have, and says whether there is a value.
    #[inline(always)]
    fn put_column<A: Answer>(
        self,
        column: &Column<'_>,
        texts: &mut Vec<RecordTexts<'_>>,
        kept: &mut KeptColumn,
        answer: &A,
        out: &mut Vec<u8>,
    ) -> Result<bool, MaxMindDbError>
        requires texts { TextsFit texts.old.items (A.sections answer.now) }
        requires kept { SourceFits self.form column.now.source (A.sections answer.now) kept.old }
        ensures column { OnOk result (PutsColumn self.form
            (readings_of (A.sections answer.now) (A.had answer.now).offsets)
            column.now out.old.items out.new.items) }
        ensures unread { IfErr result (λ e. MemoryApart e (read_by column.now.source
            (readings_of (A.sections answer.now) (A.had answer.now).offsets) ≡ None)) }
        ensures texts { texts.new.items ≡ texts.old.items }
        ensures kept { SourceFits self.form column.now.source (A.sections answer.now) kept.new }
    {
        out.extend_from_slice(self.form.label(column))?;
        self.put_read(&column.source, texts, kept, answer, out)
    }
}

/// Rows of a network and columns.
#[derive(Drop)]
pub struct Columns<'a> {
    pub form: RowForm,
    pub columns: Vec<Column<'a>>,
}

impl<'a> Columns<'a> {
    // Adds the column at a place, and notes whether it has a value.
    #[inline(always)]
    fn put_noted<A: Answer>(
        &self,
        place: usize,
        column: &Column<'a>,
        scratch: &mut ColumnScratch<'a>,
        answer: &A,
        out: &mut Vec<u8>,
    ) -> Result<(), MaxMindDbError>
        requires within { place < length self.now.columns.items }
        requires column { get_or self.now.columns.items place column.now ≡ column.now }
        requires fits { ScratchFits self.now (A.sections answer.now) scratch.old }
        ensures column { OnOk result (PutsColumn self.now.form
            (readings_of (A.sections answer.now) (A.had answer.now).offsets)
            column.now out.old.items out.new.items) }
        ensures unread { IfErr result (λ e. MemoryApart e (read_by column.now.source
            (readings_of (A.sections answer.now) (A.had answer.now).offsets) ≡ None)) }
        ensures fits { ScratchFits self.now (A.sections answer.now) scratch.new }
    {
        let printer = Printer {
            form: self.form,
            alloc: scratch.alloc,
        };
        let (texts, kept) = (&mut scratch.texts, &mut scratch.kept[place]);
        let has_value = printer.put_column(column, texts, kept, answer, out)?;
        scratch.note(place, has_value);
        Ok(())
    }

    // Adds all columns, and notes which have a value.
    #[inline(always)]
    fn put_columns<A: Answer>(
        &self,
        scratch: &mut ColumnScratch<'a>,
        answer: &A,
        out: &mut Vec<u8>,
    ) -> Result<(), MaxMindDbError>
        requires { ScratchFits self.now (A.sections answer.now) scratch.old }
        ensures columns { OnOk result (PutsColumns self.now.form
            (readings_of (A.sections answer.now) (A.had answer.now).offsets)
            self.now.columns.items out.old.items out.new.items) }
        ensures unread { IfErr result (λ e. MemoryApart e (AnyUnread
            (readings_of (A.sections answer.now) (A.had answer.now).offsets)
            self.now.columns.items)) }
        ensures fits { ScratchFits self.now (A.sections answer.now) scratch.new }
    {
        for place in 0..self.columns.len() {
            let column = &self.columns[place];
            self.put_noted(place, column, scratch, answer, out)?;
        }
        Ok(())
    }
}

impl<'a> Template for Columns<'a> {
    ghost use Rattle.mmdb_query_forms.specs.Columns.{readings_of, front_of, IsTail, AnyUnread};
    ghost use Rattle.mmdb_query_forms.specs.Fitting.{ScratchFits};

    type Scratch = ColumnScratch<'a>;

    ghost front = { λ c. front_of c.form };

    ghost is_tail = { λ c s offsets tail. IsTail c.form (readings_of s offsets) c.columns.items tail };

    ghost is_unread = { λ c s offsets. AnyUnread (readings_of s offsets) c.columns.items };

    ghost fits = { ScratchFits };

    fn front(&self) -> &[u8] {
        self.form.front()
    }

    fn put_tail<A: Answer>(
        &self,
        _alloc: Global,
        scratch: &mut ColumnScratch<'a>,
        answer: &A,
        out: &mut Vec<u8>,
    ) -> Result<(), MaxMindDbError> {
        out.extend_from_slice(self.form.behind_network())?;
        self.put_columns(scratch, answer, out)?;
        scratch.note_row();
        Ok(out.extend_from_slice(self.form.end())?)
    }

    fn drop_kept(&self, scratch: &mut ColumnScratch<'a>) {
        scratch.clear();
    }
}
