//! What rows of columns are made with.
ghost use Rattle.std.specs.Prelude.{◌≡◌, ◌∷◌, ℕ, List, [], ◌++◌, IfOk, OnOk};
ghost use Rattle.mmdb_query_forms.specs.Fitting.{ScratchFits};
ghost use Rattle.mmdb_query_forms.specs.Kept.{AreFresh, AreLeft};
ghost use Rattle.mmdb_query_forms.specs.declared.columns.Columns.{Columns as SpecColumns};

use crate::column::ColumnSource;
use crate::columns::{Columns, RowForm};
use crate::kept::KeptColumn;
use mmdb_json::RecordTexts;
use std::alloc::{AllocError, Global};

/// What rows of columns are made with, and what is kept of the records that they show.
#[derive(Drop)]
pub struct ColumnScratch<'r> {
    pub(crate) alloc: Global,
    /// Which columns had a value in a row that was made.
    met: Vec<bool>,
    /// Whether a row was made.
    has_made: bool,
    /// The texts of the records of the databases whose data sections were given, in their order.
    pub(crate) texts: Vec<RecordTexts<'r>>,
    /// How many bytes are kept of the texts of the records of a database.
    most_of_texts: usize,
    /// What is kept of each column, where there are two data sections or more. Rows of the records of one alone are kept whole.
    pub(crate) kept: Vec<KeptColumn>,
    /// How many bytes are kept of what a column shows of the records of a database.
    most_of_column: usize,
}

// Whether a column shows whole records.
fn is_of_records(source: &ColumnSource<'_>) -> bool {
    matches!(source, ColumnSource::Record(_))
}

// Whether rows have whole records as JSON, which are laid out by their texts.
fn has_texts(columns: &Columns<'_>) -> bool {
    matches!(columns.form, RowForm::Json)
        && columns
            .columns
            .iter()
            .any(|column| is_of_records(&column.source))
}

// How many caches keep what columns show of the records of so many databases.
fn count_of_caches(columns: &Columns<'_>, databases: usize) -> usize {
    if databases < 2 {
        return 0;
    }
    let mut count: usize = 0;
    for column in &columns.columns {
        let own = if is_of_records(&column.source) {
            1
        } else {
            databases
        };
        count = count.saturating_add(own);
    }
    count
}

// Of so many columns nothing yet, with so many caches for each.
fn nothing_kept(
    alloc: Global,
    columns: usize,
    count: usize,
    most: usize,
) -> Result<Vec<KeptColumn>, AllocError>
    ensures { IfOk result (λ kept. AreFresh columns count kept.items) }
{
    let mut kept = Vec::with_capacity(alloc, columns)?;
    for _ in 0..columns {
        kept.push(KeptColumn::new(alloc, count, most)?)?;
    }
    Ok(kept)
}

// Lets go of what is kept of columns.
fn clear_columns(kept: &mut Vec<KeptColumn>)
    ensures { AreLeft kept.old.items kept.new.items }
{
    for place in 0..kept.len() {
        kept[place].clear();
    }
}

impl<'r> ColumnScratch<'r> {
    /// Of columns none of which had a value yet, on so many databases. At most `most` bytes are kept of all their records.
    pub fn new(
        alloc: Global,
        columns: &Columns<'_>,
        databases: usize,
        most: usize,
    ) -> Result<ColumnScratch<'r>, AllocError>
        ensures texts { IfOk result (λ scratch. scratch.texts.items ≡ []) }
        ensures fits { IfOk result (λ scratch. (s : List (List ℕ))
            → ScratchFits columns.now s scratch) }
    {
        let count = columns.columns.len();
        let mut met = Vec::with_capacity(alloc, count)?;
        for _ in 0..count {
            met.push(false)?;
        }
        let caches = count_of_caches(columns, databases);
        let of_texts = match (has_texts(columns), caches) {
            (true, 0) => most,
            (true, _) => most / 2,
            (false, _) => 0,
        };
        let of_columns = most.saturating_sub(of_texts);
        Ok(ColumnScratch {
            alloc,
            met,
            has_made: false,
            texts: Vec::new(alloc),
            most_of_texts: of_texts.checked_div(databases).unwrap_or(0),
            kept: nothing_kept(alloc, count, 0, 0)?,
            most_of_column: of_columns.checked_div(caches).unwrap_or(0),
        })
    }

    /// Adds the data section of the next database, so that texts of its records are laid out once and kept. What columns show of
    /// them is kept from the second one on.
    pub fn add_section(&mut self, section: &'r [u8]) -> Result<(), AllocError>
        ensures texts { OnOk result
            (self.new.texts.items ≡ self.old.texts.items ++ section.now ∷ []) }
        ensures fits { OnOk result ((columns : SpecColumns) (s : List (List ℕ))
            → ScratchFits columns s self.old
            → ScratchFits columns self.new.texts.items self.new) }
    {
        let texts = RecordTexts::new(self.alloc, section, self.most_of_texts);
        self.texts.push(texts)?;
        let sections = self.texts.len();
        let count = if sections < 2 { 0 } else { sections };
        self.kept = nothing_kept(self.alloc, self.kept.len(), count, self.most_of_column)?;
        Ok(())
    }

    /// Whether a row was made.
    pub fn has_made(&self) -> bool {
        self.has_made
    }

    /// Whether the column at a place had a value in a row that was made.
    pub fn has_met(&self, place: usize) -> bool {
        match self.met.get(place) {
            Some(met) => *met,
            None => false,
        }
    }

    /// Notes that a row was made.
    pub(crate) fn note_row(&mut self)
        ensures texts { self.new.texts.items ≡ self.old.texts.items }
        ensures kept { self.new.kept.items ≡ self.old.kept.items }
    {
        self.has_made = true;
    }

    /// Notes whether the column at a place has a value in a row.
    pub(crate) fn note(&mut self, place: usize, has_value: bool)
        ensures texts { self.new.texts.items ≡ self.old.texts.items }
        ensures kept { self.new.kept.items ≡ self.old.kept.items }
    {
        if has_value && let Some(met) = self.met.get_mut(place) {
            *met = true;
        }
    }

    // Lets go of the texts that are kept.
    #[tactic(auto, using(crate::proofs::RecordLaws::written_back))]
    fn clear_texts(&mut self)
        ensures texts { self.new.texts.items ≡ self.old.texts.items }
        ensures kept { self.new.kept.items ≡ self.old.kept.items }
    {
        for place in 0..self.texts.len() {
            self.texts[place].clear();
        }
    }

    /// Lets go of all that is kept.
    #[tactic(auto, using(crate::proofs::FittingLaws::left_fits))]
    pub(crate) fn clear(&mut self)
        ensures { (columns : SpecColumns) (s : List (List ℕ))
            → ScratchFits columns s self.old → ScratchFits columns s self.new }
    {
        self.clear_texts();
        clear_columns(&mut self.kept);
    }
}
