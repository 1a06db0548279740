//! The rows of an export, of one database or of several side by side.
ghost use Rattle.std.specs.Prelude.{◌≡◌, [], ◌∷◌, map, IfOk, IfErr};
ghost use Rattle.mmdb_reader.specs.File.{data_section};
ghost use Rattle.mmdb_query.specs.Kept.{RowsFit};
ghost use Rattle.mmdb_query.specs.Walks.{section_walked};
ghost use Rattle.mmdb_query_forms.specs.Fitting.{ScratchFits};
ghost use Rattle.mmdb_cmd_export.specs.Listed.{IsOfList};
ghost use Rattle.mmdb_cmd_export.specs.Written.{AreWritten, EndRows};

use crate::absent_paths::note_absent_paths;
use crate::look::{FirstRecords, Look};
use crate::reports::{AskedOfRecords, Reports, apart, report_faults};
use crate::several::Several;
use crate::task::ExportTask;
use mmdb_compare::AskedDatabase;
use mmdb_console::{Console, FAILED, Pace, ProgramError, line_of};
use mmdb_layout::{
    ChosenFields, Condition, Database, Layout, NETWORK, absent_text, keys_of, networks_in,
};
use mmdb_query::{
    Answer, Conditions, Faults, Many, One, Part, QueryError, Rows, Template, Walk, export_rows,
};
use mmdb_query_forms::{AllOf, Column, ColumnScratch, ColumnSource, Columns, RowForm};
use mmdb_reader::MaxMindDbError;
use std::alloc::{AllocError, Global};
use std::io::{self, Write};

/// The most bytes of all rows that are kept.
const MOST_OF_ROWS: usize = 4 << 20;

/// The most bytes that are kept of what rows show of records.
const MOST_OF_RECORDS: usize = 4 << 20;

/// How many fields are named that no record has.
const MOST_NAMED: usize = 10;

/// What a query answered, as the program reports it.
pub(crate) fn of_query(error: QueryError) -> ProgramError
    ensures { IsOfList result }
{
    match error {
        QueryError::Memory => ProgramError::Memory,
        QueryError::Write(error) => ProgramError::Write(error.to_error()),
        QueryError::TooMany | QueryError::OutOfOrder => ProgramError::OutOfOrder,
    }
}

// How the records are called, each in a column of its own, where rows have whole ones.
fn names_of_records(alloc: Global, several: &Several<'_>) -> Result<Vec<String>, AllocError> {
    if several.are_several() {
        return keys_of(alloc, several.databases(), NETWORK);
    }
    let mut names = Vec::new(alloc);
    names.push(String::from_str(alloc, "record")?)?;
    Ok(names)
}

// A column for the record of each database. One that is not asked has none.
fn columns_of_records<'a>(
    alloc: Global,
    several: &Several<'_>,
    names: &'a [String],
) -> Result<Vec<Column<'a>>, AllocError> {
    let mut columns = Vec::with_capacity(alloc, names.len())?;
    for (place, name) in names.iter().enumerate() {
        let place = several.place_of(place).unwrap_or(usize::MAX);
        columns.push(Column::new(alloc, name.as_str(), ColumnSource::Record(place))?)?;
    }
    Ok(columns)
}

// A column for each field.
fn columns_of_fields<'a>(
    alloc: Global,
    fields: &ChosenFields<'a>,
) -> Result<Vec<Column<'a>>, AllocError> {
    let mut columns = Vec::with_capacity(alloc, fields.names.len())?;
    for (name, path) in fields.names.iter().zip(&fields.paths) {
        let source = ColumnSource::Path(path.clone()?);
        columns.push(Column::new(alloc, *name, source)?)?;
    }
    Ok(columns)
}

// The columns of rows: fields, or whole records under these names.
fn columns_of<'a>(
    alloc: Global,
    several: &Several<'_>,
    layout: &'a Layout<'a>,
    names: &'a [String],
) -> Result<Columns<'a>, AllocError> {
    let (form, columns) = match layout {
        Layout::Records => (RowForm::Json, columns_of_records(alloc, several, names)?),
        Layout::Values(fields) => (RowForm::Json, columns_of_fields(alloc, fields)?),
        Layout::Cells(fields) => (RowForm::Csv, columns_of_fields(alloc, fields)?),
    };
    Ok(Columns { form, columns })
}

// Where the first records are of which rows are made.
#[derive(Drop)]
struct ChosenRecords<'c, 'd> {
    alloc: Global,
    conditions: &'c [Condition<'c>],
    first: FirstRecords<'d>,
}

impl Look for ChosenRecords<'_, '_> {
    fn look<A: Answer>(&mut self, answer: &A) -> Result<bool, ProgramError> {
        let all = AllOf {
            conditions: self.conditions,
        };
        if matches!(all.are_met(self.alloc, answer), Ok(true)) {
            self.first.add(answer)?;
        }
        Ok(!self.first.are_enough())
    }
}

// What rows are written of, and how.
#[derive(Clone, Copy)]
struct RowTask<'x, 'd> {
    alloc: Global,
    several: &'x Several<'d>,
    task: &'x ExportTask<'x>,
    layout: &'x Layout<'x>,
    columns: &'x Columns<'x>,
}

impl<'x, 'd> RowTask<'x, 'd> {
    // Writes the rows of the chosen networks of a walk, and says how many can't be read.
    fn put_rows<W: Walk, O: Write, F: Faults>(
        &self,
        walk: &mut W,
        rows: &mut Rows<'_, Columns<'x>>,
        out: &mut O,
        faults: &mut F,
    ) -> Result<u64, QueryError>
        requires { RowsFit ⟦<Columns<'x> as Template>⟧.is_tail ⟦<Columns<'x> as Template>⟧.fits
            (W.sections walk.old) rows.old.maker }
        ensures written { IfOk result (AreWritten (W.comes walk.old) (W.sections walk.old)
            self.now.task.now.conditions.items rows.old.maker.template.now
            (O.contents out.old) (O.contents out.new)) }
        ensures failed { IfErr result (EndRows W.comes walk.old (W.sections walk.old)
            self.now.task.now.conditions.items rows.old.maker.template.now
            (O.contents out.old) (O.contents out.new)) }
    {
        let conditions = AllOf {
            conditions: self.task.conditions.as_slice(),
        };
        export_rows(self.alloc, walk, rows, &conditions, out, faults)
    }

    // The same, and reports those that can't be read, of which it says how many there are: of several databases each network once.
    fn report_rows<W: Walk, O: Write, E: Pace>(
        &self,
        walk: &mut W,
        rows: &mut Rows<'_, Columns<'x>>,
        console: &mut Console<'_, O, E>,
    ) -> Result<u64, ProgramError>
        requires { RowsFit ⟦<Columns<'x> as Template>⟧.is_tail ⟦<Columns<'x> as Template>⟧.fits
            (W.sections walk.old) rows.old.maker }
    {
        let asked = AskedOfRecords {
            conditions: self.task.conditions.as_slice(),
            columns: self.columns.columns.as_slice(),
        };
        let mut nowhere = io::sink();
        let (out, errors) = apart(console, &mut nowhere);
        let mut reports = Reports::new(errors, self.several, asked)?;
        let written = self.put_rows(walk, rows, out, &mut reports);
        reports.clear_progress();
        match written {
            Ok(_) => Ok(reports.count),
            Err(error) => Err(of_query(error)),
        }
    }

    // Writes the rows of what is asked for of a walk.
    fn write_part<W: Walk + Drop, O: Write, E: Pace>(
        &self,
        walk: W,
        rows: &mut Rows<'_, Columns<'x>>,
        console: &mut Console<'_, O, E>,
    ) -> Result<u64, ProgramError>
        requires { RowsFit ⟦<Columns<'x> as Template>⟧.is_tail ⟦<Columns<'x> as Template>⟧.fits
            (W.sections walk) rows.old.maker }
    {
        let mut walk = walk;
        if !self.task.is_of_part() {
            return self.report_rows(&mut walk, rows, console);
        }
        let mut part = Part {
            walk,
            kinds: self.task.kinds,
            range: self.several.alone().and(self.several.range()),
        };
        self.report_rows(&mut part, rows, console)
    }

    // Writes the rows of a walk with what they are made with, says of fields that no record had, and answers the status.
    fn write<W: Walk + Drop, O: Write, E: Pace>(
        &self,
        walk: W,
        scratch: ColumnScratch<'x>,
        console: &mut Console<'_, O, E>,
    ) -> Result<u8, ProgramError>
        requires { ScratchFits self.now.columns.now (W.sections walk) scratch }
    {
        let mut rows = Rows::new(self.alloc, self.columns, scratch, MOST_OF_ROWS)?;
        let unread = self.write_part(walk, &mut rows, console)?;
        self.note_absent(rows.scratch(), console)?;
        drop(rows);
        report_faults(unread, console)
    }

    // Writes the rows of a database.
    fn write_one<O: Write, E: Pace>(
        &self,
        database: &'x Database,
        console: &mut Console<'_, O, E>,
    ) -> Result<u8, ProgramError> {
        let walk = One::new(networks_in(self.alloc, database, self.several.range())?);
        self.put_header(console)?;
        let mut scratch = ColumnScratch::new(self.alloc, self.columns, 1, MOST_OF_RECORDS)?;
        scratch.add_section(database.data_section())?;
        self.write(walk, scratch, console)
    }

    // What rows are made with, of the records of databases.
    fn scratch_of(
        &self,
        databases: &[AskedDatabase<'x, Vec<u8>>],
    ) -> Result<ColumnScratch<'x>, AllocError>
        ensures sections { IfOk result (λ scratch. scratch.texts.items
            ≡ map (λ d. data_section d.reader.now) databases.now) }
        ensures fits { IfOk result (λ scratch.
            ScratchFits self.now.columns.now scratch.texts.items scratch) }
    {
        let count = databases.len();
        let mut scratch = ColumnScratch::new(self.alloc, self.columns, count, MOST_OF_RECORDS)?;
        for asked in databases {
            scratch.add_section(asked.reader.data_section())?;
        }
        Ok(scratch)
    }

    // Writes the rows of several databases.
    fn write_many<O: Write, E: Pace>(
        &self,
        asked: &'x [AskedDatabase<'x, Vec<u8>>],
        console: &mut Console<'_, O, E>,
    ) -> Result<u8, ProgramError> {
        let walk = match Many::new(self.alloc, asked) {
            Ok(walk) => walk,
            Err((_, MaxMindDbError::Memory)) => return Err(ProgramError::Memory),
            Err((place, error)) => {
                console.report(self.several.name_at(place), &error);
                return Ok(FAILED);
            }
        };
        self.put_header(console)?;
        let scratch = self.scratch_of(asked)?;
        self.write(walk, scratch, console)
    }

    // Writes the header, where there is one.
    fn put_header<O: Write, E: Pace>(
        &self,
        console: &mut Console<'_, O, E>,
    ) -> Result<(), ProgramError> {
        match self.layout.header(self.alloc)? {
            Some(header) => console.put(header.as_slice()),
            None => Ok(()),
        }
    }

    // Says of the fields of these names that no record has them, after what was written.
    fn note_fields<O: Write, E: Pace>(
        &self,
        names: &[&str],
        console: &mut Console<'_, O, E>,
    ) -> Result<(), ProgramError> {
        if names.is_empty() {
            return Ok(());
        }
        console.flush()?;
        let mut chosen = ChosenRecords {
            alloc: self.alloc,
            conditions: self.task.conditions.as_slice(),
            first: FirstRecords::new(self.alloc, self.several),
        };
        // where they can't be looked at, no other field is named
        let _ = self.several.look(self.alloc, self.task.kinds, &mut chosen);
        for name in names.iter().take(MOST_NAMED) {
            let text = absent_text(self.alloc, "no record", *name, chosen.first.records());
            console.note(line_of(self.alloc, text));
        }
        let more = names.len().saturating_sub(MOST_NAMED);
        if more > 0 {
            console.note(format!(in self.alloc; "mmdb: nor {more} fields more\n"));
        }
        Ok(())
    }

    // The fields that no row has which was made, if one was.
    fn absent_fields(&self, scratch: &ColumnScratch<'_>) -> Result<Vec<&'x str>, AllocError> {
        let mut absent = Vec::new(self.alloc);
        if !scratch.has_made() {
            return Ok(absent);
        }
        for (place, text) in self.layout.path_texts().iter().enumerate() {
            if !scratch.has_met(place) {
                absent.push(*text)?;
            }
        }
        Ok(absent)
    }

    // Says of paths of conditions and of fields that no record has them.
    fn note_absent<O: Write, E: Pace>(
        &self,
        scratch: &ColumnScratch<'_>,
        console: &mut Console<'_, O, E>,
    ) -> Result<(), ProgramError> {
        note_absent_paths(self.several, self.task, console)?;
        let absent = self.absent_fields(scratch)?;
        self.note_fields(absent.as_slice(), console)
    }
}

/// Writes the rows of the chosen networks of databases, reports each that can't be read, and answers the status.
pub(crate) fn write_rows<O: Write, E: Pace>(
    several: &Several<'_>,
    task: &ExportTask<'_>,
    layout: &Layout<'_>,
    console: &mut Console<'_, O, E>,
) -> Result<u8, ProgramError> {
    let names = names_of_records(console.alloc, several)?;
    let columns = columns_of(console.alloc, several, layout, names.as_slice())?;
    let rows = RowTask {
        alloc: console.alloc,
        several,
        task,
        layout,
        columns: &columns,
    };
    match several.alone() {
        Some(database) => rows.write_one(database, console),
        None => rows.write_many(several.asked(), console),
    }
}
