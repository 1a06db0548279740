//! The first row, which may name the columns.
ghost use Rattle.std.specs.Prelude.{◌≡◌, ◌-◌, ◌∷◌, ◌++◌, length, take, drop, map, IfOk, IfSome, OnOk, Some, true};
ghost use Rattle.std.specs.Io.KnownBytes.{Appends};
ghost use Rattle.mmdb_filter.specs.Lines.{row_with, text_length};
ghost use Rattle.mmdb_filter.specs.Rows.{row_from, rows_after};
ghost use Rattle.mmdb_filter.specs.declared.rows.RowPosition.TheVariants.{Cell};
ghost use Rattle.mmdb_cmd_enrich.specs.Columns.{delimiter_of as spec_delimiter_of};
ghost use Rattle.mmdb_cmd_enrich.specs.Header.{AreColumnsOf, AreNamedBy, IsAddressIn, IsHeaderPassed, name_cell, name_cells, names_in};

use crate::columns::{breaks_in, delimiter_of};
use crate::output::put;
use crate::task::{Column, RowsTask};
use csv::{ByteRecord, ReaderBuilder};
use mmdb_console::ProgramError;
use mmdb_filter::{MOST_SEEN, RowPosition, Rows, put_csv_cell, read_chunk};
use std::alloc::{AllocError, Global};
use std::io::{BufRead, Write};

// The first row, which may not be longer than a row's text that is seen.
fn read_header<I: BufRead>(
    alloc: Global,
    rows: Rows,
    input: &mut I,
) -> Result<Vec<u8>, ProgramError>
    ensures { IfOk result (λ row. IfSome (I.remaining input.old) (λ xs.
        (row.items ≡ row_from rows Cell xs)
        × (I.remaining input.new ≡ Some (rows_after rows Cell xs)))) }
{
    let mut row = Vec::new(alloc);
    let place = read_chunk(input, rows, RowPosition::Cell, &mut row)?;
    if place != RowPosition::Ended && row.len() > MOST_SEEN {
        return Err(ProgramError::LongHeader);
    }
    Ok(row)
}

// A row without its end, and that end. A carriage return alone ends no row.
#[tactic(auto, unfolding(mmdb_filter::specs::Lines::text_length))]
fn split_end(row: &[u8]) -> (&[u8], &'static [u8])
    ensures text { result.0.now ≡ take (text_length row.now) row.now }
    ensures end { result.1.now ≡ drop (text_length row.now) row.now }
{
    match row {
        [cells @ .., b'\r', b'\n'] => (cells, b"\r\n"),
        [cells @ .., b'\n'] => (cells, b"\n"),
        _ => (row, b""),
    }
}

// Adds a name after a delimiter.
fn put_name(rows: Rows, name: &str, row: &mut Vec<u8>) -> Result<(), AllocError>
    ensures { OnOk result (row.new.items
        ≡ row.old.items ++ (spec_delimiter_of rows ∷ name_cell rows name.now)) }
{
    row.push(delimiter_of(rows))?;
    match rows {
        Rows::Lines { .. } => row.extend_from_slice(name.as_bytes()),
        Rows::Csv { delimiter } => put_csv_cell(delimiter, name.as_bytes(), row),
    }
}

// Adds the names of the fields to the first row.
fn put_names(rows: Rows, names: &[&str], row: &mut Vec<u8>) -> Result<(), AllocError>
    ensures { OnOk result (row.new.items
        ≡ row_with row.old.items (name_cells rows (map (λ name. name.now) names.now)) 0) }
{
    let (cells, end) = split_end(row.as_slice());
    let length = cells.len();
    row.truncate(length);
    for name in names {
        put_name(rows, *name, row)?;
    }
    row.extend_from_slice(end)
}

// Reads the cells of a row of CSV.
fn read_cells(
    alloc: Global,
    delimiter: u8,
    row: &[u8],
    cells: &mut ByteRecord,
) -> Result<(), AllocError> {
    let mut builder = ReaderBuilder::new();
    builder.has_headers(false).delimiter(delimiter);
    let mut reader = builder.from_reader(alloc, row);
    if reader.read_byte_record(cells).is_err() {
        // of a first record, and of bytes at hand
        return Err(AllocError);
    }
    Ok(())
}

// The place of a name among the cells of a row of CSV.
fn place_in_csv(
    alloc: Global,
    delimiter: u8,
    row: &[u8],
    name: &str,
) -> Result<Option<usize>, ProgramError> {
    let mut cells = ByteRecord::new(alloc);
    read_cells(alloc, delimiter, row, &mut cells)?;
    Ok(cells.iter().position(|cell| cell == name.as_bytes()))
}

// The place of a name among the columns of the first row.
fn place_in(
    alloc: Global,
    rows: Rows,
    name: &str,
    header: &[u8],
) -> Result<Option<usize>, ProgramError> {
    let (cells, _) = split_end(header);
    match rows {
        Rows::Lines { delimiter } => Ok(
            cells
                .split(|b| *b == delimiter)
                .position(|cell| cell == name.as_bytes()),
        ),
        Rows::Csv { delimiter } => place_in_csv(alloc, delimiter, cells, name),
    }
}

// Adds the name of a column after others.
fn push_column(alloc: Global, cell: &[u8], names: &mut String) -> Result<(), AllocError> {
    if !names.is_empty() {
        names.push_str(", ")?;
    }
    let name: String = String::from_utf8_lossy(alloc, cell)?;
    names.push_str(name.as_str())
}

// Adds the names of the columns of a row of CSV.
fn push_csv_columns(
    alloc: Global,
    delimiter: u8,
    row: &[u8],
    names: &mut String,
) -> Result<(), AllocError> {
    let mut cells = ByteRecord::new(alloc);
    read_cells(alloc, delimiter, row, &mut cells)?;
    for cell in cells.iter() {
        push_column(alloc, cell, names)?;
    }
    Ok(())
}

// Adds the names of the columns of a row.
fn push_columns(
    alloc: Global,
    rows: Rows,
    row: &[u8],
    names: &mut String,
) -> Result<(), AllocError> {
    match rows {
        Rows::Lines { delimiter } => {
            for cell in row.split(|b| *b == delimiter) {
                push_column(alloc, cell, names)?;
            }
            Ok(())
        }
        Rows::Csv { delimiter } => push_csv_columns(alloc, delimiter, row, names),
    }
}

// The names of the columns of the first row.
fn columns_of(alloc: Global, rows: Rows, header: &[u8]) -> Result<String, AllocError> {
    let (cells, _) = split_end(header);
    let mut names = String::new(alloc);
    push_columns(alloc, rows, cells, &mut names)?;
    Ok(names)
}

// The error that the first row has no column of a name.
fn no_column(
    alloc: Global,
    rows: Rows,
    name: &str,
    header: &[u8],
) -> Result<ProgramError, AllocError> {
    let columns = columns_of(alloc, rows, header)?;
    Ok(ProgramError::NoColumn {
        name: String::from_str(alloc, name)?,
        columns,
    })
}

// The place of a column among those of the first row.
fn place_of(
    alloc: Global,
    rows: Rows,
    column: Column<'_>,
    header: &[u8],
) -> Result<usize, ProgramError>
    ensures { IfOk result (IsAddressIn column.entry) }
{
    let name = match column {
        Column::Number(number) => return Ok(number),
        Column::Name(name) => name,
    };
    match place_in(alloc, rows, name, header)? {
        Some(place) => Ok(place),
        None => Err(no_column(alloc, rows, name, header)?),
    }
}

/// The columns of rows.
#[derive(Clone, Copy)]
pub(crate) struct Columns {
    /// The place of the one of the address, from 0.
    pub(crate) address: usize,
    /// How many delimiters the first row has, where it names the columns.
    pub(crate) breaks: Option<usize>,
}

// Writes the first row with the names of the fields, and answers the columns.
fn write_header<O: Write>(
    alloc: Global,
    task: &RowsTask<'_>,
    header: &mut Vec<u8>,
    out: &mut O,
) -> Result<Columns, ProgramError>
    ensures written { OnOk result (Appends (O.contents out.old) (O.contents out.new)
        (row_with header.old.items (name_cells task.now.rows (names_in task.now)) 0)) }
    ensures columns { IfOk result (AreNamedBy task.now.rows task.now.column header.old.items) }
{
    let address = place_of(alloc, task.rows, task.column, header.as_slice())?;
    let (cells, _) = split_end(header.as_slice());
    let breaks = Some(breaks_in(task.rows, cells));
    put_names(task.rows, task.names.as_slice(), header)?;
    put(header.as_slice(), out)?;
    Ok(Columns { address, breaks })
}

// Copies the first row, where there is one, with the names of the fields, and answers the columns.
fn copy_header<I: BufRead, O: Write>(
    alloc: Global,
    task: &RowsTask<'_>,
    input: &mut I,
    out: &mut O,
) -> Result<Columns, ProgramError>
    ensures passed { OnOk result (IsHeaderPassed true task.now
        (I.remaining input.old) (I.remaining input.new) (O.contents out.old) (O.contents out.new)) }
    ensures columns { IfOk result (λ columns. IfSome (I.remaining input.old)
        (λ xs. AreColumnsOf true task.now.rows task.now.column xs columns)) }
{
    let mut header = read_header(alloc, task.rows, input)?;
    if header.is_empty() {
        return Ok(Columns {
            address: 0,
            breaks: None,
        });
    }
    write_header(alloc, task, &mut header, out)
}

/// The columns. The first row is copied where it names them; of an input without a row nothing is known.
pub(crate) fn columns_of_input<I: BufRead, O: Write>(
    alloc: Global,
    task: &RowsTask<'_>,
    input: &mut I,
    out: &mut O,
) -> Result<Columns, ProgramError>
    ensures passed { OnOk result (IsHeaderPassed task.now.header task.now
        (I.remaining input.old) (I.remaining input.new) (O.contents out.old) (O.contents out.new)) }
    ensures columns { IfOk result (λ columns. IfSome (I.remaining input.old)
        (λ xs. AreColumnsOf task.now.header task.now.rows task.now.column xs columns)) }
{
    if task.header {
        return copy_header(alloc, task, input, out);
    }
    Ok(Columns {
        address: place_of(alloc, task.rows, task.column, &[])?,
        breaks: None,
    })
}
