//! Rows of cells below a header.
use crate::columns::Columns;
use crate::entry::{RowAddresses, RowEntry, Values};
use crate::error::{InputError, Reason, named, named_text};
use crate::known::KnownTexts;
use crate::networks::{address_of, network_of};
use crate::plan::{MOST_COLUMNS, NamedPath, Plan, add_assembled, column_path, plan_of};
use crate::range::AddressRange;
use crate::scalars::{TextSource, text_value};
use crate::spans::{PlaceSpans, span_of};
use crate::types::Types;
use bumpalo::Bump;
use csv::ByteRecord;
use memchr::{memchr, memchr2};
use mmdb_filter::{RowPosition, Rows};
use mmdb_net::IpNetwork;
use mmdb_value::Value;
use std::alloc::{AllocError, Global};
use std::net::IpAddr;

/// A column of addresses: its cell, and its name.
#[derive(Clone, Copy)]
struct PlaceColumn<'t> {
    cell: usize,
    name: &'t str,
}

/// Which columns have a row's addresses.
#[derive(Clone, Copy)]
enum PlaceColumns<'t> {
    Network(PlaceColumn<'t>),
    Range(PlaceColumn<'t>, PlaceColumn<'t>),
}

impl PlaceColumns<'_> {
    // Whether a cell has addresses.
    fn has(self, cell: usize) -> bool {
        match self {
            PlaceColumns::Network(network) => cell == network.cell,
            PlaceColumns::Range(first, last) => cell == first.cell || cell == last.cell,
        }
    }
}

/// A column of values: its cell, its name, and what is known of its types.
#[derive(Drop)]
struct ValueColumn {
    cell: usize,
    name: String,
    node: Option<usize>,
}

// What is wrong with the quotes of a row of CSV, or with a carriage return that does not end it.
fn check_quotes(rows: Rows, row: &[u8]) -> Result<(), Reason> {
    let mut now = RowPosition::Cell;
    for byte in row {
        let next = now.after(rows, *byte);
        if *byte == b'\r' && next != RowPosition::Quoted {
            return Err(Reason::LoneReturn);
        }
        if now == RowPosition::Closing && next == RowPosition::Plain {
            return Err(Reason::BehindQuote);
        }
        now = next;
    }
    if now == RowPosition::Quoted {
        Err(Reason::Unclosed)
    } else {
        Ok(())
    }
}

// Cuts the cells of a row of CSV that has quotes, of which nothing is wrong.
fn cut_quoted(
    alloc: Global,
    rows: Rows,
    row: &[u8],
    cells: &mut ByteRecord,
) -> Result<(), AllocError> {
    let mut cell = Vec::new(alloc);
    let mut now = RowPosition::Cell;
    for byte in row {
        let next = now.after(rows, *byte);
        // a quote that opens or ends a quoted text is none of it, but the second of two is
        let is_text = match next {
            RowPosition::Cell | RowPosition::Closing | RowPosition::Ended => false,
            RowPosition::Quoted => now == RowPosition::Quoted || now == RowPosition::Closing,
            RowPosition::Plain => true,
        };
        if is_text {
            cell.push(*byte)?;
        }
        if next == RowPosition::Cell {
            cells.push_field(&cell)?;
            cell.clear();
        }
        now = next;
    }
    cells.push_field(&cell)?;
    Ok(())
}

// Cuts the cells of a row that has no quotes.
fn cut_plain(delimiter: u8, row: &[u8], cells: &mut ByteRecord) -> Result<(), AllocError> {
    for cell in row.split(|byte| *byte == delimiter) {
        cells.push_field(cell)?;
    }
    Ok(())
}

// Cuts the cells of a row of CSV.
fn cut_csv(
    alloc: Global,
    delimiter: u8,
    row: &[u8],
    cells: &mut ByteRecord,
) -> Result<(), InputError> {
    let row = row.strip_suffix(b"\r").unwrap_or(row);
    if memchr2(b'"', b'\r', row).is_none() {
        return Ok(cut_plain(delimiter, row, cells)?);
    }
    let rows = Rows::Csv { delimiter };
    check_quotes(rows, row)?;
    Ok(cut_quoted(alloc, rows, row, cells)?)
}

// Cuts the cells of a row, in place of others.
fn cut(alloc: Global, rows: Rows, row: &[u8], cells: &mut ByteRecord) -> Result<(), InputError> {
    cells.clear();
    match rows {
        Rows::Lines { delimiter } => Ok(cut_plain(delimiter, row, cells)?),
        Rows::Csv { delimiter } => cut_csv(alloc, delimiter, row, cells),
    }
}

// The text of a cell.
fn text_at(cells: &ByteRecord, cell: usize) -> Result<&str, Reason> {
    let Some(bytes) = cells.get(cell) else {
        return Err(Reason::WrongCells);
    };
    match str::from_utf8(bytes) {
        Ok(text) => Ok(text),
        Err(_) => Err(Reason::NotUtf8),
    }
}

// The name of a column in the header.
fn name_at(alloc: Global, header: &ByteRecord, cell: usize) -> Result<&str, InputError> {
    match text_at(header, cell) {
        Ok(name) => Ok(name),
        Err(reason) => {
            let at: String = format!(in alloc; "column {}", cell.saturating_add(1))?;
            Err(InputError::at(alloc, at.as_str(), reason))
        }
    }
}

// The column of addresses of a name.
fn place_of<'t>(
    alloc: Global,
    header: &ByteRecord,
    name: &'t str,
) -> Result<PlaceColumn<'t>, InputError> {
    let mut found = None;
    for (place, cell) in header.iter().enumerate() {
        if cell == name.as_bytes() {
            if found.is_some() {
                return Err(InputError::at(alloc, name, Reason::ColumnTwice));
            }
            found = Some(place);
        }
    }
    match found {
        Some(cell) => Ok(PlaceColumn { cell, name }),
        None => Err(InputError::at(alloc, name, Reason::NoSuchColumn)),
    }
}

// Which columns have addresses.
fn place_columns<'t>(
    alloc: Global,
    header: &ByteRecord,
    columns: Columns<'t>,
) -> Result<PlaceColumns<'t>, InputError> {
    Ok(match columns {
        Columns::Network(name) => PlaceColumns::Network(place_of(alloc, header, name)?),
        Columns::Range(first, last) => PlaceColumns::Range(
            place_of(alloc, header, first)?,
            place_of(alloc, header, last)?,
        ),
    })
}

// The paths of the columns that have values.
fn paths_in<'h>(
    alloc: Global,
    header: &'h ByteRecord,
    place: PlaceColumns<'_>,
) -> Result<Vec<NamedPath<'h>>, InputError> {
    let mut paths = Vec::new(alloc);
    for cell in 0..header.len() {
        if !place.has(cell) {
            paths.push(column_path(alloc, name_at(alloc, header, cell)?)?)?;
        }
    }
    Ok(paths)
}

// The columns that have values, in the order of their paths.
fn value_columns(
    alloc: Global,
    header: &ByteRecord,
    place: PlaceColumns<'_>,
    paths: &[NamedPath<'_>],
    types: &Types,
) -> Result<Vec<ValueColumn>, InputError> {
    let mut columns = Vec::new(alloc);
    let mut left = paths.iter();
    for cell in 0..header.len() {
        if place.has(cell) {
            continue;
        }
        if let Some(named) = left.next() {
            let node = types.find(&named.path);
            types.meet(node);
            columns.push(ValueColumn {
                cell,
                name: String::from_str(alloc, name_at(alloc, header, cell)?)?,
                node,
            })?;
        }
    }
    Ok(columns)
}

// The network of a cell.
fn network_in(
    alloc: Global,
    cells: &ByteRecord,
    column: PlaceColumn<'_>,
) -> Result<IpNetwork, InputError> {
    let text = named(alloc, column.name, text_at(cells, column.cell))?;
    named_text(alloc, column.name, text, network_of(text))
}

// The address of a cell.
fn address_in(
    alloc: Global,
    cells: &ByteRecord,
    column: PlaceColumn<'_>,
) -> Result<IpAddr, InputError> {
    let text = named(alloc, column.name, text_at(cells, column.cell))?;
    named_text(alloc, column.name, text, address_of(text))
}

// The addresses of a row.
fn place_in(
    alloc: Global,
    cells: &ByteRecord,
    place: PlaceColumns<'_>,
) -> Result<RowAddresses, InputError> {
    match place {
        PlaceColumns::Network(network) => {
            Ok(RowAddresses::Network(network_in(alloc, cells, network)?))
        }
        PlaceColumns::Range(first, last) => {
            let from = address_in(alloc, cells, first)?;
            let to = address_in(alloc, cells, last)?;
            let range = named(alloc, first.name, AddressRange::new(from, to))?;
            Ok(RowAddresses::Range(range))
        }
    }
}

// The value of a cell, or none where it is empty.
fn value_in<'a>(
    alloc: Global,
    cells: &'a ByteRecord,
    column: &ValueColumn,
    types: &Types,
    arena: &'a Bump,
) -> Result<Option<Value<'a>>, InputError> {
    let text = text_at(cells, column.cell)?;
    if text.is_empty() {
        return Ok(None);
    }
    let kinds = types.kinds(column.node);
    match text_value(alloc, text, TextSource::Cell, kinds, arena) {
        Ok(value) => Ok(Some(value)),
        Err(error) => Err(error.of_text(alloc, text)),
    }
}

// The values of a row's cells.
fn values_in<'a>(
    alloc: Global,
    cells: &'a ByteRecord,
    columns: &[ValueColumn],
    types: &Types,
    arena: &'a Bump,
) -> Result<Vec<Option<Value<'a>>>, InputError> {
    let mut values = Vec::new(alloc);
    for column in columns {
        match value_in(alloc, cells, column, types, arena) {
            Ok(value) => values.push(value)?,
            Err(error) => return Err(error.below(alloc, column.name.as_str())),
        }
    }
    Ok(values)
}

// Adds the record of a row, where it has one.
fn add_record<V: Values>(
    alloc: Global,
    cells: &ByteRecord,
    columns: &[ValueColumn],
    plan: &Plan,
    types: &Types,
    values: &mut V,
) -> Result<Option<usize>, InputError> {
    let arena = Bump::new(alloc);
    let parts = values_in(alloc, cells, columns, types, &arena)?;
    add_assembled(alloc, plan, parts, values)
}

/// Rows of cells below a header: some have a network or the two ends of a range, and all others the values at paths, which the
/// header names.
#[derive(Drop)]
pub struct Cells<'t> {
    rows: Rows,
    types: &'t Types,
    place: PlaceColumns<'t>,
    width: usize,
    columns: Vec<ValueColumn>,
    plan: Plan,
    cells: ByteRecord,
    /// A row without the cells of its addresses.
    others: Vec<u8>,
    known: KnownTexts,
}

impl<'t> Cells<'t> {
    /// Rows below this header, without its end, whose addresses these columns have, and whose values have these types.
    pub fn new(
        alloc: Global,
        rows: Rows,
        names: Columns<'t>,
        types: &'t Types,
        header: &[u8],
    ) -> Result<Cells<'t>, InputError> {
        let mut cells = ByteRecord::new(alloc);
        cut(alloc, rows, header, &mut cells)?;
        if cells.len() > MOST_COLUMNS {
            return Err(InputError::from(Reason::TooManyColumns));
        }
        let place = place_columns(alloc, &cells, names)?;
        let paths = paths_in(alloc, &cells, place)?;
        let columns = value_columns(alloc, &cells, place, &paths, types)?;
        let plan = plan_of(alloc, &paths)?;
        Ok(Cells {
            rows,
            types,
            place,
            width: cells.len(),
            columns,
            plan,
            cells: ByteRecord::new(alloc),
            others: Vec::new(alloc),
            known: KnownTexts::new(alloc),
        })
    }

    // Where the addresses of a row are.
    fn spans_in(&self, row: &[u8]) -> Option<PlaceSpans> {
        Some(match self.place {
            PlaceColumns::Network(network) => {
                PlaceSpans::Network(span_of(self.rows, row, network.cell)?)
            }
            PlaceColumns::Range(first, last) => PlaceSpans::Range(
                span_of(self.rows, row, first.cell)?,
                span_of(self.rows, row, last.cell)?,
            ),
        })
    }

    // What a row says that differs from an earlier one in its addresses alone.
    fn known_entry(&mut self, row: &[u8]) -> Option<RowEntry> {
        let spans = self.spans_in(row)?;
        let value = self
            .known
            .get(spans.others_in(row, &mut self.others).ok()?)?;
        let place = spans.place_in(row)?;
        Some(RowEntry { place, value })
    }

    // What a row says.
    fn read<V: Values>(
        &mut self,
        alloc: Global,
        row: &[u8],
        values: &mut V,
    ) -> Result<RowEntry, InputError> {
        if memchr(0, row).is_some() {
            return Err(InputError::from(Reason::Nul));
        }
        cut(alloc, self.rows, row, &mut self.cells)?;
        if self.cells.len() != self.width {
            return Err(InputError::from(Reason::WrongCells));
        }
        let place = place_in(alloc, &self.cells, self.place)?;
        values.check(place)?;
        let value = add_record(
            alloc,
            &self.cells,
            &self.columns,
            &self.plan,
            self.types,
            values,
        )?;
        Ok(RowEntry { place, value })
    }

    // Keeps what a row says, for others that differ in their addresses alone, none of which is in quotes.
    fn keep(&mut self, row: &[u8], value: Option<usize>) {
        if let Some(spans) = self.spans_in(row) {
            if !spans.are_quoted(row) {
                if let Ok(others) = spans.others_in(row, &mut self.others) {
                    let _ = self.known.put(others, value);
                }
            }
        }
    }

    /// What a row says, without its end. A record that was not met before is given to `values`.
    pub fn entry<V: Values>(
        &mut self,
        alloc: Global,
        row: &[u8],
        values: &mut V,
    ) -> Result<RowEntry, InputError> {
        if let Some(entry) = self.known_entry(row) {
            return Ok(entry);
        }
        let entry = self.read(alloc, row, values)?;
        self.keep(row, entry.value);
        Ok(entry)
    }
}
