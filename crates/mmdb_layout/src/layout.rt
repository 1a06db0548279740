//! What the rows of an export look like.
use crate::database::Found;
use crate::fields::{ChosenFields, DefaultName, fields_of};
use json::{Token, Writer};
use mmdb_arguments::NoRequest;
use mmdb_filter::put_csv_cell;
use mmdb_found::{value_along, write_found};
use mmdb_json::compact;
use mmdb_reader::{MaxMindDbError, PathElement};
use mmdb_value::Value;
use std::alloc::{AllocError, Global};

/// The name of a row's network.
pub const NETWORK: &str = "network";

/// How a network is written with what its record has.
#[derive(Drop)]
pub enum Layout<'a> {
    /// An object with the network and the whole record.
    Records,
    /// An object with the network and some values.
    Values(ChosenFields<'a>),
    /// The network and some values as comma-separated cells.
    Cells(ChosenFields<'a>),
}

/// How rows are laid out with the fields that texts ask for. An `Err` where they ask for none that can be, and where cells have no
/// fields. A name of a field is another one than those that are taken.
pub fn layout_of<'a>(
    alloc: Global,
    is_csv: bool,
    texts: &[&'a str],
    taken: &[&str],
) -> Result<Layout<'a>, NoRequest> {
    if texts.is_empty() {
        return if is_csv {
            Err(NoRequest::bad_argument(alloc, "--format csv", "needs a --field"))
        } else {
            Ok(Layout::Records)
        };
    }
    let fields = fields_of(alloc, texts, DefaultName::Path, taken)?;
    Ok(if is_csv {
        Layout::Cells(fields)
    } else {
        Layout::Values(fields)
    })
}

// Adds a cell after a comma.
fn put_cell(cell: &[u8], row: &mut Vec<u8>) -> Result<(), AllocError> {
    row.push(b',')?;
    put_csv_cell(b',', cell, row)
}

// Adds the cell of a value: a text as it is, any other value as JSON, and empty where there is none.
fn put_value(
    alloc: Global,
    value: Option<&Value<'_>>,
    row: &mut Vec<u8>,
) -> Result<(), AllocError> {
    match value {
        Some(Value::String(text)) => put_cell(text.as_bytes(), row),
        Some(value) => put_cell(compact(alloc, value)?.as_slice(), row),
        None => put_cell(&[], row),
    }
}

// Adds the cell of the value at a path, an empty one where there is no record.
fn put_value_at(
    alloc: Global,
    found: Option<&Found<'_>>,
    path: &[PathElement<'_>],
    row: &mut Vec<u8>,
) -> Result<(), MaxMindDbError> {
    let value: Option<Value<'_>> = match found {
        Some(found) => value_along(alloc, found, path)?,
        None => None,
    };
    let put = put_value(alloc, value.as_ref(), row);
    drop(value);
    Ok(put?)
}

// Adds a network, the cells of each answer, and the end of the line.
fn put_cells(
    alloc: Global,
    fields: &ChosenFields<'_>,
    network: &str,
    answers: &[Option<&Found<'_>>],
    row: &mut Vec<u8>,
) -> Result<(), MaxMindDbError> {
    row.extend_from_slice(network.as_bytes())?;
    for found in answers {
        for path in &fields.paths {
            put_value_at(alloc, *found, path.as_slice(), row)?;
        }
    }
    Ok(row.push(b'\n')?)
}

/// A line of a network and the cells of each answer. Fails as `value_along` does.
pub fn line_of_cells(
    alloc: Global,
    fields: &ChosenFields<'_>,
    network: &str,
    answers: &[Option<&Found<'_>>],
) -> Result<Vec<u8>, MaxMindDbError> {
    let mut row = Vec::new(alloc);
    put_cells(alloc, fields, network, answers, &mut row)?;
    Ok(row)
}

// Adds the name of a column.
fn put_name(alloc: Global, prefix: &str, name: &str, row: &mut Vec<u8>) -> Result<(), AllocError> {
    let text: String = format!(in alloc; "{prefix}{name}")?;
    put_cell(text.as_bytes(), row)
}

// Adds the names of the columns, and the end of the line.
fn put_names(
    alloc: Global,
    prefixes: &[&str],
    names: &[&str],
    row: &mut Vec<u8>,
) -> Result<(), AllocError> {
    row.extend_from_slice(NETWORK.as_bytes())?;
    for prefix in prefixes {
        for name in names {
            put_name(alloc, *prefix, *name, row)?;
        }
    }
    row.extend_from_slice(b"\n")
}

/// The line of the columns' names: of the network, and for each prefix of the values. An `Err` is of memory.
pub fn line_of_names(
    alloc: Global,
    prefixes: &[&str],
    names: &[&str],
) -> Result<Vec<u8>, AllocError> {
    let mut row = Vec::new(alloc);
    put_names(alloc, prefixes, names, &mut row)?;
    Ok(row)
}

// Adds the value at a path, null where there is no record.
fn write_value(
    alloc: Global,
    found: Option<&Found<'_>>,
    path: &[PathElement<'_>],
    out: &mut Writer,
) -> Result<bool, MaxMindDbError> {
    match found {
        Some(found) => write_found(alloc, found, path, out),
        None => {
            out.token(Token::Null)?;
            Ok(false)
        }
    }
}

/// Adds the values at some paths to an object, each null where there is no record. Fails as `value_along` does.
pub fn write_values(
    alloc: Global,
    fields: &ChosenFields<'_>,
    found: Option<&Found<'_>>,
    out: &mut Writer,
) -> Result<(), MaxMindDbError> {
    for (name, path) in fields.names.iter().zip(&fields.paths) {
        out.token(Token::Key(*name))?;
        write_value(alloc, found, path.as_slice(), out)?;
    }
    Ok(())
}

impl Layout<'_> {
    // The fields, where not whole records are wanted.
    fn fields(&self) -> Option<&ChosenFields<'_>> {
        match self {
            Layout::Records => None,
            Layout::Values(fields) | Layout::Cells(fields) => Some(fields),
        }
    }

    /// The paths of the fields as they are written, none where whole records are wanted.
    pub fn path_texts(&self) -> &[&str] {
        match self.fields() {
            Some(fields) => fields.texts.as_slice(),
            None => &[],
        }
    }

    /// The paths of the fields, none where whole records are wanted.
    pub fn paths(&self) -> &[Vec<PathElement<'_>>] {
        match self.fields() {
            Some(fields) => fields.paths.as_slice(),
            None => &[],
        }
    }

    /// Whether a row has a whole record.
    pub fn has_records(&self) -> bool {
        matches!(self, Layout::Records)
    }

    /// The line of the columns' names, where there are columns. An `Err` is of memory.
    pub fn header(&self, alloc: Global) -> Result<Option<Vec<u8>>, AllocError> {
        match self {
            Layout::Cells(fields) => Ok(Some(line_of_names(
                alloc,
                &[""],
                fields.names.as_slice(),
            )?)),
            Layout::Records | Layout::Values(_) => Ok(None),
        }
    }
}
