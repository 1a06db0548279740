//! What `enrich` is asked for.
ghost use Rattle.std.specs.Prelude.{◌≡◌, IfOk, option_map};
ghost use Rattle.mmdb_cmd_enrich.specs.Tasks.{name_asked, reading_asked, rows_asked, rows_of_text};

use crate::members::NamedField;
use crate::warnings::AddressPlace;
use mmdb_addresses::Reading;
use mmdb_arguments::{EnrichArguments, Hop, NoRequest};
use mmdb_console::wanted_path;
use mmdb_filter::Rows;
use mmdb_layout::{ChosenFields, DefaultName, NETWORK, fields_of};
use mmdb_objects::PathStep;
use mmdb_reader::PathElement;
use std::alloc::{AllocError, Global};

/// A column of lines.
#[derive(Clone, Copy)]
pub(crate) enum Column<'a> {
    /// Counted from 0.
    Number(usize),
    /// By its name in the first line.
    Name(&'a str),
}

/// What `enrich` is asked for of rows: fields after them.
#[derive(Drop)]
pub(crate) struct RowsTask<'a> {
    pub(crate) rows: Rows,
    pub(crate) reading: Reading,
    pub(crate) column: Column<'a>,
    /// What the columns are called that are added.
    pub(crate) names: Vec<&'a str>,
    pub(crate) paths: Vec<Vec<PathElement<'a>>>,
    /// Whether the network of the address comes before the fields.
    pub(crate) network: bool,
    pub(crate) header: bool,
}

impl RowsTask<'_> {
    /// Where the address of a row is looked for.
    pub(crate) fn place<'a>(&self, arguments: &EnrichArguments<'a>) -> AddressPlace<'a> {
        if arguments.anywhere {
            return AddressPlace::Anywhere;
        }
        AddressPlace::Column {
            text: arguments.column,
            rows: self.rows,
        }
    }
}

/// What `enrich` is asked for of lines of JSON: fields in them.
#[derive(Drop)]
pub(crate) struct JsonTask<'a> {
    pub(crate) reading: Reading,
    /// The path of the address in an object.
    pub(crate) path: Vec<PathStep<'a>>,
    /// The name of the member that is added.
    pub(crate) into: &'a str,
    /// Whether objects without a record get it too.
    pub(crate) nulls: bool,
    /// Whether the network of the address comes before the fields.
    pub(crate) network: bool,
    /// Without one the member is the record.
    pub(crate) fields: Vec<NamedField<'a>>,
}

// The column that a text stands for: a name only where there is a header.
fn column_of<'a>(alloc: Global, text: &'a str, header: bool) -> Result<Column<'a>, NoRequest> {
    match text.parse::<usize>() {
        Ok(number) if number > 0 => Ok(Column::Number(number - 1)),
        Err(_) if header => Ok(Column::Name(text)),
        _ => Err(NoRequest::bad_argument(alloc, text, "not the number of a column")),
    }
}

/// Lines with tabs between the cells.
pub(crate) const LINES: Rows = Rows::Lines { delimiter: b'\t' };

// What rows are, by what separates their cells: those of a line tabs, or what is asked for where quotes mean nothing;
// else they are CSV.
fn rows_of(alloc: Global, delimiter: Option<&str>, no_quotes: bool) -> Result<Rows, NoRequest>
    ensures { IfOk result (λ rows.
        rows ≡ rows_of_text (option_map (λ text. text.now) delimiter.entry) no_quotes) }
{
    let Some(text) = delimiter else {
        return Ok(LINES);
    };
    match text.as_bytes() {
        b"\t" | b"\\t" => Ok(LINES),
        [b'"'] if !no_quotes => Err(bad_delimiter(alloc)),
        [b'\n' | b'\r'] => Err(bad_delimiter(alloc)),
        [delimiter] if no_quotes => Ok(Rows::Lines {
            delimiter: *delimiter,
        }),
        [delimiter] => Ok(Rows::Csv {
            delimiter: *delimiter,
        }),
        _ => Err(NoRequest::bad_argument(alloc, text, "not one ASCII character")),
    }
}

// Where in a cell, a string or a row the address is.
fn reading_of(arguments: &EnrichArguments<'_>) -> Reading
    ensures { result ≡ reading_asked arguments.now }
{
    match arguments.hop {
        Hop::Last if arguments.anywhere => Reading::LastAnywhere,
        _ if arguments.anywhere => Reading::Anywhere,
        _ if arguments.exact => Reading::Exact,
        Hop::First => Reading::First,
        Hop::Last => Reading::Last,
    }
}

// The same, or that an option is given where it does nothing: where an address is looked for anywhere it is no cell's.
fn tested_reading(alloc: Global, arguments: &EnrichArguments<'_>) -> Result<Reading, NoRequest>
    ensures { IfOk result (λ reading. reading ≡ reading_asked arguments.now) }
{
    if arguments.anywhere && arguments.exact {
        return Err(NoRequest::bad_argument(alloc, "--exact", "of no use with --anywhere"));
    }
    Ok(reading_of(arguments))
}

// The error of a delimiter that can separate no cells.
fn bad_delimiter(alloc: Global) -> NoRequest {
    NoRequest::bad_argument(alloc, "--delimiter", "neither a quote nor a line break")
}

/// The names of columns, and the paths of the fields in them.
type FieldColumns<'a> = (Vec<&'a str>, Vec<Vec<PathElement<'a>>>);

/// What a name of a column is that no row can have.
const BROKEN_ROW: &str = "a name with what separates columns or lines";

/// What `--network` is without a field in objects.
const FIELDLESS_NETWORK: &str = "with --json needs a --field; --field record= has the whole record";

// That there is a field where objects need one: with the network.
fn test_fields(alloc: Global, arguments: &EnrichArguments<'_>) -> Result<(), NoRequest> {
    if arguments.network && arguments.fields.is_empty() {
        return Err(NoRequest::bad_argument(alloc, "--network", FIELDLESS_NETWORK));
    }
    Ok(())
}

// The fields of objects.
fn members_of<'a>(
    alloc: Global,
    arguments: &EnrichArguments<'a>,
) -> Result<Vec<NamedField<'a>>, NoRequest> {
    let ChosenFields {
        names,
        texts: _,
        paths,
        is_named: _,
    } = fields_of(
        alloc,
        arguments.fields.as_slice(),
        DefaultName::LastStep,
        taken_names(arguments.network),
    )?;
    let mut members = Vec::new(alloc);
    for (name, path) in names.iter().zip(paths) {
        members.push(NamedField { name: *name, path })?;
    }
    Ok(members)
}

// Whether the cells of a row can't have this name for a column.
fn breaks_row(rows: Rows, name: &str) -> bool {
    match rows {
        Rows::Lines { delimiter } => {
            let mut bytes = name.as_bytes().iter();
            bytes.any(|byte| *byte == delimiter || *byte == b'\n' || *byte == b'\r')
        }
        Rows::Csv { .. } => false,
    }
}

// What the columns are called that are added: that of the network, where it is wanted, before those of the fields.
fn names_of<'a>(
    alloc: Global,
    network: bool,
    fields: Vec<&'a str>,
) -> Result<Vec<&'a str>, AllocError> {
    if !network {
        return Ok(fields);
    }
    let mut names = Vec::new(alloc);
    names.push(NETWORK)?;
    names.extend_from_slice(fields.as_slice())?;
    Ok(names)
}

// The names that no field may have.
fn taken_names(network: bool) -> &'static [&'static str] {
    if network { &[NETWORK] } else { &[] }
}

// What the columns are called that are added, and where the fields are. An `Err` where a given name would break the first row.
fn columns_of<'a>(
    alloc: Global,
    rows: Rows,
    arguments: &EnrichArguments<'a>,
) -> Result<FieldColumns<'a>, NoRequest> {
    let ChosenFields {
        names,
        texts: _,
        paths,
        is_named,
    } = fields_of(
        alloc,
        arguments.fields.as_slice(),
        DefaultName::Path,
        taken_names(arguments.network),
    )?;
    if is_named && arguments.header {
        for name in &names {
            if breaks_row(rows, *name) {
                return Err(NoRequest::bad_argument(alloc, *name, BROKEN_ROW));
            }
        }
    }
    Ok((names_of(alloc, arguments.network, names)?, paths))
}

// A step of the path of an address in an object: a key, or an index from the front.
fn step_of<'a>(
    alloc: Global,
    step: &PathElement<'a>,
    path: &str,
) -> Result<PathStep<'a>, NoRequest> {
    match step {
        PathElement::Key(key) => Ok(PathStep::Key(*key)),
        PathElement::Index(index) => Ok(PathStep::Index(*index)),
        PathElement::IndexFromEnd(_) => Err(NoRequest::bad_argument(
            alloc,
            path,
            "an index from the end, of which --json knows none",
        )),
    }
}

// The path of an address in an object.
fn address_path<'a>(alloc: Global, text: &'a str) -> Result<Vec<PathStep<'a>>, NoRequest> {
    let path = wanted_path(alloc, text)?;
    let mut steps = Vec::new(alloc);
    for step in &path {
        steps.push(step_of(alloc, step, text)?)?;
    }
    Ok(steps)
}

/// What the arguments of `enrich` ask for of lines of JSON, whose addresses are at a path. An `Err` where one is not what
/// is wanted in its place.
pub(crate) fn json_task<'a>(
    alloc: Global,
    path: &'a str,
    arguments: &'a EnrichArguments<'a>,
) -> Result<JsonTask<'a>, NoRequest>
    ensures reading { IfOk result (λ task. task.reading ≡ reading_asked arguments.now) }
    ensures name { IfOk result (λ task. task.into.now ≡ name_asked arguments.now) }
    ensures nulls { IfOk result (λ task. task.nulls ≡ arguments.now.nulls) }
    ensures network { IfOk result (λ task. task.network ≡ arguments.now.network) }
{
    let into = arguments.into.unwrap_or("geo");
    if into.is_empty() {
        return Err(NoRequest::bad_argument(alloc, "--into", "an empty name"));
    }
    test_fields(alloc, arguments)?;
    Ok(JsonTask {
        reading: tested_reading(alloc, arguments)?,
        path: address_path(alloc, path)?,
        into,
        nulls: arguments.nulls,
        network: arguments.network,
        fields: members_of(alloc, arguments)?,
    })
}

/// What the arguments of `enrich` ask for of rows. An `Err` where one is not what is wanted in its place.
pub(crate) fn rows_task<'a>(
    alloc: Global,
    arguments: &'a EnrichArguments<'a>,
) -> Result<RowsTask<'a>, NoRequest>
    ensures rows { IfOk result (λ task. task.rows ≡ rows_asked arguments.now) }
    ensures reading { IfOk result (λ task. task.reading ≡ reading_asked arguments.now) }
    ensures network { IfOk result (λ task. task.network ≡ arguments.now.network) }
    ensures header { IfOk result (λ task. task.header ≡ arguments.now.header) }
{
    if arguments.into.is_some() {
        return Err(NoRequest::bad_argument(alloc, "--into", "needs a --json"));
    }
    if arguments.nulls {
        return Err(NoRequest::bad_argument(alloc, "--nulls", "needs a --json"));
    }
    if arguments.no_quotes && arguments.delimiter.is_none() {
        return Err(NoRequest::bad_argument(alloc, "--no-quotes", "needs a --delimiter"));
    }
    let rows = rows_of(alloc, arguments.delimiter, arguments.no_quotes)?;
    let column = column_of(alloc, arguments.column, arguments.header)?;
    if arguments.fields.is_empty() && !arguments.network {
        return Err(NoRequest::bad_argument(alloc, "enrich", "needs a --field"));
    }
    let reading = tested_reading(alloc, arguments)?;
    let (names, paths) = columns_of(alloc, rows, arguments)?;
    Ok(RowsTask {
        rows,
        reading,
        column,
        names,
        paths,
        network: arguments.network,
        header: arguments.header,
    })
}
