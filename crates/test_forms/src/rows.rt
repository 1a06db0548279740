//! Rows of columns, of one database and of two side by side.
ghost use Rattle.std.specs.Prelude.{⊤, ◌≡◌, IfOk, map};
ghost use Rattle.mmdb_query_forms.specs.Fitting.{ScratchFits};

use super::databases::{AGAIN, BROKEN, ENDING, FIRST, POINTERS, TURNS, Tree, reader_of};
use mmdb_compare::AskedDatabase;
use mmdb_query::{
    Answer, Conditions, Fault, Faults, Many, One, QueryError, Rows, Walk, export_rows,
};
use mmdb_query_forms::{Column, ColumnScratch, ColumnSource, Columns, RowForm};
use mmdb_reader::{IpNetwork, MaxMindDbError, PathElement, Reader, WithinOptions};
use mmdb_vectors::failures::Failures;
use std::alloc::{AllocError, Global};
use std::net::{IpAddr, Ipv4Addr};

/// No conditions.
struct All;

impl Conditions for All {
    ghost says = { λ _ _ _ _. ⊤ };

    ghost is_unread = { λ _ _ _. ⊤ };

    fn are_none(&self) -> bool {
        true
    }

    fn are_met<A: Answer>(&self, _alloc: Global, _answer: &A) -> Result<bool, MaxMindDbError> {
        Ok(true)
    }
}

/// Networks that can't be read.
#[derive(Drop)]
struct Reported {
    text: Vec<u8>,
}

impl Faults for Reported {
    fn report<A: Answer>(
        &mut self,
        fault: &Fault<'_, A>,
        _error: &MaxMindDbError,
    ) -> Result<(), AllocError> {
        if let Fault::Network(answer) = fault {
            answer.network().push_text(&mut self.text)?;
        }
        Ok(self.text.push(b'!')?)
    }

    fn passed(&mut self, _networks: u64) {}
}

/// A column: its name, and its path, or the place of the database whose record it shows.
type Shown = (&'static str, Result<&'static [&'static str], usize>);

/// Databases in their order, and columns; the rows, what can't be read, how many that are, and whether each column had a value.
#[derive(Clone, Copy)]
struct Row {
    trees: &'static [Tree],
    form: RowForm,
    columns: &'static [Shown],
    rows: &'static str,
    rest: &'static str,
}

#[rattlefmt::skip]
const ROWS: &[Row] = &[
    Row { trees: &[FIRST], form: RowForm::Csv, columns: &[("c", Ok(&["c"])), ("n", Ok(&["n"])), ("m", Ok(&["m"]))], rows: "64.0.0.0/2,A1,,\n128.0.0.0/2,\"{\"\"d\"\":\"\"D\"\"}\",7,\n192.0.0.0/2,B1,5,\n", rest: "0110" },
    Row { trees: &[FIRST], form: RowForm::Json, columns: &[("c", Ok(&["c"])), ("\"n", Ok(&["n"]))], rows: "{\"network\":\"64.0.0.0/2\",\"c\":\"A1\",\"\\\"n\":null}\n{\"network\":\"128.0.0.0/2\",\"c\":{\"d\":\"D\"},\"\\\"n\":7}\n{\"network\":\"192.0.0.0/2\",\"c\":\"B1\",\"\\\"n\":5}\n", rest: "011" },
    Row { trees: &[FIRST], form: RowForm::Json, columns: &[("record", Err(0))], rows: "{\"network\":\"64.0.0.0/2\",\"record\":{\"c\":\"A1\"}}\n{\"network\":\"128.0.0.0/2\",\"record\":{\"c\":{\"d\":\"D\"},\"n\":7}}\n{\"network\":\"192.0.0.0/2\",\"record\":{\"c\":\"B1\",\"n\":5}}\n", rest: "01" },
    Row { trees: &[FIRST], form: RowForm::Csv, columns: &[("record", Err(0)), ("none", Err(1))], rows: "64.0.0.0/2,\"{\"\"c\"\":\"\"A1\"\"}\",\n128.0.0.0/2,\"{\"\"c\"\":{\"\"d\"\":\"\"D\"\"},\"\"n\"\":7}\",\n192.0.0.0/2,\"{\"\"c\"\":\"\"B1\"\",\"\"n\"\":5}\",\n", rest: "010" },
    // what can't be read is not written
    Row { trees: &[FIRST, BROKEN], form: RowForm::Json, columns: &[("one", Err(0)), ("two", Err(1))], rows: "{\"network\":\"64.0.0.0/2\",\"one\":{\"c\":\"A1\"},\"two\":null}\n{\"network\":\"128.0.0.0/2\",\"one\":{\"c\":{\"d\":\"D\"},\"n\":7},\"two\":{\"c\":\"B1\",\"n\":5}}\n{\"network\":\"192.0.0.0/2\",\"one\":{\"c\":\"B1\",\"n\":5},\"two\":{\"c\":\"A1\"}}\n", rest: "0.0.0.0/2!111" },
    // a value is that of the first database that has one
    Row { trees: &[BROKEN, FIRST], form: RowForm::Csv, columns: &[("c", Ok(&["c"])), ("n", Ok(&["n"]))], rows: "64.0.0.0/2,A1,\n128.0.0.0/2,B1,5\n192.0.0.0/2,A1,5\n", rest: "0.0.0.0/2!111" },
    // what pointers lead to is shown each time, and a map that holds itself can't be read
    Row { trees: &[POINTERS], form: RowForm::Json, columns: &[("record", Err(0))], rows: "{\"network\":\"0.0.0.0/2\",\"record\":{\"p\":{\"k\":\"Hello\"},\"k\":{\"k\":\"Hello\"}}}\n{\"network\":\"64.0.0.0/2\",\"record\":{\"p\":{\"k\":\"Hello\"},\"k\":{\"k\":\"Hello\"}}}\n{\"network\":\"128.0.0.0/2\",\"record\":{\"d\":[[[]]]}}\n", rest: "192.0.0.0/2!11" },
    Row { trees: &[POINTERS], form: RowForm::Csv, columns: &[("p", Ok(&["p"])), ("record", Err(0))], rows: "0.0.0.0/2,\"{\"\"k\"\":\"\"Hello\"\"}\",\"{\"\"p\"\":{\"\"k\"\":\"\"Hello\"\"},\"\"k\"\":{\"\"k\"\":\"\"Hello\"\"}}\"\n64.0.0.0/2,\"{\"\"k\"\":\"\"Hello\"\"}\",\"{\"\"p\"\":{\"\"k\"\":\"\"Hello\"\"},\"\"k\"\":{\"\"k\"\":\"\"Hello\"\"}}\"\n128.0.0.0/2,,\"{\"\"d\"\":[[[]]]}\"\n", rest: "192.0.0.0/2!111" },
    // records that come again beside others, of the second database too
    Row { trees: &[FIRST, AGAIN], form: RowForm::Json, columns: &[("k", Ok(&["k"])), ("c", Ok(&["c"])), ("two", Err(1))], rows: "{\"network\":\"0.0.0.0/2\",\"k\":{\"k\":\"Hello\"},\"c\":null,\"two\":{\"p\":{\"k\":\"Hello\"},\"k\":{\"k\":\"Hello\"}}}\n{\"network\":\"64.0.0.0/2\",\"k\":\"Hello\",\"c\":\"A1\",\"two\":{\"k\":\"Hello\"}}\n{\"network\":\"128.0.0.0/2\",\"k\":{\"k\":\"Hello\"},\"c\":{\"d\":\"D\"},\"two\":{\"p\":{\"k\":\"Hello\"},\"k\":{\"k\":\"Hello\"}}}\n{\"network\":\"192.0.0.0/2\",\"k\":\"Hello\",\"c\":\"B1\",\"two\":{\"k\":\"Hello\"}}\n", rest: "0111" },
    Row { trees: &[AGAIN, FIRST], form: RowForm::Csv, columns: &[("c", Ok(&["c"])), ("k", Ok(&["k"])), ("m", Ok(&["m"]))], rows: "0.0.0.0/2,,\"{\"\"k\"\":\"\"Hello\"\"}\",\n64.0.0.0/2,A1,Hello,\n128.0.0.0/2,\"{\"\"d\"\":\"\"D\"\"}\",\"{\"\"k\"\":\"\"Hello\"\"}\",\n192.0.0.0/2,B1,Hello,\n", rest: "0110" },
    // a value is first in one, then in the other, and then in one again; of one record nothing can be read
    Row { trees: &[TURNS, ENDING], form: RowForm::Json, columns: &[("c", Ok(&["c"])), ("n", Ok(&["n"])), ("k", Ok(&["k"])), ("m", Ok(&["m"])), ("one", Err(0))], rows: "{\"network\":\"0.0.0.0/2\",\"c\":\"A1\",\"n\":5,\"k\":null,\"m\":null,\"one\":{\"c\":\"A1\"}}\n{\"network\":\"64.0.0.0/2\",\"c\":\"B1\",\"n\":5,\"k\":\"Hello\",\"m\":null,\"one\":{\"k\":\"Hello\"}}\n{\"network\":\"128.0.0.0/2\",\"c\":\"A1\",\"n\":7,\"k\":null,\"m\":null,\"one\":{\"c\":\"A1\"}}\n", rest: "192.0.0.0/2!111101" },
    Row { trees: &[ENDING, TURNS], form: RowForm::Csv, columns: &[("c", Ok(&["c"])), ("k", Ok(&["k"])), ("two", Err(1))], rows: "0.0.0.0/2,B1,,\"{\"\"c\"\":\"\"A1\"\"}\"\n64.0.0.0/2,B1,Hello,\"{\"\"k\"\":\"\"Hello\"\"}\"\n128.0.0.0/2,\"{\"\"d\"\":\"\"D\"\"}\",,\"{\"\"c\"\":\"\"A1\"\"}\"\n", rest: "192.0.0.0/2!1111" },
];

// A path of keys, or the place of a database.
fn source_of(
    alloc: Global,
    shown: Result<&'static [&'static str], usize>,
) -> Result<ColumnSource<'static>, AllocError> {
    match shown {
        Ok(keys) => {
            let mut path = Vec::new(alloc);
            for key in keys {
                path.push(PathElement::Key(*key))?;
            }
            Ok(ColumnSource::Path(path))
        }
        Err(place) => Ok(ColumnSource::Record(place)),
    }
}

// The columns of a row.
fn columns_of(alloc: Global, row: &Row) -> Result<Columns<'static>, AllocError> {
    let mut columns = Vec::new(alloc);
    for (name, shown) in row.columns {
        let source = source_of(alloc, *shown)?;
        columns.push(Column::new(alloc, *name, source)?)?;
    }
    Ok(Columns {
        form: row.form,
        columns,
    })
}

/// How many bytes are kept.
const MOST_KEPT: usize = 1 << 16;

// What rows of columns are made with, of the records of some data sections.
fn scratch_of<'r>(
    alloc: Global,
    columns: &Columns<'_>,
    sections: &[&'r [u8]],
) -> Result<ColumnScratch<'r>, AllocError>
    ensures texts { IfOk result (λ scratch. scratch.texts.items ≡ map (λ s. s.now) sections.now) }
    ensures fits { IfOk result (λ scratch. ScratchFits columns.now scratch.texts.items scratch) }
{
    let mut scratch = ColumnScratch::new(alloc, columns, sections.len(), MOST_KEPT)?;
    for section in sections {
        scratch.add_section(*section)?;
    }
    Ok(scratch)
}

// The rows of a walk, and behind a bar what can't be read, how many that are, and whether each column had a value.
fn rows_of<W: Walk>(
    alloc: Global,
    walk: &mut W,
    sections: &[&[u8]],
    row: &Row,
) -> Result<Vec<u8>, QueryError>
    requires { W.sections walk.old ≡ map (λ s. s.now) sections.now }
{
    let mut faults = Reported {
        text: Vec::new(alloc),
    };
    let mut text = Vec::new(alloc);
    let columns = columns_of(alloc, row)?;
    let count = columns.columns.len();
    let scratch = scratch_of(alloc, &columns, sections)?;
    let mut rows = Rows::new(alloc, &columns, scratch, MOST_KEPT)?;
    let unread = export_rows(alloc, walk, &mut rows, &All, &mut text, &mut faults)?;
    text.push(b'|')?;
    text.extend_from_slice(faults.text.as_slice())?;
    text.push(if unread == 0 { b'0' } else { b'1' })?;
    for place in 0..count {
        let has_met = rows.scratch().has_met(place);
        text.push(if has_met { b'1' } else { b'0' })?;
    }
    Ok(text)
}

// What an error of a database is here.
fn of_database(_error: MaxMindDbError) -> QueryError {
    QueryError::Memory
}

// The rows of one database.
fn rows_of_one(alloc: Global, row: &Row) -> Result<Vec<u8>, QueryError> {
    let Some(tree) = row.trees.first() else {
        return Err(QueryError::OutOfOrder);
    };
    let reader = reader_of(alloc, tree).map_err(of_database)?;
    let walk = reader
        .networks(alloc, WithinOptions::default())
        .map_err(of_database)?;
    let mut walk = One::new(walk);
    rows_of(alloc, &mut walk, &[reader.data_section()], row)
}

// The rows of several databases, each asked for all addresses of IPv4.
fn rows_of_several(alloc: Global, row: &Row) -> Result<Vec<u8>, QueryError> {
    let Ok(range) = IpNetwork::new(IpAddr::V4(Ipv4Addr::new(0, 0, 0, 0)), 0) else {
        return Err(QueryError::OutOfOrder);
    };
    let mut readers: Vec<Reader<Vec<u8>>> = Vec::new(alloc);
    for tree in row.trees {
        readers.push(reader_of(alloc, tree).map_err(of_database)?)?;
    }
    let (mut asked, mut sections) = (Vec::new(alloc), Vec::new(alloc));
    for reader in &readers {
        asked.push(AskedDatabase { reader, range })?;
        sections.push(reader.data_section())?;
    }
    let Ok(mut walk) = Many::new(alloc, asked.as_slice()) else {
        return Err(QueryError::Memory);
    };
    rows_of(alloc, &mut walk, sections.as_slice(), row)
}

// Whether these rows came.
fn are_rows(came: &Result<Vec<u8>, QueryError>, row: &Row) -> bool {
    let Ok(text) = came else {
        return false;
    };
    match text.as_slice().strip_prefix(row.rows.as_bytes()) {
        Some([b'|', rest @ ..]) => rest == row.rest.as_bytes(),
        _ => false,
    }
}

#[test]
fn rows_of_columns(rt: HostRuntime) -> Result<(), Failures> {
    let mut failures = Failures::new(rt.alloc());
    for row in ROWS {
        let several = rows_of_several(rt.alloc(), row);
        failures.expect(&row.rows, are_rows(&several, row));
        if row.trees.len() == 1 {
            let one = rows_of_one(rt.alloc(), row);
            failures.expect(&row.rows, are_rows(&one, row));
        }
    }
    failures.verdict()
}
