//! Outputs that can't be written: why is said as the writer said it.
use super::databases::{FIRST, reader_of};
use super::queries::{Cells, Is, MOST_KEPT, Reported};
use mmdb_query::{One, QueryError, Rows, WriteError, export_rows};
use mmdb_reader::WithinOptions;
use mmdb_vectors::failures::Failures;
use std::alloc::Global;
use std::io::{self, ErrorKind, Write};

/// What a writer answers: the system's number of an error, or its kind; and the kind and the number that come of it.
#[derive(Clone, Copy, Debug)]
struct Row {
    code: Option<i32>,
    kind: ErrorKind,
}

#[rattlefmt::skip]
const ROWS: &[Row] = &[
    Row { code: Some(28), kind: ErrorKind::StorageFull },
    Row { code: Some(32), kind: ErrorKind::BrokenPipe },
    Row { code: None, kind: ErrorKind::BrokenPipe },
    Row { code: None, kind: ErrorKind::WriteZero },
];

/// A writer that takes nothing.
#[derive(Clone, Copy)]
struct Full {
    row: Row,
}

impl Write for Full {
    fn write(&mut self, _bytes: &[u8]) -> io::Result<usize> {
        match self.row.code {
            Some(code) => Err(io::Error::from_raw_os_error(code)),
            None => Err(io::Error::from(self.row.kind)),
        }
    }

    fn flush(&mut self) -> io::Result<()> {
        Ok(())
    }
}

// Why rows can't be written there, if that is why.
fn error_of(alloc: Global, row: Row) -> Option<WriteError> {
    let reader = reader_of(alloc, FIRST).ok()?;
    let walk = reader.networks(alloc, WithinOptions::default()).ok()?;
    let mut walk = One::new(walk);
    let mut faults = Reported {
        text: Vec::new(alloc),
    };
    let (conditions, template) = (Is { text: None }, Cells { front: "" });
    let mut rows = Rows::new(alloc, &template, (), MOST_KEPT).ok()?;
    let mut full = Full { row };
    let done = export_rows(
        alloc,
        &mut walk,
        &mut rows,
        &conditions,
        &mut full,
        &mut faults,
    );
    match done {
        Err(QueryError::Write(error)) => Some(error),
        _ => None,
    }
}

#[test]
fn outputs_that_are_full(rt: HostRuntime) -> Result<(), Failures> {
    let mut failures = Failures::new(rt.alloc());
    for row in ROWS {
        let is_right = match error_of(rt.alloc(), *row) {
            Some(error) => {
                let error = error.to_error();
                error.kind() == row.kind && error.raw_os_error() == row.code
            }
            None => false,
        };
        failures.expect(row, is_right);
    }
    failures.verdict()
}
