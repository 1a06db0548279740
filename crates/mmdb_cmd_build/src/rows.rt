//! Rows of every format.
use crate::cells::Cells;
use crate::entry::{RowEntry, Values};
use crate::error::InputError;
use crate::json_lines::JsonLines;
use crate::task::BuildTask;
use crate::types::Types;
use mmdb_arguments::RowFormat;
use std::alloc::{AllocError, Global};

/// What reads rows.
#[derive(Drop)]
pub(crate) enum RowReader<'t> {
    Json(JsonLines<'t>),
    /// The next row is a header.
    Header,
    Cells(Cells<'t>),
}

// A row without its end.
fn without_end(row: &[u8]) -> &[u8] {
    match row {
        [text @ .., b'\r', b'\n'] => text,
        [text @ .., b'\n'] => text,
        _ => row,
    }
}

// Whether a row has nothing but white space.
fn is_blank(row: &[u8]) -> bool {
    row.iter().all(|byte| matches!(*byte, b' ' | b'\t' | b'\r'))
}

impl<'t> RowReader<'t> {
    pub(crate) fn new(
        alloc: Global,
        task: &BuildTask<'t>,
        types: &'t Types,
    ) -> Result<RowReader<'t>, AllocError> {
        Ok(match task.format {
            RowFormat::JsonLines => RowReader::Json(JsonLines::new(alloc, task.columns, types)?),
            RowFormat::Csv | RowFormat::Tsv => RowReader::Header,
        })
    }

    /// Whether the header is still to come.
    pub(crate) fn wants_header(&self) -> bool {
        matches!(self, RowReader::Header)
    }

    // Takes a header. It is apart from `entry`, which else would clear as many bytes as a reader has for each row.
    #[inline(never)]
    fn take_header(
        &mut self,
        alloc: Global,
        task: &BuildTask<'t>,
        types: &'t Types,
        header: &[u8],
    ) -> Result<(), InputError> {
        let cells = Cells::new(alloc, task.rows(), task.columns, types, header)?;
        *self = RowReader::Cells(cells);
        Ok(())
    }

    /// What a row says. None of a header, and of a row with nothing but white space.
    pub(crate) fn entry<V: Values>(
        &mut self,
        alloc: Global,
        task: &BuildTask<'t>,
        types: &'t Types,
        row: &[u8],
        values: &mut V,
    ) -> Result<Option<RowEntry>, InputError> {
        let text = without_end(row);
        match self {
            RowReader::Json(_) | RowReader::Cells(_) if is_blank(text) => Ok(None),
            RowReader::Json(lines) => Ok(Some(lines.entry(alloc, text, values)?)),
            RowReader::Cells(cells) => Ok(Some(cells.entry(alloc, text, values)?)),
            RowReader::Header => {
                self.take_header(alloc, task, types, text)?;
                Ok(None)
            }
        }
    }
}
