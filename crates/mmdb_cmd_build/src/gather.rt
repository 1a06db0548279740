//! Rows that are gathered.
use crate::bad_rows::BadRows;
use crate::entry::RowEntry;
use crate::error::{InputError, Reason};
use crate::input_rows::{RowRead, read_row};
use crate::rows::RowReader;
use crate::taken::TakenRows;
use crate::task::BuildTask;
use crate::types::Types;
use mmdb_console::{Pace, Passed, ProgramError, ProgressLine};
use std::alloc::Global;
use std::io::{BufRead, Write};

/// After this many rows it is shown how many passed.
const STEP: u64 = 65_536;

/// Rows that are gathered.
#[derive(Drop)]
pub(crate) struct Gathering {
    pub(crate) taken: TakenRows,
    pub(crate) bad: BadRows,
    /// Whether the values have more bytes than a file may have.
    pub(crate) is_too_large: bool,
    /// Whether the first row should be a header and is none, so that no other row was read.
    pub(crate) has_no_header: bool,
    /// Whether a quote is not closed, so that it is not known which rows come after it.
    pub(crate) has_open_quote: bool,
}

/// Which lines a row has: the first, and how many.
#[derive(Clone, Copy)]
struct RowLines {
    first: u64,
    count: u64,
}

/// A row that was read, and the lines that it has.
#[derive(Clone, Copy)]
struct ReadRow<'x> {
    lines: RowLines,
    read: RowRead,
    bytes: &'x [u8],
}

// Which lines a row has, before which and with which so many lines end.
fn lines_of(before: u64, behind: u64, read: RowRead, row: &[u8]) -> RowLines {
    let is_last = matches!(read, RowRead::Whole | RowRead::Unclosed) && row.last() != Some(&b'\n');
    let count = behind
        .saturating_sub(before)
        .saturating_add(u64::from(is_last));
    RowLines {
        first: before.saturating_add(1),
        count: count.max(1),
    }
}

/// What some editors put before a text.
const BYTE_ORDER_MARK: &[u8] = b"\xEF\xBB\xBF";

// The bytes of a row, of the first one without a byte order mark.
fn text_of_row(line: u64, row: &[u8]) -> &[u8] {
    if line == 1 {
        row.strip_prefix(BYTE_ORDER_MARK).unwrap_or(row)
    } else {
        row
    }
}

impl Gathering {
    // Notes what is wrong with a row.
    fn note(&mut self, lines: RowLines, error: InputError) -> Result<(), ProgramError> {
        match error {
            InputError::Row(row) => Ok(self.bad.add(lines.first, lines.count, row)?),
            InputError::Memory => Err(ProgramError::Memory),
            InputError::TooLarge => {
                self.is_too_large = true;
                Ok(())
            }
        }
    }

    // Takes what a row says.
    fn take(
        &mut self,
        lines: RowLines,
        entry: Result<Option<RowEntry>, InputError>,
    ) -> Result<(), ProgramError> {
        let entry = match entry {
            Ok(entry) => entry,
            Err(error) => return self.note(lines, error),
        };
        let Some(entry) = entry else {
            return Ok(());
        };
        match self.taken.take(entry) {
            Ok(()) => Ok(()),
            Err(error) => self.note(lines, error),
        }
    }

    // Takes a row that was read.
    fn take_row<'t>(
        &mut self,
        alloc: Global,
        task: &BuildTask<'t>,
        types: &'t Types,
        reader: &mut RowReader<'t>,
        row: ReadRow<'_>,
    ) -> Result<(), ProgramError> {
        let entry = match row.read {
            RowRead::TooLong => Err(InputError::from(Reason::TooLong)),
            RowRead::Unclosed => Err(InputError::from(Reason::Unclosed)),
            RowRead::StillOpen => Err(InputError::from(Reason::StillOpen)),
            RowRead::Whole | RowRead::End => {
                let text = text_of_row(row.lines.first, row.bytes);
                reader.entry(alloc, task, types, text, &mut self.taken)
            }
        };
        self.take(row.lines, entry)
    }

    /// Gathers all rows of an input. An `Err` is of the input, or of memory.
    pub(crate) fn gather<'t, I: BufRead, E: Pace>(
        &mut self,
        alloc: Global,
        task: &BuildTask<'t>,
        types: &'t Types,
        input: &mut I,
        progress: &mut ProgressLine<'_, E>,
    ) -> Result<(), ProgramError> {
        let mut reader = RowReader::new(alloc, task, types)?;
        let mut row = Vec::new(alloc);
        let mut ended = 0u64;
        for passed in 0..u64::MAX {
            if passed % STEP == 0 && passed > 0 {
                progress.passed(Passed::of(passed));
            }
            let before = ended;
            let read = read_row(alloc, input, task.rows(), &mut row, &mut ended)?;
            if read == RowRead::End {
                break;
            }
            let read_row = ReadRow {
                lines: lines_of(before, ended, read, &row),
                read,
                bytes: &row,
            };
            self.take_row(alloc, task, types, &mut reader, read_row)?;
            self.has_no_header = reader.wants_header();
            self.has_open_quote = matches!(read, RowRead::Unclosed | RowRead::StillOpen);
            if self.has_no_header || self.has_open_quote || self.is_too_large {
                break;
            }
        }
        Ok(())
    }
}
