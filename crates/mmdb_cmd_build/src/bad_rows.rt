//! Rows that are not taken.
use crate::error::BadRow;
use mmdb_console::Console;
use std::alloc::{AllocError, Global};
use std::io::Write;

/// How many are shown.
const MOST_SHOWN: usize = 20;

/// A row that is shown: its line, and what is wrong with it.
#[derive(Drop)]
struct ShownRow {
    line: u64,
    row: BadRow,
}

/// Rows that are not taken: how many lines they have, and the first of them.
#[derive(Drop)]
pub(crate) struct BadRows {
    pub(crate) lines: u64,
    shown: Vec<ShownRow>,
}

impl BadRows {
    pub(crate) fn new(alloc: Global) -> BadRows {
        BadRows {
            lines: 0,
            shown: Vec::new(alloc),
        }
    }

    /// Notes that the row of so many lines is not taken, the first of which is this one.
    pub(crate) fn add(&mut self, line: u64, lines: u64, row: BadRow) -> Result<(), AllocError> {
        self.lines = self.lines.saturating_add(lines);
        if self.shown.len() < MOST_SHOWN {
            self.shown.push(ShownRow { line, row })?;
        }
        Ok(())
    }

    /// Reports the first ones, with the file that they are of.
    pub(crate) fn report<O: Write, E: Write>(&self, from: &str, console: &mut Console<'_, O, E>) {
        for shown in &self.shown {
            let line = shown.line;
            let of: Result<String, AllocError> = format!(in console.alloc; "{from}:{line}");
            if let Ok(of) = of {
                console.report(of.as_str(), &shown.row);
            }
        }
    }
}
