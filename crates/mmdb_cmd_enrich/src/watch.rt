//! What is said of rows while they pass.
use crate::reload::Lookout;
use mmdb_console::{Pace, Passed, ProgressLine, line_of};
use mmdb_filter::{Counts, Outcome, Progress};
use std::alloc::Global;
use std::cell::Cell;
use std::io::Write;
use std::rt::Files;
use std::time::Clock;

/// Of this many rows it is said that they stay in quotes.
const MOST_SAID: u64 = 10;

/// Which rows are watched.
#[derive(Clone, Copy)]
pub(crate) struct WatchedRows {
    /// How many bytes the input has, where that is known.
    pub(crate) size: Option<u64>,
    /// Whether rows end once where that is asked first.
    pub(crate) stops: bool,
    pub(crate) is_quiet: bool,
    /// How many rows are before the first one of the filter.
    pub(crate) before: u64,
}

/// How many rows passed is shown on a terminal. Rows that stay in quotes are warned of.
#[derive(Drop)]
pub(crate) struct Watch<'e, E: Pace, R: Files + Clock> {
    alloc: Global,
    line: ProgressLine<'e, E>,
    rows: WatchedRows,
    /// How many bytes of the input passed.
    bytes: &'e Cell<u64>,
    /// Where it ends because a file was replaced.
    pub(crate) lookout: Lookout,
    rt: &'e R,
    /// How many rows stay in quotes.
    pub(crate) quoted: u64,
    /// The number of the first row that has already what would be added.
    pub(crate) occupied: Option<u64>,
    /// The number of the first row that is too long.
    pub(crate) too_long: Option<u64>,
}

impl<'e, E: Pace, R: Files + Clock> Watch<'e, E, R> {
    pub(crate) fn new(
        alloc: Global,
        line: ProgressLine<'e, E>,
        rows: WatchedRows,
        bytes: &'e Cell<u64>,
        lookout: Lookout,
        rt: &'e R,
    ) -> Watch<'e, E, R> {
        Watch {
            alloc,
            line,
            rows,
            bytes,
            lookout,
            rt,
            quoted: 0,
            occupied: None,
            too_long: None,
        }
    }

    // The number of the row after `rows` others.
    fn number(&self, rows: u64) -> u64 {
        rows.saturating_add(self.rows.before).saturating_add(1)
    }

    /// Takes what is shown on a terminal away again.
    pub(crate) fn clear(&mut self) {
        self.line.clear();
    }
}

impl<'e, E: Pace, R: Files + Clock> Progress for Watch<'e, E, R> {
    ghost use Rattle.std.specs.Prelude.{◌≡◌, ◌⊎◌, true};

    ghost ends = { λ watch. (watch.rows.stops ≡ true) ⊎ (watch.lookout.has_seen ≡ true) };

    fn passed(&mut self, counts: Counts) -> bool {
        if self.rows.stops {
            return false;
        }
        self.line.passed(Passed {
            count: counts.total().unwrap_or(u64::MAX),
            bytes: Some(self.bytes.get()),
            size: self.rows.size,
        });
        true
    }

    fn has_read(&mut self) -> bool {
        !self.lookout.look(self.rt)
    }

    fn stays_quoted(&mut self, rows: u64, is_long: bool) {
        self.quoted = self.quoted.saturating_add(1);
        if self.rows.is_quiet || self.quoted > MOST_SAID {
            return;
        }
        let row = self.number(rows);
        let place = if is_long {
            "after 65,536 bytes"
        } else {
            "at the end of the input"
        };
        self.line.note(line_of(
            self.alloc,
            format!(in self.alloc;
                "mmdb: row {row}: a quote is still open {place}; see --no-quotes"
            ),
        ));
    }

    fn is_named(&mut self, rows: u64, outcome: Outcome) {
        let number = Some(self.number(rows));
        match outcome {
            Outcome::TooLong => self.too_long = self.too_long.or(number),
            _ => self.occupied = self.occupied.or(number),
        }
    }
}
