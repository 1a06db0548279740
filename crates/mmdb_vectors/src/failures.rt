//! The rows of a table that came out wrong.
use std::alloc::{AllocError, Global};
use std::fmt::{self, Debug, Display, Formatter, Write};

/// A line for each row that came out wrong.
#[derive(Drop)]
pub struct Failures {
    alloc: Global,
    lines: String,
    count: u32,
}

// The text that was reported, where memory for it was not lacking.
fn text_of(reported: &Result<String, AllocError>) -> Option<&str> {
    match reported {
        Ok(text) => Some(text.as_str()),
        Err(_) => None,
    }
}

impl Failures {
    pub fn new(alloc: Global) -> Failures {
        Failures {
            alloc,
            lines: String::new(alloc),
            count: 0,
        }
    }

    /// Notes what became of a row that came out wrong. It counts even where memory for its line is lacking.
    pub fn note(&mut self, row: &impl Debug, reported: &impl Display) {
        self.count = self.count.saturating_add(1);
        let line = format!(in self.alloc; "{row:?}: {reported}\n");
        if let Ok(line) = line {
            let _ = self.lines.push_str(line.as_str());
        }
    }

    /// Notes a row that does not hold.
    pub fn expect(&mut self, row: &impl Debug, holds: bool) {
        if !holds {
            self.note(row, &"does not hold");
        }
    }

    /// Notes a row whose answer is another text than the one that is wanted.
    pub fn expect_text(
        &mut self,
        row: &impl Debug,
        reported: Result<String, AllocError>,
        wanted: &str,
    ) {
        let is_wanted = text_of(&reported) == Some(wanted);
        self.expect_reported(row, &reported, is_wanted);
    }

    /// Notes a row whose answer is a text with another ending than the one that is wanted.
    pub fn expect_ending(
        &mut self,
        row: &impl Debug,
        reported: Result<String, AllocError>,
        ending: &str,
    ) {
        let is_wanted = text_of(&reported).unwrap_or("").ends_with(ending);
        self.expect_reported(row, &reported, is_wanted);
    }

    // Notes what a row was given, where that is not what is wanted.
    fn expect_reported(
        &mut self,
        row: &impl Debug,
        reported: &Result<String, AllocError>,
        is_wanted: bool,
    ) {
        if !is_wanted {
            self.note(row, &text_of(reported).unwrap_or("out of memory"));
        }
    }

    /// The failures as an error, where there is one.
    pub fn verdict(self) -> Result<(), Failures> {
        if self.count == 0 { Ok(()) } else { Err(self) }
    }
}

impl Debug for Failures {
    fn fmt<W: Write>(&self, f: &mut Formatter<W>) -> fmt::Result {
        write!(f, "{} failed\n{}", self.count, self.lines)
    }
}
