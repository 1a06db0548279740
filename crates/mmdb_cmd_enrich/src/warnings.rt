//! What is said of rows besides how they fared.
use crate::fields::AskedField;
use crate::memory::EnrichMemory;
use crate::missing::fields_met;
use crate::notes::Notes as Records;
use mmdb_arguments::EnrichArguments;
use mmdb_console::{Console, DONE, FAILED, line_of};
use mmdb_filter::{Counts, Rows};
use mmdb_layout::{Database, RecordAt, absent_text};
use mmdb_reader::MaxMindDbError;
use std::alloc::{AllocError, Global};
use std::io::Write;

/// Of this many fields it is said that no record has them.
const MOST_SAID: usize = 10;

/// Where the address of a row is looked for.
#[derive(Clone, Copy)]
pub(crate) enum AddressPlace<'a> {
    /// In a column with this number or name.
    Column { text: &'a str, rows: Rows },
    /// Anywhere in a line.
    Anywhere,
    /// At this path in an object.
    Member(&'a str),
}

/// Who remembers what was amiss with records.
pub(crate) trait Remembering {
    fn records(&self) -> &Records;

    fn records_mut(&mut self) -> &mut Records;
}

impl<R, M> Remembering for EnrichMemory<R, M> {
    fn records(&self) -> &Records {
        &self.kept.notes
    }

    fn records_mut(&mut self) -> &mut Records {
        &mut self.kept.notes
    }
}

/// Which rows passed.
#[derive(Clone, Copy)]
enum Passed {
    SoFar,
    All,
}

impl Passed {
    // What stands behind `no line`.
    fn so_far(self) -> &'static str {
        match self {
            Passed::SoFar => " so far",
            Passed::All => "",
        }
    }

    // Whose records are those of these rows.
    fn whose(self) -> &'static str {
        match self {
            Passed::SoFar => "none of the lines' records so far",
            Passed::All => "none of the lines' records",
        }
    }
}

/// What is said of rows, and whether some of it is a failure.
#[derive(Drop)]
pub(crate) struct Warnings<'a> {
    place: AddressPlace<'a>,
    fields: Vec<AskedField<'a>>,
    /// Whether it is left out what is amiss but sets no status.
    is_quiet: bool,
    is_strict: bool,
    /// Whether it is said how rows fared.
    says_counts: bool,
    /// How many rows are before the first one that is enriched.
    pub(crate) before: u64,
    has_said_no_address: bool,
    has_warned: bool,
    /// How many failures are said.
    failures: usize,
    /// How many fields are said that no record has.
    said: usize,
    /// The number of the first row that has already what would be added.
    pub(crate) occupied: Option<u64>,
    /// The number of the first row that is too long.
    pub(crate) too_long: Option<u64>,
}

// What separates cells, in words.
fn separators(alloc: Global, rows: Rows) -> Result<String, AllocError> {
    let (Rows::Lines { delimiter } | Rows::Csv { delimiter }) = rows;
    match delimiter {
        b'\t' => String::from_str(alloc, "tabs"),
        b' ' => String::from_str(alloc, "spaces"),
        b',' => String::from_str(alloc, "commas"),
        b';' => String::from_str(alloc, "semicolons"),
        other => format!(in alloc; "{}", char::from(other)),
    }
}

// That no row had an address.
fn no_address(
    alloc: Global,
    place: AddressPlace<'_>,
    passed: Passed,
) -> Result<String, AllocError> {
    let so_far = passed.so_far();
    match place {
        AddressPlace::Column { text, rows } => {
            let separators = separators(alloc, rows)?;
            format!(in alloc;
                "mmdb: no line{so_far} had an address in column {text}; columns are separated by {separators} here: see --delimiter, --anywhere"
            )
        }
        AddressPlace::Anywhere => format!(in alloc; "mmdb: no line{so_far} had an address"),
        AddressPlace::Member(path) => {
            format!(in alloc; "mmdb: no object{so_far} had an address at {path}")
        }
    }
}

// Whether rows passed, and none had an address.
fn had_no_address(counts: Counts) -> bool {
    !has_asked(counts) && (counts.unreadable > 0 || counts.malformed > 0)
}

// Whether databases were asked for an address.
fn has_asked(counts: Counts) -> bool {
    counts.found > 0 || counts.absent > 0 || counts.rejected > 0 || counts.occupied > 0
}

// Whether databases could be asked for an address. Of those with an error so many could not.
fn could_ask(counts: Counts, unasked: u64) -> bool {
    counts.found > 0 || counts.absent > 0 || counts.occupied > 0 || counts.rejected > unasked
}

// Whether a row got no answer that it asked for. An address without a record is an answer.
fn is_unanswered(counts: Counts) -> bool {
    let Counts {
        found: _,
        absent: _,
        unreadable,
        malformed,
        too_long,
        rejected,
        occupied,
    } = counts;
    unreadable > 0 || malformed > 0 || too_long > 0 || rejected > 0 || occupied > 0
}

// Whether a record had a value at a field.
fn is_met(records: &Records, field: usize) -> bool {
    field < records.met.len() && records.met[field]
}

// What is said of a field that no such record has.
fn missing_text(
    alloc: Global,
    whose: &str,
    path: &str,
    records: &Records,
    databases: &[Database],
) -> Result<String, AllocError> {
    let mut noted = Vec::new(alloc);
    for record in &records.records {
        if let Some(database) = databases.get(record.database) {
            noted.push(RecordAt {
                section: database.data_section(),
                offset: record.offset,
            })?;
        }
    }
    absent_text(alloc, whose, path, noted.as_slice())
}

impl<'a> Warnings<'a> {
    /// Nothing is said yet of rows after `before` others.
    pub(crate) fn new(
        place: AddressPlace<'a>,
        fields: Vec<AskedField<'a>>,
        before: u64,
        arguments: &EnrichArguments<'_>,
    ) -> Warnings<'a> {
        Warnings {
            place,
            fields,
            is_quiet: arguments.quiet && !arguments.strict,
            is_strict: arguments.strict,
            says_counts: !arguments.quiet,
            before,
            has_said_no_address: false,
            has_warned: false,
            failures: 0,
            said: 0,
            occupied: None,
            too_long: None,
        }
    }

    /// Whether only what sets the status is said.
    pub(crate) fn is_quiet(&self) -> bool {
        self.is_quiet
    }

    /// `quoted` rows stay in quotes, and these are the first that have already what would be added, and that are too long.
    pub(crate) fn add(&mut self, quoted: u64, occupied: Option<u64>, too_long: Option<u64>) {
        self.has_warned |= quoted > 0;
        self.occupied = self.occupied.or(occupied);
        self.too_long = self.too_long.or(too_long);
    }

    // Says that no row had an address, once.
    fn say_no_address<O: Write, E: Write>(
        &mut self,
        passed: Passed,
        console: &mut Console<'_, O, E>,
    ) {
        if !self.has_said_no_address {
            self.has_said_no_address = true;
            let text = no_address(console.alloc, self.place, passed);
            console.note(line_of(console.alloc, text));
        }
    }

    // Says which fields no such record has, each once: all of them, or those that no record of the databases has.
    fn say_missing<O: Write, E: Write>(
        &mut self,
        whose: &str,
        says_all: bool,
        records: &Records,
        databases: &[Database],
        console: &mut Console<'_, O, E>,
    ) {
        let alloc = console.alloc;
        for (at, field) in self.fields.iter_mut().enumerate() {
            let is_to_say = says_all || field.is_nowhere;
            if self.said < MOST_SAID && is_to_say && !field.is_said && !is_met(records, at) {
                field.is_said = true;
                self.said = self.said.saturating_add(1);
                let path = if field.path.is_empty() {
                    "\"\""
                } else {
                    field.path
                };
                let text = missing_text(alloc, whose, path, records, databases);
                console.note(line_of(alloc, text));
            }
        }
    }

    // Says why the records of the first rows that failed can't be read, each once.
    fn say_failures<O: Write, E: Write>(
        &mut self,
        records: &Records,
        console: &mut Console<'_, O, E>,
    ) {
        for at in self.failures..records.failures.len() {
            let failure = &records.failures[at];
            let row = failure.row.saturating_add(self.before);
            let cause = failure.cause.as_str();
            console.note(line_of(
                console.alloc,
                format!(in console.alloc; "mmdb: row {row}: {cause}"),
            ));
        }
        self.failures = records.failures.len();
    }

    // Says what is amiss with the rows that passed, of which records are such, and was not said.
    fn say<O: Write, E: Write>(
        &mut self,
        passed: Passed,
        counts: Counts,
        records: &Records,
        databases: &[Database],
        console: &mut Console<'_, O, E>,
    ) {
        self.say_failures(records, console);
        if self.is_quiet {
            return;
        }
        if had_no_address(counts) {
            self.say_no_address(passed, console);
        }
        if counts.found > 0 {
            let says_all = self.says_counts;
            self.say_missing(passed.whose(), says_all, records, databases, console);
        } else {
            self.say_missing("no record", false, records, databases, console);
        }
    }

    /// Says what is amiss with the rows so far.
    pub(crate) fn check<O: Write, E: Write>(
        &mut self,
        counts: Counts,
        records: &Records,
        databases: &[Database],
        console: &mut Console<'_, O, E>,
    ) {
        self.say(Passed::SoFar, counts, records, databases, console);
    }

    // Whether one of the fields is known to be in no record.
    fn has_nowhere(&self) -> bool {
        self.fields.iter().any(|field| field.is_nowhere)
    }

    // Looks through the databases for the fields that no record of the lines had.
    fn find_nowhere(
        &mut self,
        alloc: Global,
        records: &Records,
        databases: &[Database],
    ) -> Result<(), MaxMindDbError> {
        let mut missing = Vec::new(alloc);
        for (at, field) in self.fields.iter().enumerate() {
            if !is_met(records, at) {
                missing.push(field.path)?;
            }
        }
        if missing.is_empty() {
            return Ok(());
        }
        let met = fields_met(alloc, databases, missing.as_slice())?;
        let mut met = met.iter();
        for (at, field) in self.fields.iter_mut().enumerate() {
            if !is_met(records, at) {
                field.is_nowhere = !matches!(met.next(), Some(true));
            }
        }
        Ok(())
    }

    /// Says what is amiss with all rows of the input, and was not said.
    pub(crate) fn finish<O: Write, E: Write>(
        &mut self,
        counts: Counts,
        records: &Records,
        databases: &[Database],
        console: &mut Console<'_, O, E>,
    ) {
        let is_unknown = self.is_strict
            && could_ask(counts, records.unasked)
            && self
                .find_nowhere(console.alloc, records, databases)
                .is_err();
        self.say(Passed::All, counts, records, databases, console);
        let is_of_counts = is_unanswered(counts) || records.wider > 0 || records.long > 0;
        self.has_warned |= is_of_counts || is_unknown || self.has_nowhere();
        // what sets the status is said in any case
        self.says_counts |= self.is_strict && (is_of_counts || is_unknown);
    }

    /// Says how the rows fared, and answers the status. All is said of them before: `unasked` of those with an error have an address that no database can
    /// be asked for.
    pub(crate) fn end<O: Write, E: Write>(
        &self,
        counts: Counts,
        unasked: u64,
        text: Result<String, AllocError>,
        console: &mut Console<'_, O, E>,
    ) -> u8 {
        if self.says_counts {
            console.note(text);
        }
        if counts.rejected > unasked || self.is_strict && self.has_warned {
            FAILED
        } else {
            DONE
        }
    }
}
