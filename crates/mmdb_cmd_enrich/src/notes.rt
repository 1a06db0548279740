//! What is noted of the records that are read, so that it can be said at the end what was amiss.
use crate::cache::Keeping;
use crate::layers::can_ask_any;
use mmdb_layout::asked_of;
use mmdb_reader::{MaxMindDbError, Reader};
use mmdb_value::Value;
use std::alloc::{AllocError, Global};
use std::convert::AsSlice;
use std::net::IpAddr;

/// Of how many rows it is noted why their record can't be read.
const MOST_FAILURES: usize = 10;

/// How many fields are few.
const FEW: usize = 2;

/// How many records are noted.
const MOST_RECORDS: usize = 64;

/// A row whose record can't be read.
#[derive(Drop)]
pub struct RowFailure {
    /// Its number, from 1.
    pub row: u64,
    /// Why, in words.
    pub cause: String,
}

/// A record of one of the databases.
#[derive(Clone, Copy, PartialEq)]
pub struct NotedRecord {
    /// The place of the database among them.
    pub database: usize,
    pub offset: usize,
}

/// What is noted of the records that are read. Where there is no memory for a note, it is left out.
#[derive(Drop)]
pub struct Notes {
    /// How many rows have passed.
    pub rows: u64,
    /// How many rows have an address that no database can be asked for: one of IPv6, where they have IPv4 alone.
    pub unasked: u64,
    /// How many rows have more cells than the first one, which names the columns.
    pub wider: u64,
    /// The number of the first of them.
    pub first_wider: Option<u64>,
    /// How many rows are too long for that to be known.
    pub long: u64,
    /// The number of the first of them.
    pub first_long: Option<u64>,
    /// Whether it is not noted which rows have an address that no database can be asked for.
    pub passes_unasked: bool,
    /// The first rows whose record can't be read, at most 10.
    pub failures: Vec<RowFailure>,
    /// Of each field whether a record had a value there. A field at which none is noted had none.
    pub met: Vec<bool>,
    /// The first records, at most 64, each once.
    pub records: Vec<NotedRecord>,
}

// Why a record can't be read, in words: after the name of its database, where it has one.
fn cause_of(
    alloc: Global,
    name: Option<&str>,
    error: &MaxMindDbError,
) -> Result<String, AllocError> {
    match name {
        Some(name) => format!(in alloc; "{name}: {error}"),
        None => format!(in alloc; "{error}"),
    }
}

impl Notes {
    /// Of no record.
    pub fn new(alloc: Global) -> Notes {
        Notes {
            rows: 0,
            unasked: 0,
            wider: 0,
            first_wider: None,
            long: 0,
            first_long: None,
            passes_unasked: false,
            failures: Vec::new(alloc),
            met: Vec::new(alloc),
            records: Vec::new(alloc),
        }
    }

    /// One row more.
    #[inline(always)]
    pub(crate) fn pass_row(&mut self) {
        self.rows = self.rows.wrapping_add(1);
    }

    /// Notes that this row has more cells than the first one.
    pub(crate) fn note_wider(&mut self) {
        self.wider = self.wider.saturating_add(1);
        if self.first_wider.is_none() {
            self.first_wider = Some(self.rows);
        }
    }

    /// Notes that this row is too long for its cells to be counted.
    pub(crate) fn note_long(&mut self) {
        self.long = self.long.saturating_add(1);
        if self.first_long.is_none() {
            self.first_long = Some(self.rows);
        }
    }

    // Whether it is noted of no row more why its record can't be read.
    #[inline(always)]
    fn have_all_failures(&self) -> bool {
        self.failures.len() >= MOST_FAILURES
    }

    // Whether it is noted already why the record of this row can't be read, or there is no room for that.
    fn has_failure(&self) -> bool {
        let count = self.failures.len();
        self.have_all_failures() || (count > 0 && self.failures[count - 1].row == self.rows)
    }

    /// Notes why the record of this row can't be read, in the database of a name, if it has one.
    #[inline(never)]
    pub(crate) fn note_failure(
        &mut self,
        alloc: Global,
        name: Option<&str>,
        error: &MaxMindDbError,
    ) {
        if self.has_failure() {
            return;
        }
        if let Ok(cause) = cause_of(alloc, name, error) {
            let _ = self.failures.push(RowFailure {
                row: self.rows,
                cause,
            });
        }
    }

    /// Notes a record.
    #[inline(never)]
    pub(crate) fn note_record(&mut self, database: usize, offset: usize) {
        let record = NotedRecord { database, offset };
        if self.records.len() < MOST_RECORDS && !self.records.as_slice().contains(&record) {
            let _ = self.records.push(record);
        }
    }

    /// Whether a record had a value at a field.
    #[inline(always)]
    pub(crate) fn has_met(&self, field: usize) -> bool {
        field < self.met.len() && self.met[field]
    }

    // Whether records had a value at each of so many fields.
    #[inline(always)]
    fn has_met_all(&self, fields: usize) -> bool {
        for field in 0..fields {
            if !self.has_met(field) {
                return false;
            }
        }
        true
    }

    /// Whether nothing more is noted of records that are read, of so many fields.
    #[inline(always)]
    pub(crate) fn are_full(&self, fields: usize) -> bool {
        self.records.len() >= MOST_RECORDS && self.has_met_all(fields)
    }

    // Whether rows with records that were read so are named no more.
    #[inline(always)]
    fn is_said(&self, are_read: bool) -> bool {
        are_read || self.have_all_failures()
    }

    /// Whether the text of so many fields is kept, or of a whole record where there is none: not where rows with such records are
    /// still named, and always where it takes long to make it: where the fields are not few, one of them was not read, or the next
    /// records are noted too.
    #[inline(always)]
    pub(crate) fn keeping(&self, fields: usize, are_read: bool) -> Keeping {
        if !self.is_said(are_read) {
            Keeping::Never
        } else if fields == 0 || fields > FEW || !are_read || !self.are_full(fields) {
            Keeping::Always
        } else {
            Keeping::IfWorth
        }
    }

    // Notes that a record had a value at a field.
    fn note_met(&mut self, field: usize) -> Result<(), AllocError> {
        for _ in self.met.len()..field {
            self.met.push(false)?;
        }
        if field < self.met.len() {
            self.met[field] = true;
        } else {
            self.met.push(true)?;
        }
        Ok(())
    }

    /// Notes what was read of a field in the database of a name, if it has one. Whether that ends the reading: there is a value, or
    /// it can't be read.
    #[inline(never)]
    pub(crate) fn note_read(
        &mut self,
        alloc: Global,
        name: Option<&str>,
        field: usize,
        read: &Result<Option<Value<'_>>, MaxMindDbError>,
    ) -> bool {
        match read {
            Ok(Some(_)) => {
                let _ = self.note_met(field);
                true
            }
            Ok(None) => false,
            Err(error) => {
                self.note_failure(alloc, name, error);
                true
            }
        }
    }

    // Notes the error of a lookup.
    fn note_lookup(&mut self, alloc: Global, name: Option<&str>, error: &MaxMindDbError) {
        if let MaxMindDbError::InvalidInput { .. } = error {
            self.unasked = self.unasked.saturating_add(1);
            if self.passes_unasked {
                return;
            }
        }
        self.note_failure(alloc, name, error);
    }
}

/// Notes why an address is rejected.
#[inline(never)]
pub(crate) fn note_rejected<S: AsSlice<u8> + Drop>(
    alloc: Global,
    reader: &Reader<S>,
    address: IpAddr,
    notes: &mut Notes,
) {
    if let Err(error) = reader.lookup(address) {
        notes.note_lookup(alloc, None, &error);
    }
}

// The error of the lookup of an address in a database, where it can be asked for it or not.
fn error_of<S: AsSlice<u8> + Drop>(
    reader: &Reader<S>,
    address: IpAddr,
    can_ask: bool,
) -> Option<MaxMindDbError> {
    match reader.lookup(asked_of(reader, address)) {
        Err(error) if matches!(error, MaxMindDbError::InvalidInput { .. }) != can_ask => Some(
            error,
        ),
        _ => None,
    }
}

/// Notes in which of several databases an address is rejected, and why: the first whose lookup fails, or, where none can be
/// asked for it, the first of all.
#[inline(never)]
pub(crate) fn note_rejected_by<S: AsSlice<u8> + Drop>(
    alloc: Global,
    readers: &[Reader<S>],
    names: &[&str],
    address: IpAddr,
    notes: &mut Notes,
) {
    let can_ask = can_ask_any(readers, address);
    for (at, reader) in readers.iter().enumerate() {
        if let Some(error) = error_of(reader, address, can_ask) {
            return notes.note_lookup(alloc, names.get(at).copied(), &error);
        }
    }
}
