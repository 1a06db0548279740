//! Fields that no record has: a path that is misspelt gives empty cells without a word.
use crate::database::Found;
use mmdb_console::{Console, ProgramError, Similar, line_of, path_with_index, path_with_key};
use mmdb_found::value_along;
use mmdb_reader::PathElement;
use mmdb_value::{Decode, Decoder, Value};
use std::alloc::{AllocError, Global};
use std::io::Write;

/// Among the paths of how many records what was meant is looked for.
pub const MOST_RECORDS: usize = 64;

/// How many paths of a record are looked at.
const MOST_PATHS: usize = 4096;

/// How many fields are named that no record has.
const MOST_NAMED: usize = 10;

/// How many bytes a path has at most that may be meant, or may mean another.
const MOST_BYTES: usize = 256;

/// A record at an offset of a data section.
#[derive(Clone, Copy)]
pub struct RecordAt<'s> {
    pub section: &'s [u8],
    pub offset: usize,
}

/// Which fields the records have that were looked at.
#[derive(Drop)]
pub struct FieldsMet {
    alloc: Global,
    are_met: Vec<bool>,
    /// The offsets of the first records that were looked at.
    offsets: Vec<usize>,
}

/// A value of a record, and the path to it.
#[derive(Drop)]
struct ValueAtPath<'v, 'de> {
    path: String,
    value: &'v Value<'de>,
}

// Adds the places in a map or an array.
fn add_places<'v, 'de>(
    alloc: Global,
    place: &ValueAtPath<'v, 'de>,
    places: &mut Vec<ValueAtPath<'v, 'de>>,
) -> Result<(), AllocError> {
    let path = place.path.as_str();
    match place.value {
        Value::Map(pairs) => {
            for (key, value) in pairs {
                if let Some(path) = path_with_key(alloc, path, *key)? {
                    places.push(ValueAtPath { path, value })?;
                }
            }
        }
        Value::Array(items) => {
            for (index, value) in items.iter().enumerate() {
                let path = path_with_index(alloc, path, index)?;
                places.push(ValueAtPath { path, value })?;
            }
        }
        _ => {}
    }
    Ok(())
}

// Offers the paths to the values of a record.
fn offer_paths(
    alloc: Global,
    record: &Value<'_>,
    similar: &mut Similar<'_>,
) -> Result<(), AllocError> {
    let mut places = Vec::new(alloc);
    places.push(ValueAtPath {
        path: String::new(alloc),
        value: record,
    })?;
    for _ in 0..MOST_PATHS {
        let Some(place) = places.pop() else {
            return Ok(());
        };
        if place.path.len() <= MOST_BYTES {
            similar.offer(place.path.as_str())?;
        }
        add_places(alloc, &place, &mut places)?;
    }
    Ok(())
}

// Offers the paths of records. One that can't be read is passed.
fn offer_records(
    alloc: Global,
    records: &[RecordAt<'_>],
    similar: &mut Similar<'_>,
) -> Result<(), AllocError> {
    for record in records {
        let mut decoder = Decoder::new(record.section, record.offset);
        let record = <Value<'_> as Decode>::decode(alloc, &mut decoder);
        if let Ok(record) = &record {
            offer_paths(alloc, record, similar)?;
        }
    }
    Ok(())
}

/// The path that may be meant by another one, of those of some records, if one is.
pub fn similar_path(
    alloc: Global,
    path: &str,
    records: &[RecordAt<'_>],
) -> Result<Option<String>, AllocError> {
    let mut similar = Similar::new(alloc, path)?;
    if path.len() <= MOST_BYTES {
        offer_records(alloc, records, &mut similar)?;
    }
    match similar.best() {
        Some(best) => Ok(Some(String::from_str(alloc, best)?)),
        None => Ok(None),
    }
}

/// What is said of a field that these do not have (`no record`), with a path that may be meant, of those of some records.
pub fn absent_text(
    alloc: Global,
    whose: &str,
    name: &str,
    records: &[RecordAt<'_>],
) -> Result<String, AllocError> {
    let similar = similar_path(alloc, name, records)?;
    match similar.as_deref() {
        Some(best) => format!(in alloc; "mmdb: {whose} has {name}; did you mean {best}?"),
        None => format!(in alloc; "mmdb: {whose} has {name}"),
    }
}

// Whether a record has a value at a path. One that can't be read is reported where it is written.
fn has_value(alloc: Global, found: &Found<'_>, path: &[PathElement<'_>]) -> bool {
    let value = value_along(alloc, found, path);
    !matches!(value, Ok(None))
}

// Says how many fields more no record has.
fn note_more<O: Write, E: Write>(count: usize, console: &mut Console<'_, O, E>) {
    let more = count.saturating_sub(MOST_NAMED);
    if more > 0 {
        console.note(format!(in console.alloc; "mmdb: nor {more} fields more\n"));
    }
}

impl FieldsMet {
    /// Nothing was looked at yet. An `Err` is of memory.
    pub fn new(alloc: Global, fields: usize) -> Result<FieldsMet, AllocError> {
        Ok(FieldsMet {
            alloc,
            are_met: vec![in alloc; false; fields]?,
            offsets: Vec::new(alloc),
        })
    }

    /// Whether each field is met.
    #[inline(always)]
    pub fn are_all_met(&self) -> bool {
        self.are_met.iter().all(|is_met| *is_met)
    }

    /// Takes the fields for met that are met elsewhere.
    pub fn join(&mut self, elsewhere: &FieldsMet) {
        for (is_met, is_met_there) in self.are_met.iter_mut().zip(&elsewhere.are_met) {
            *is_met = *is_met || *is_met_there;
        }
    }

    /// Looks at a record, if there is one.
    pub fn look(&mut self, found: &Found<'_>, paths: &[Vec<PathElement<'_>>]) {
        let Some(offset) = found.offset() else {
            return;
        };
        for (is_met, path) in self.are_met.iter_mut().zip(paths) {
            *is_met = *is_met || has_value(self.alloc, found, path.as_slice());
        }
        if self.offsets.len() < MOST_RECORDS {
            let _ = self.offsets.push(offset);
        }
    }

    // What is said of a field that no record had, of those of a data section that were looked at.
    fn text_of(&self, name: &str, section: &[u8]) -> Result<String, AllocError> {
        let mut records = Vec::new(self.alloc);
        for offset in &self.offsets {
            records.push(RecordAt {
                section,
                offset: *offset,
            })?;
        }
        absent_text(self.alloc, "no record", name, records.as_slice())
    }

    /// Says of each field that no record had, of those of a data section that were looked at, after what was written. An
    /// `Err` is `Write`.
    pub fn note_absent<O: Write, E: Write>(
        &self,
        names: &[&str],
        section: &[u8],
        console: &mut Console<'_, O, E>,
    ) -> Result<(), ProgramError> {
        if self.offsets.is_empty() || self.are_all_met() {
            return Ok(());
        }
        console.flush()?;
        let mut count = 0usize;
        for (name, is_met) in names.iter().zip(&self.are_met) {
            if *is_met {
                continue;
            }
            count = count.saturating_add(1);
            if count <= MOST_NAMED {
                let text = self.text_of(name, section);
                console.note(line_of(self.alloc, text));
            }
        }
        note_more(count, console);
        Ok(())
    }
}
