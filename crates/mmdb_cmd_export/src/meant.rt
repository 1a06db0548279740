//! What may be meant by what no network has, looked for in one pass for all of it.
use crate::conditions::NamedValue;
use crate::look::{FirstRecords, Look};
use crate::several::Several;
use mmdb_console::{ProgramError, Similar};
use mmdb_json::compact;
use mmdb_layout::{ReadAlong, RecordAt, Requirement, similar_path, split_condition};
use mmdb_query::Answer;
use mmdb_query_forms::Along;
use mmdb_value::Value;
use std::alloc::{AllocError, Global};

/// In how many networks at most what was meant is looked for, as far as it is known that they have other records.
const MOST_LOOKED_AT: usize = 1 << 16;

/// What is looked for in place of one value.
#[derive(Drop)]
struct Seeker<'a> {
    named: &'a NamedValue<'a>,
    similar: Similar<'a>,
    /// Whether a record has a value at the path.
    has_value: bool,
}

/// What is looked for in place of values.
#[derive(Drop)]
pub(crate) struct Seekers<'a, 'd> {
    alloc: Global,
    seekers: Vec<Seeker<'a>>,
    /// The first records, among whose paths it is looked for another one.
    first: FirstRecords<'d>,
    /// How many networks were looked at.
    count: usize,
}

// Offers a value: a text as it is, and any other as JSON.
fn offer_value(
    alloc: Global,
    value: &Value<'_>,
    similar: &mut Similar<'_>,
) -> Result<(), AllocError> {
    match value {
        Value::String(text) => similar.offer(*text),
        Value::Map(_) | Value::Array(_) => Ok(()),
        value => {
            let json = compact(alloc, value)?;
            similar.offer(str::from_utf8(json.as_slice()).unwrap_or(""))
        }
    }
}

impl Seeker<'_> {
    // Offers the value that a record has at the path. One that can't be read is passed.
    fn offer<R: ReadAlong>(&mut self, alloc: Global, found: &R) -> Result<(), AllocError> {
        let value = found.outline_along(alloc, self.named.condition.path.as_slice());
        if let Ok(Some(value)) = &value {
            self.has_value = true;
            offer_value(alloc, value, &mut self.similar)?;
        }
        Ok(())
    }

    // The condition with another path, as it is written.
    fn with_path(&self, alloc: Global, path: &str) -> Result<String, AllocError> {
        match split_condition(self.named.text) {
            Some((_, value)) if self.named.condition.wanted != Requirement::Present => {
                format!(in alloc; "{path}={value}")
            }
            _ => String::from_str(alloc, path),
        }
    }

    // The condition with the path that may be meant, if one is.
    fn other_path(
        &self,
        alloc: Global,
        records: &[RecordAt<'_>],
    ) -> Result<Option<String>, AllocError> {
        let path = path_in(self.named);
        match similar_path(alloc, path, records)?.as_deref() {
            Some(path) => Ok(Some(self.with_path(alloc, path)?)),
            None => Ok(None),
        }
    }

    // The value that is most like it.
    fn other_value(&self, alloc: Global) -> Result<Option<String>, AllocError> {
        let is_text = matches!(
            self.named.condition.wanted,
            Requirement::OneOf | Requirement::NoneOf | Requirement::Part
        );
        match self.similar.best() {
            Some(best) if is_text => Ok(Some(String::from_str(alloc, best)?)),
            _ => Ok(None),
        }
    }

    // What may be meant: a path with a value where a path alone is wanted, another path where no record has a value there, or
    // another value.
    fn meant(&self, alloc: Global, records: &[RecordAt<'_>]) -> Result<Option<String>, AllocError> {
        if self.named.condition.wanted == Requirement::Present
            && let Some((path, value)) = split_condition(self.named.text)
        {
            return Ok(Some(format!(in alloc; "--where {path}={value}")?));
        }
        if self.has_value {
            self.other_value(alloc)
        } else {
            self.other_path(alloc, records)
        }
    }
}

/// The path of a value as it is written.
pub(crate) fn path_in<'a>(named: &NamedValue<'a>) -> &'a str {
    match split_condition(named.text) {
        Some((path, _)) if named.condition.wanted != Requirement::Present => path,
        _ => named.text,
    }
}

impl<'a, 'd> Seekers<'a, 'd> {
    /// Of nothing yet, in these databases.
    pub(crate) fn new(alloc: Global, several: &Several<'d>) -> Result<Seekers<'a, 'd>, AllocError> {
        Ok(Seekers {
            alloc,
            seekers: Vec::new(alloc),
            first: FirstRecords::new(alloc, several),
            count: 0,
        })
    }

    /// Adds a value that no network has.
    pub(crate) fn add(&mut self, named: &'a NamedValue<'a>) -> Result<(), AllocError> {
        let similar = Similar::new(self.alloc, named.value)?;
        self.seekers.push(Seeker {
            named,
            similar,
            has_value: false,
        })?;
        Ok(())
    }

    /// How many values there are.
    pub(crate) fn count(&self) -> usize {
        self.seekers.len()
    }

    /// What may be meant by the value of a number.
    pub(crate) fn meant(&self, number: usize) -> Result<Option<String>, AllocError> {
        match self.seekers.get(number) {
            Some(seeker) => seeker.meant(self.alloc, self.first.records()),
            None => Ok(None),
        }
    }
}

impl Look for Seekers<'_, '_> {
    fn look<A: Answer>(&mut self, answer: &A) -> Result<bool, ProgramError> {
        self.first.add(answer)?;
        for seeker in &mut self.seekers {
            seeker.offer(self.alloc, &Along { answer })?;
        }
        self.count = self.count.saturating_add(1);
        Ok(self.count < MOST_LOOKED_AT)
    }
}
