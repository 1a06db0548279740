//! Values of files that no network has.
use crate::conditions::texts_of;
use crate::inputs::{ValueFile, shown_start};
use mmdb_arguments::NoRequest;
use mmdb_console::{Console, ProgramError, line_of, wanted_path};
use mmdb_json::compact;
use mmdb_layout::{Condition, ReadAlong, Requirement, Texts, is_number_of, split_condition};
use mmdb_reader::{MaxMindDbError, PathElement};
use mmdb_value::Value;
use std::alloc::{AllocError, Global};
use std::collections::HashSet;
use std::io::Write;

/// How many values are named at most that no network has.
const MOST_NAMED: usize = 10;

/// Which of the values of a file some network has.
#[derive(Drop)]
pub(crate) struct FileSearch<'a> {
    /// The condition as it is written.
    pub(crate) condition: &'a str,
    /// The condition that there is a value at its path.
    pub(crate) present: Condition<'a>,
    pub(crate) wanted: Requirement,
    values: Texts<'a>,
    /// The values that no network has so far.
    left: HashSet<String>,
    /// How many there were.
    count: usize,
}

// Whether a value is a double or a float.
fn is_floating(value: &Value<'_>) -> bool {
    match value {
        Value::Double(_) | Value::Float(_) => true,
        _ => false,
    }
}

// Takes out those of some numbers that a value is.
fn take_numbers(
    alloc: Global,
    value: &Value<'_>,
    json: &str,
    numbers: &[&str],
    left: &mut HashSet<String>,
) -> Result<(), AllocError> {
    for number in numbers {
        if is_number_of(alloc, value, json, *number)? {
            left.remove(*number);
        }
    }
    Ok(())
}

// The search for the values of a file.
fn search_of<'a>(alloc: Global, file: &'a ValueFile<'a>) -> Result<FileSearch<'a>, NoRequest> {
    let path = match split_condition(file.condition) {
        Some((path, _)) => wanted_path(alloc, path)?,
        None => Vec::new(alloc),
    };
    let values = file.texts(alloc)?;
    let mut left = HashSet::new(alloc);
    for value in &values {
        left.insert(String::from_str(alloc, *value)?)?;
    }
    let count = left.len();
    Ok(FileSearch {
        condition: file.condition,
        present: Condition {
            path,
            texts: Texts::new(alloc),
            wanted: Requirement::Present,
        },
        wanted: file.wanted,
        values: texts_of(alloc, values.as_slice())?,
        left,
        count,
    })
}

/// The searches for the values of files.
pub(crate) fn searches_of<'a>(
    alloc: Global,
    files: &'a [ValueFile<'a>],
) -> Result<Vec<FileSearch<'a>>, NoRequest> {
    let mut searches = Vec::new(alloc);
    for file in files {
        searches.push(search_of(alloc, file)?)?;
    }
    Ok(searches)
}

impl FileSearch<'_> {
    /// Whether some network has each of the values.
    pub(crate) fn is_done(&self) -> bool {
        self.left.is_empty()
    }

    /// Whether no network has any of the values. A file that has none is one of these, but where they would leave out networks.
    pub(crate) fn is_all_missing(&self) -> bool {
        self.left.len() == self.count && (self.count > 0 || self.wanted != Requirement::NoneOf)
    }

    /// Whether some network has one of the values, of those of which this is wanted at this path.
    pub(crate) fn serves(&self, path: &[PathElement<'_>], wanted: Requirement) -> bool {
        self.left.len() < self.count
            && self.wanted == wanted
            && self.present.path.as_slice() == path
    }

    // Takes out the text that a record has, or what is in it.
    fn take_text(&mut self, text: &str) {
        if self.wanted == Requirement::Part {
            self.left.retain(|part| !text.contains(part.as_str()));
        } else {
            self.left.remove(text);
        }
    }

    // Takes out the JSON of the value that a record has, and the numbers that the value is.
    fn take_json(
        &mut self,
        alloc: Global,
        value: &Value<'_>,
        json: &str,
    ) -> Result<(), AllocError> {
        self.left.remove(json);
        if is_floating(value) {
            return take_numbers(alloc, value, json, self.values.all(), &mut self.left);
        }
        // a whole number is written in another way than its own by no digits alone
        take_numbers(alloc, value, json, self.values.others(), &mut self.left)
    }

    // Takes out the value that a record has.
    fn take_value(&mut self, alloc: Global, value: &Value<'_>) -> Result<(), AllocError> {
        match value {
            Value::String(text) => self.take_text(*text),
            // no other value has a text in it
            _ if self.wanted == Requirement::Part => {}
            Value::Map(_) | Value::Array(_) => {}
            value => {
                let json = compact(alloc, value)?;
                if let Ok(text) = str::from_utf8(json.as_slice()) {
                    self.take_json(alloc, value, text)?;
                }
            }
        }
        Ok(())
    }

    /// Takes out the value that a record has. One that can't be read has none: it is reported when the networks are written.
    pub(crate) fn meet<R: ReadAlong>(
        &mut self,
        alloc: Global,
        found: &R,
    ) -> Result<(), ProgramError> {
        let value = found.outline_along(alloc, self.present.path.as_slice());
        match &value {
            Ok(Some(value)) => Ok(self.take_value(alloc, value)?),
            Err(MaxMindDbError::Memory) => Err(ProgramError::Memory),
            _ => Ok(()),
        }
    }

    // The first of the values that no network has.
    fn names(&self, alloc: Global) -> Result<String, AllocError> {
        let mut names = String::new(alloc);
        let mut count = 0usize;
        for value in self.values.all() {
            if count >= MOST_NAMED {
                names.push_str(", ..")?;
                break;
            }
            if self.left.contains(*value) {
                let (start, rest) = shown_start(*value);
                names.push_str(if count == 0 { " " } else { ", " })?;
                names.push_str(start)?;
                names.push_str(rest)?;
                count = count.saturating_add(1);
            }
        }
        Ok(names)
    }

    // What the lines of the file are called.
    fn name_of_lines(&self) -> &'static str {
        match self.wanted {
            Requirement::Part => "texts",
            _ => "values",
        }
    }

    // What is said of the values that no network has.
    fn line(&self, alloc: Global, is_of_part: bool, hint: &str) -> Result<String, AllocError> {
        let (missing, count, condition) = (self.left.len(), self.count, self.condition);
        let lines = self.name_of_lines();
        if count == 0 {
            return format!(in alloc; "mmdb: {condition}: there are no {lines}{hint}");
        }
        let of = if is_of_part { " that is asked for" } else { "" };
        let names = self.names(alloc)?;
        format!(in alloc;
            "mmdb: {condition}: no network{of} has {missing} of the {count} {lines}:{names}{hint}"
        )
    }

    /// Reports the values that no network has, the first of them by name, or that there are none, and what lets a list be written
    /// without them.
    pub(crate) fn report<O: Write, E: Write>(
        &self,
        is_of_part: bool,
        hint: &str,
        console: &mut Console<'_, O, E>,
    ) {
        if !self.is_done() || self.is_all_missing() {
            let line = self.line(console.alloc, is_of_part, hint);
            console.note(line_of(console.alloc, line));
        }
    }
}
