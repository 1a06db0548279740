//! What is expected of a database beside its records.
use jiff::Timestamp;
use std::alloc::{AllocError, Global};

const SECONDS_OF_A_DAY: u64 = 86_400;

/// The database types that are wanted: those that are a name, or end, begin or go on with it.
#[derive(Clone, Copy)]
pub struct TypePattern<'a> {
    /// As it is given, with a `*` or more at an end for any text there.
    pub text: &'a str,
    /// Without them.
    name: &'a str,
    is_open_before: bool,
    is_open_behind: bool,
}

impl<'a> TypePattern<'a> {
    /// The pattern of a text, none where a `*` is inside.
    pub fn of(text: &'a str) -> Option<TypePattern<'a>> {
        let name = text.trim_matches('*');
        if name.contains('*') {
            return None;
        }
        Some(TypePattern {
            text,
            name,
            is_open_before: text.starts_with('*'),
            is_open_behind: text.ends_with('*'),
        })
    }

    /// Whether a database type is as asked for.
    pub fn fits(self, database_type: &str) -> bool {
        match (self.is_open_before, self.is_open_behind) {
            (true, true) => database_type.contains(self.name),
            (true, false) => database_type.ends_with(self.name),
            (false, true) => database_type.starts_with(self.name),
            (false, false) => database_type == self.name,
        }
    }
}

/// Whether a database was built more than a day after now, both in seconds since 1970.
pub fn is_ahead(built: u64, now: u64) -> bool {
    built > now.saturating_add(SECONDS_OF_A_DAY)
}

/// The date of a number of seconds since 1970, where it has one.
pub fn date_of(alloc: Global, seconds: u64) -> Result<Option<String>, AllocError> {
    let Ok(seconds) = i64::try_from(seconds) else {
        return Ok(None);
    };
    match Timestamp::from_second(seconds) {
        Ok(time) => Ok(Some(time.to_string(alloc)?)),
        Err(_) => Ok(None),
    }
}

/// A number of seconds since 1970, with its date where it has one.
pub fn time_text(alloc: Global, seconds: u64) -> Result<String, AllocError> {
    match date_of(alloc, seconds)? {
        Some(date) => format!(in alloc; "{seconds} ({date})"),
        None => format!(in alloc; "{seconds}"),
    }
}
