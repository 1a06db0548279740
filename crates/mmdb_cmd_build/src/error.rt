//! Why a row is not taken.
use crate::scalars::type_name;
use json::Error as JsonError;
use mmdb_console::path_with_key;
use mmdb_format::kind::Kind;
use std::alloc::{AllocError, AllocFailed, Global};
use std::fmt;

/// What is wrong with a row, or with a part of it.
#[derive(Clone, Copy, Debug, PartialEq, Eq)]
pub enum Reason {
    TooLong,
    Unclosed,
    StillOpen,
    BehindQuote,
    LoneReturn,
    NotUtf8,
    Nul,
    NotJson,
    KeyTwice,
    NotAnObject,
    NoNetwork,
    NoRecord,
    SeveralNetworks,
    NotANetwork,
    NotAnAddress,
    BitsBehind,
    NotARange,
    TwoKinds,
    Descending,
    BesideRecord,
    NotAPath,
    InAnother,
    Gap,
    TooManyColumns,
    NoSuchColumn,
    ColumnTwice,
    WrongCells,
    Null,
    NoNumber,
    NotOf(Kind),
    TooManyValues,
    TooManyBytes,
    TooDeep,
    Ipv6,
    Reserved,
    Equal,
}

impl Reason {
    // Whether it is of one text, which is named.
    fn names_text(self) -> bool {
        matches!(
            self,
            Reason::NotANetwork
                | Reason::NotAnAddress
                | Reason::BitsBehind
                | Reason::NoNumber
                | Reason::NotOf(_)
        )
    }

    // What a report says, but of a type.
    fn text(self) -> &'static str {
        match self {
            Reason::TooLong => "has more than 4194304 bytes",
            Reason::Unclosed => "has a quote that nothing closes",
            Reason::StillOpen => "has a quote that is still open after 4194304 bytes",
            Reason::BehindQuote => "has text behind a closing quote",
            Reason::LoneReturn => "has a carriage return without a line feed, outside of quotes",
            Reason::NotUtf8 => "not UTF-8",
            Reason::Nul => "has a NUL byte",
            Reason::NotJson => "not JSON, or nested more than 128 deep",
            Reason::KeyTwice => "an object has a key twice",
            Reason::NotAnObject => "not an object",
            Reason::NoNetwork => "names no network",
            Reason::NoRecord => "has no record",
            Reason::SeveralNetworks => "names a network and a range",
            Reason::NotANetwork => "not a network",
            Reason::NotAnAddress => "not an address",
            Reason::BitsBehind => "a network with bits behind its prefix",
            Reason::NotARange => "not an array of two addresses",
            Reason::TwoKinds => "a range from IPv4 to IPv6 or back",
            Reason::Descending => "a range that ends before it begins",
            Reason::BesideRecord => "stands beside a record",
            Reason::NotAPath => "not a path, or with an index from the end",
            Reason::InAnother => "leads into another column's value, or beside its keys or indexes",
            Reason::Gap => "an array's value without the one before it",
            Reason::TooManyColumns => "more than 1000 columns or members",
            Reason::NoSuchColumn => "no such column in the header",
            Reason::ColumnTwice => "stands twice in the header",
            Reason::WrongCells => "has not as many cells as the header",
            Reason::Null => "null, which is no value of this format",
            Reason::NoNumber => "not a number that this format has",
            Reason::NotOf(_) => "not of the type",
            Reason::TooManyValues => "a record of more than 65536 values",
            Reason::TooManyBytes => "a record of more than 2097152 bytes of texts",
            Reason::TooDeep => "a record with more than 64 maps and arrays in one another",
            Reason::Ipv6 => "a network of IPv6, in a file of IPv4",
            Reason::Reserved => "a reserved network",
            Reason::Equal => "a network that another line has too",
        }
    }
}

impl fmt::Display for Reason {
    fn fmt<W: fmt::Write>(&self, f: &mut fmt::Formatter<W>) -> fmt::Result {
        f.write_str(self.text())?;
        match self {
            Reason::NotOf(kind) => write!(f, " {}", type_name(*kind)),
            _ => Ok(()),
        }
    }
}

/// A row that is not taken: the column or path that is wrong, if it is one, what is wrong with it, and the text that is.
#[derive(Debug, Drop)]
pub struct BadRow {
    pub at: Option<String>,
    pub reason: Reason,
    pub text: Option<String>,
}

/// How many characters of a text are shown.
const MOST_SHOWN: usize = 100;

// A step as paths have it, and what is below it.
fn joined(alloc: Global, step: &str, at: Option<&str>) -> Result<String, AllocError> {
    match at {
        Some(at) => format!(in alloc; "{step}.{at}"),
        None => String::from_str(alloc, step),
    }
}

// The first characters of a text.
fn shortened(alloc: Global, text: &str) -> Result<String, AllocError> {
    match text.char_indices().nth(MOST_SHOWN) {
        Some((end, _)) => {
            let beginning = text.get(..end).unwrap_or("");
            format!(in alloc; "{beginning}..")
        }
        None => String::from_str(alloc, text),
    }
}

impl BadRow {
    // The same error, seen from the value that has it under this key.
    fn below(self, alloc: Global, step: &str) -> InputError {
        let BadRow { at, reason, text } = self;
        let longer = joined(alloc, step, at.as_deref());
        drop(at);
        with_place(longer, reason, text)
    }

    // The same error, of a text, if none is named yet.
    fn of_text(self, alloc: Global, text: &str) -> InputError {
        let BadRow {
            at,
            reason,
            text: known,
        } = self;
        if known.is_some() || text.is_empty() || !reason.names_text() {
            return InputError::Row(BadRow {
                at,
                reason,
                text: known,
            });
        }
        let shown: Result<String, AllocError> = shortened(alloc, text);
        match shown {
            Ok(text) => InputError::Row(BadRow {
                at,
                reason,
                text: Some(text),
            }),
            Err(_) => InputError::Memory,
        }
    }
}

// Of something in a column or at a path, if there was memory for its name.
fn with_place(at: Result<String, AllocError>, reason: Reason, text: Option<String>) -> InputError {
    match at {
        Ok(at) => InputError::Row(BadRow {
            at: Some(at),
            reason,
            text,
        }),
        Err(_) => InputError::Memory,
    }
}

impl fmt::Display for BadRow {
    fn fmt<W: fmt::Write>(&self, f: &mut fmt::Formatter<W>) -> fmt::Result {
        if let Some(at) = &self.at {
            write!(f, "{at}: ")?;
        }
        write!(f, "{}", self.reason)?;
        match &self.text {
            Some(text) => write!(f, ": {text}"),
            None => Ok(()),
        }
    }
}

/// What is got, or an error of something in a column or at a path.
pub(crate) fn named<T>(alloc: Global, at: &str, got: Result<T, Reason>) -> Result<T, InputError> {
    match got {
        Ok(value) => Ok(value),
        Err(reason) => Err(InputError::at(alloc, at, reason)),
    }
}

/// What is got of a text in a column or at a path, or an error of it.
pub(crate) fn named_text<T>(
    alloc: Global,
    at: &str,
    text: &str,
    got: Result<T, Reason>,
) -> Result<T, InputError> {
    match got {
        Ok(value) => Ok(value),
        Err(reason) => Err(InputError::at(alloc, at, reason).of_text(alloc, text)),
    }
}

/// Why a row gives no entry.
#[derive(Debug, Drop)]
pub enum InputError {
    /// The row is not taken; others may be.
    Row(BadRow),
    /// The values take more bytes than a file may have.
    TooLarge,
    /// Out of memory.
    Memory,
}

impl InputError {
    /// Of something in a column, or at a path.
    #[cold]
    pub(crate) fn at(alloc: Global, at: &str, reason: Reason) -> InputError {
        with_place(String::from_str(alloc, at), reason, None)
    }

    /// The same error, named so if it is of nothing in particular.
    #[cold]
    pub(crate) fn at_least(self, alloc: Global, name: &str) -> InputError {
        match self {
            InputError::Row(row) => if row.at.is_none() {
                row.below(alloc, name)
            } else {
                InputError::Row(row)
            },
            InputError::TooLarge => InputError::TooLarge,
            InputError::Memory => InputError::Memory,
        }
    }

    /// The same error, of a text that is wrong.
    #[cold]
    pub(crate) fn of_text(self, alloc: Global, text: &str) -> InputError {
        match self {
            InputError::Row(row) => row.of_text(alloc, text),
            InputError::TooLarge => InputError::TooLarge,
            InputError::Memory => InputError::Memory,
        }
    }

    /// The same error, seen from the array that has it at this index.
    #[cold]
    pub(crate) fn below_index(self, alloc: Global, index: usize) -> InputError {
        let step: Result<String, AllocError> = format!(in alloc; "{index}");
        match step {
            Ok(step) => self.below(alloc, step.as_str()),
            Err(_) => InputError::Memory,
        }
    }

    /// The same error, seen from the map that has it under this key.
    #[cold]
    pub(crate) fn below_key(self, alloc: Global, key: &str) -> InputError {
        let step: Result<Option<String>, AllocError> = path_with_key(alloc, "", key);
        match step {
            Ok(Some(step)) => self.below(alloc, step.as_str()),
            // no path has such a key
            Ok(None) => self.below(alloc, key),
            Err(_) => InputError::Memory,
        }
    }

    /// The same error, seen from the value that has it below this step of a path.
    #[cold]
    pub(crate) fn below(self, alloc: Global, step: &str) -> InputError {
        match self {
            InputError::Row(row) => row.below(alloc, step),
            InputError::TooLarge => InputError::TooLarge,
            InputError::Memory => InputError::Memory,
        }
    }
}

impl From<Reason> for InputError {
    fn from(reason: Reason) -> InputError {
        InputError::Row(BadRow {
            at: None,
            reason,
            text: None,
        })
    }
}

impl From<JsonError> for InputError {
    fn from(error: JsonError) -> InputError {
        match error {
            JsonError::OutOfMemory => InputError::Memory,
            JsonError::DuplicateKey => InputError::from(Reason::KeyTwice),
            JsonError::TooLong | JsonError::Invalid => InputError::from(Reason::NotJson),
        }
    }
}

impl From<AllocError> for InputError {
    fn from(_error: AllocError) -> InputError {
        InputError::Memory
    }
}

impl<T: Drop> From<AllocFailed<T>> for InputError {
    fn from(_error: AllocFailed<T>) -> InputError {
        InputError::Memory
    }
}
