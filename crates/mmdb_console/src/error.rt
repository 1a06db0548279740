//! Why the program gave up.
use mmdb_arguments::NoRequest;
use mmdb_format::error::MaxMindDbError;
use std::alloc::{AllocError, AllocFailed};
use std::{fmt, io};

/// Why a command was not done.
#[derive(Drop)]
pub enum ProgramError {
    /// The arguments ask for nothing that can be done.
    Arguments(NoRequest),
    /// An error of the database.
    Database(MaxMindDbError),
    /// Standard output can't be written.
    Write(io::Error),
    /// Standard input can't be read.
    Read(io::Error),
    /// The first line has no column of this name, but these.
    NoColumn { name: String, columns: String },
    /// The first line, of which the names are wanted, is too long.
    LongHeader,
    /// The networks of a database do not ascend.
    OutOfOrder,
    /// A list would have no networks.
    EmptyList,
    /// Out of memory.
    Memory,
}

impl ProgramError {
    /// Whether memory was out.
    pub fn is_memory(&self) -> bool {
        matches!(
            self,
            ProgramError::Memory | ProgramError::Database(MaxMindDbError::Memory)
        )
    }

    /// Of a write to standard output that failed.
    pub fn of_write(error: io::Error) -> ProgramError {
        if error.kind() == io::ErrorKind::OutOfMemory {
            ProgramError::Memory
        } else {
            ProgramError::Write(error)
        }
    }

    /// The standard stream that it is of, if it is of the input and not of a file.
    pub fn stream(&self) -> Option<&'static str> {
        match self {
            ProgramError::Read(_) | ProgramError::NoColumn { .. } | ProgramError::LongHeader => {
                Some("standard input")
            }
            _ => None,
        }
    }
}

impl fmt::Display for ProgramError {
    fn fmt<W: fmt::Write>(&self, f: &mut fmt::Formatter<W>) -> fmt::Result {
        match self {
            ProgramError::Arguments(NoRequest::Message(message)) => {
                f.write_str(message.text.as_str())
            }
            ProgramError::Arguments(NoRequest::Memory) | ProgramError::Memory => {
                f.write_str("out of memory")
            }
            ProgramError::Database(error) => write!(f, "{error}"),
            ProgramError::Write(error) => write!(f, "{error}"),
            ProgramError::Read(error) => write!(f, "{error}"),
            ProgramError::NoColumn { name, columns } if columns.is_empty() => {
                write!(f, "the first line has no column {name}")
            }
            ProgramError::NoColumn { name, columns } => {
                write!(f, "the first line has no column {name}, only: {columns}")
            }
            ProgramError::LongHeader => f.write_str("the first line has more than 65536 bytes"),
            ProgramError::OutOfOrder => f.write_str("the networks do not ascend"),
            ProgramError::EmptyList => {
                f.write_str("no network is chosen; --allow-empty writes an empty list")
            }
        }
    }
}

/// An error of standard input.
impl From<io::Error> for ProgramError {
    fn from(error: io::Error) -> ProgramError {
        if error.kind() == io::ErrorKind::OutOfMemory {
            ProgramError::Memory
        } else {
            ProgramError::Read(error)
        }
    }
}

impl From<NoRequest> for ProgramError {
    fn from(reason: NoRequest) -> ProgramError {
        ProgramError::Arguments(reason)
    }
}

impl From<MaxMindDbError> for ProgramError {
    fn from(error: MaxMindDbError) -> ProgramError {
        ProgramError::Database(error)
    }
}

impl From<AllocError> for ProgramError {
    fn from(_error: AllocError) -> ProgramError {
        ProgramError::Memory
    }
}

impl<T: Drop> From<AllocFailed<T>> for ProgramError {
    fn from(_error: AllocFailed<T>) -> ProgramError {
        ProgramError::Memory
    }
}
