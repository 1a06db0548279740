//! Why a file could not take another one's place.
use crate::shared::Owner;
use std::alloc::AllocError;
use std::{fmt, io};

/// Why a file could not take another one's place.
#[derive(Debug, Drop)]
pub enum ReplaceError {
    /// An error of the system.
    Io(io::Error),
    /// The file beside it was left, and can't be opened.
    Left { path: String, error: io::Error },
    /// Another process has the file beside it locked.
    Locked { path: String },
    /// What is beside it under that name is no plain file.
    NoFile { path: String },
    /// The file beside it was taken away while it was written.
    Lost { path: String },
    /// The file can't be given to whom the other one belongs.
    Owner { owner: Owner, error: io::Error },
}

impl fmt::Display for ReplaceError {
    fn fmt<W: fmt::Write>(&self, f: &mut fmt::Formatter<W>) -> fmt::Result {
        match self {
            ReplaceError::Io(error) => write!(f, "{error}"),
            ReplaceError::Left { path, error } => write!(f, "{path}: {error}"),
            ReplaceError::Locked { path } => {
                write!(
                    f,
                    "waited ten seconds for {path}, which another run has locked"
                )
            }
            ReplaceError::NoFile { path } => write!(f, "{path} is no file"),
            ReplaceError::Lost { path } => write!(f, "{path} was taken away meanwhile"),
            ReplaceError::Owner { owner, error } => {
                let Owner { user, group } = owner;
                write!(f, "the new file can't be given to {user}:{group}: {error}")
            }
        }
    }
}

impl From<io::Error> for ReplaceError {
    fn from(error: io::Error) -> ReplaceError {
        ReplaceError::Io(error)
    }
}

impl From<AllocError> for ReplaceError {
    fn from(error: AllocError) -> ReplaceError {
        ReplaceError::Io(io::Error::from(error))
    }
}
