//! What a call of any layer may fail with.
ghost use Rattle.std.specs.Prelude.{◌≡◌, Some, None, IfOk};
ghost use Rattle.mmdb_format.specs.Error.{OfDatabase, OfDecoding, OfLimit, OfInput, IsMadeOf, parts};

use crate::message::Message;
use mmdb_net::IpNetworkError;
use std::alloc::{AllocError, AllocFailed, Global};
use std::{fmt, io};
use thiserror::Error;

/// Why a call failed.
///
/// Offsets of `InvalidDatabase` that a reader gives count from the file's start, all others from the
/// start of the section that was read. A path is written as `render_path` does.
#[derive(Debug, Drop, Error)]
pub enum MaxMindDbError {
    /// The file does not follow the format.
    #[error("invalid database{at}: {message}", at = At(.offset))]
    InvalidDatabase {
        message: Message,
        offset: Option<usize>,
    },
    /// A call on a file failed.
    #[error("i/o error: {0}")]
    Io(io::Error),
    /// A value is not of the shape that was asked for.
    #[error("decoding error{at}{path}: {message}", at = At(.offset), path = Along(.path))]
    Decoding {
        message: Message,
        offset: Option<usize>,
        path: Option<Box<String>>,
    },
    /// A value is larger than a reader allows.
    #[error("resource limit exceeded{at}{path}: {message}", at = At(.offset), path = Along(.path))]
    ResourceLimit {
        message: Message,
        offset: Option<usize>,
        path: Option<Box<String>>,
    },
    /// A network can't be made or read.
    #[error("invalid network: {0}")]
    InvalidNetwork(IpNetworkError),
    /// An argument does not fit the database.
    #[error("invalid input: {message}")]
    InvalidInput {
        message: Message,
    },
    /// A growth failed; the making of an error's text is one too.
    #[error("out of memory")]
    Memory,
}

/// The result of reading a value.
pub type DecodeResult<T> = Result<T, MaxMindDbError>;

/// The offset of an error in its text: nothing where it is not known.
#[derive(Drop)]
struct At<'a>(&'a Option<usize>);

impl fmt::Display for At<'_> {
    fn fmt<W: fmt::Write>(&self, f: &mut fmt::Formatter<W>) -> fmt::Result {
        match self.0 {
            Some(offset) => write!(f, " at offset {offset}"),
            None => Ok(()),
        }
    }
}

/// The path of an error in its text: nothing where it is not known.
#[derive(Drop)]
struct Along<'a>(&'a Option<Box<String>>);

impl fmt::Display for Along<'_> {
    fn fmt<W: fmt::Write>(&self, f: &mut fmt::Formatter<W>) -> fmt::Result {
        match self.0 {
            Some(path) => write!(f, " (path: {path})"),
            None => Ok(()),
        }
    }
}

impl From<io::Error> for MaxMindDbError {
    ghost use Rattle.mmdb_format.specs.declared.error.MaxMindDbError.TheVariants.{Io};

    ghost from_gives = { λ error e. e ≡ Io error };

    fn from(error: io::Error) -> MaxMindDbError {
        MaxMindDbError::Io(error)
    }
}

impl From<IpNetworkError> for MaxMindDbError {
    ghost use Rattle.mmdb_format.specs.declared.error.MaxMindDbError.TheVariants.{InvalidNetwork};

    ghost from_gives = { λ error e. e ≡ InvalidNetwork error };

    fn from(error: IpNetworkError) -> MaxMindDbError {
        MaxMindDbError::InvalidNetwork(error)
    }
}

impl From<AllocError> for MaxMindDbError {
    ghost use Rattle.mmdb_format.specs.declared.error.MaxMindDbError.TheVariants.{Memory};

    ghost from_gives = { λ _ e. e ≡ Memory };

    fn from(_error: AllocError) -> MaxMindDbError {
        MaxMindDbError::Memory
    }
}

impl<T: Drop> From<AllocFailed<T>> for MaxMindDbError {
    ghost use Rattle.mmdb_format.specs.declared.error.MaxMindDbError.TheVariants.{Memory};

    ghost from_gives = { λ _ e. e ≡ Memory };

    fn from(_error: AllocFailed<T>) -> MaxMindDbError {
        MaxMindDbError::Memory
    }
}

/// An `InvalidDatabase` with a copy of this text, or `Memory` where there is none for the copy.
pub fn invalid_database(alloc: Global, message: &str) -> MaxMindDbError
    ensures { IsMadeOf (parts OfDatabase message.now None None) result }
{
    match Message::made(alloc, message) {
        Ok(message) => MaxMindDbError::InvalidDatabase {
            message,
            offset: None,
        },
        Err(_) => MaxMindDbError::Memory,
    }
}

/// An `InvalidDatabase` with a copy of this text and the offset, or `Memory`.
pub fn invalid_database_at(alloc: Global, message: &str, offset: usize) -> MaxMindDbError
    ensures { IsMadeOf (parts OfDatabase message.now (Some offset) None) result }
{
    match Message::made(alloc, message) {
        Ok(message) => MaxMindDbError::InvalidDatabase {
            message,
            offset: Some(offset),
        },
        Err(_) => MaxMindDbError::Memory,
    }
}

/// A `Decoding` with a copy of this text, or `Memory`.
pub fn decoding(alloc: Global, message: &str) -> MaxMindDbError
    ensures { IsMadeOf (parts OfDecoding message.now None None) result }
{
    match Message::made(alloc, message) {
        Ok(message) => MaxMindDbError::Decoding {
            message,
            offset: None,
            path: None,
        },
        Err(_) => MaxMindDbError::Memory,
    }
}

/// A `Decoding` with a copy of this text and the offset, or `Memory`.
pub fn decoding_at(alloc: Global, message: &str, offset: usize) -> MaxMindDbError
    ensures { IsMadeOf (parts OfDecoding message.now (Some offset) None) result }
{
    match Message::made(alloc, message) {
        Ok(message) => MaxMindDbError::Decoding {
            message,
            offset: Some(offset),
            path: None,
        },
        Err(_) => MaxMindDbError::Memory,
    }
}

fn try_decoding_at_path(
    alloc: Global,
    message: &str,
    offset: usize,
    path: &str,
) -> Result<MaxMindDbError, AllocError>
    ensures { IfOk result (IsMadeOf (parts OfDecoding message.now (Some offset) (Some path.now))) }
{
    Ok(MaxMindDbError::Decoding {
        message: Message::made(alloc, message)?,
        offset: Some(offset),
        path: Some(Box::new(alloc, String::from_str(alloc, path)?)?),
    })
}

/// A `Decoding` with copies of this text and path and the offset, or `Memory`.
pub fn decoding_at_path(alloc: Global, message: &str, offset: usize, path: &str) -> MaxMindDbError
    ensures { IsMadeOf (parts OfDecoding message.now (Some offset) (Some path.now)) result }
{
    match try_decoding_at_path(alloc, message, offset, path) {
        Ok(error) => error,
        Err(_) => MaxMindDbError::Memory,
    }
}

/// A `ResourceLimit` with a copy of this text and the offset, or `Memory`.
pub fn resource_limit_at(alloc: Global, message: &str, offset: usize) -> MaxMindDbError
    ensures { IsMadeOf (parts OfLimit message.now (Some offset) None) result }
{
    match Message::made(alloc, message) {
        Ok(message) => MaxMindDbError::ResourceLimit {
            message,
            offset: Some(offset),
            path: None,
        },
        Err(_) => MaxMindDbError::Memory,
    }
}

/// An `InvalidInput` with a copy of this text, or `Memory`.
pub fn invalid_input(alloc: Global, message: &str) -> MaxMindDbError
    ensures { IsMadeOf (parts OfInput message.now None None) result }
{
    match Message::made(alloc, message) {
        Ok(message) => MaxMindDbError::InvalidInput { message },
        Err(_) => MaxMindDbError::Memory,
    }
}
