//! Why no file is written.
ghost use Rattle.std.specs.Prelude.{◌≡◌};

use crate::limits::ValueError;
use crate::options::OptionsError;
use crate::row::RowError;
use mmdb_nodes::TreeError;
use mmdb_section::SectionError;
use std::alloc::{AllocError, AllocFailed};
use thiserror::Error;

/// Why no file is written.
#[derive(Clone, Copy, Debug, PartialEq, Eq, Error)]
pub enum WriteError {
    /// Out of memory.
    #[error("out of memory")]
    Memory,
    /// Nodes and values have more bytes or numbers than records and pointers can have.
    #[error("too large for the format")]
    TooLarge,
    /// The options ask for metadata that are not accepted.
    #[error("{0}")]
    Options(OptionsError),
    /// No reading gives back the value of this index.
    #[error("value {index}: {error}")]
    Value { index: usize, error: ValueError },
    /// The row of this index cannot be written.
    #[error("row {index}: {error}")]
    Row { index: usize, error: RowError },
    /// The file that was made is not read back as it was meant: its metadata pass a reader's limits.
    #[error("not read back as it was meant")]
    NotAsMeant,
}

impl From<AllocError> for WriteError {
    ghost use Rattle.mmdb_writer.specs.declared.error.WriteError.TheVariants.{Memory};

    ghost from_gives = { λ _ e. e ≡ Memory };

    fn from(_error: AllocError) -> WriteError {
        WriteError::Memory
    }
}

impl<T: Drop> From<AllocFailed<T>> for WriteError {
    ghost use Rattle.mmdb_writer.specs.declared.error.WriteError.TheVariants.{Memory};

    ghost from_gives = { λ _ e. e ≡ Memory };

    fn from(_error: AllocFailed<T>) -> WriteError {
        WriteError::Memory
    }
}

impl From<OptionsError> for WriteError {
    ghost use Rattle.mmdb_writer.specs.declared.error.WriteError.TheVariants.{Options};

    ghost from_gives = { λ error e. e ≡ Options error };

    fn from(error: OptionsError) -> WriteError {
        WriteError::Options(error)
    }
}

impl From<SectionError> for WriteError {
    ghost use Rattle.mmdb_writer.specs.Working.{IsOfSection};

    ghost from_gives = { λ error e. IsOfSection error e };

    fn from(error: SectionError) -> WriteError {
        match error {
            SectionError::Memory => WriteError::Memory,
            SectionError::TooLarge => WriteError::TooLarge,
        }
    }
}

impl From<TreeError> for WriteError {
    ghost use Rattle.mmdb_writer.specs.Working.{IsOfTree};

    ghost from_gives = { λ error e. IsOfTree error e };

    fn from(error: TreeError) -> WriteError {
        match error {
            TreeError::Memory => WriteError::Memory,
            TreeError::TooLarge => WriteError::TooLarge,
        }
    }
}
