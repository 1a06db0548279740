//! What rows said, kept to be compared with the file.
use mmdb_blocks::Block;
use mmdb_value::Value;
use sha2::{Digest, Sha256};
use std::alloc::{AllocError, Global};

/// The SHA-256 of a value with its types.
pub(crate) type Print = [u8; 32];

/// The SHA-256 of a value with its types.
pub(crate) fn print_of(alloc: Global, value: &Value<'_>) -> Result<Print, AllocError> {
    let text: String = format!(in alloc; "{value:?}")?;
    Ok(Sha256::digest(text.as_bytes()))
}

/// A network, and the index of its value.
#[derive(Clone, Copy)]
pub(crate) struct KeptRow {
    pub(crate) block: Block,
    pub(crate) value: Option<usize>,
}

/// What rows said.
#[derive(Drop)]
pub(crate) struct KeptRows {
    pub(crate) rows: Vec<KeptRow>,
    /// By the indexes of the values.
    pub(crate) prints: Vec<Print>,
}

impl KeptRows {
    pub(crate) fn new(alloc: Global) -> KeptRows {
        KeptRows {
            rows: Vec::new(alloc),
            prints: Vec::new(alloc),
        }
    }

    /// Puts the rows in order: ascending, a network before those in it, equal ones as they came.
    pub(crate) fn sort(&mut self) -> Result<(), AllocError> {
        self.rows
            .sort_by_key(|row| (row.block.first, row.block.prefix))
    }
}
