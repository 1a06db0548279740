//! What is remembered from row to row.
use crate::cache::AddedCache;
use crate::notes::Notes;
use mmdb_cache::Worth;

/// Texts that are kept.
#[derive(Drop)]
pub struct KeptTexts {
    pub(crate) cache: AddedCache,
    /// The text where there is no record.
    pub(crate) none: Vec<u8>,
    /// Where the text of records is made.
    pub(crate) text: Vec<u8>,
    /// Whether it is worth to make the text of the first database's record alone.
    pub(crate) firsts: Worth,
    /// What is noted of the records that were read.
    pub notes: Notes,
}

/// What is remembered from row to row: what was added for the last records, and what is used again.
#[derive(Drop)]
pub struct EnrichMemory<R, M> {
    pub kept: KeptTexts,
    pub(crate) room: R,
    pub(crate) scratch: M,
}
