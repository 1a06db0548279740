//! What a file that was made has.
use mmdb_reader::{MaxMindDbError, Reader, WithinOptions};
use std::alloc::Global;
use std::collections::HashSet;

/// What a file has.
#[derive(Clone, Copy)]
pub(crate) struct Summary {
    /// How many networks have a record: largest blocks of addresses with one.
    pub(crate) networks: u64,
    /// How many records there are.
    pub(crate) records: usize,
    pub(crate) nodes: u32,
    pub(crate) bytes: usize,
}

/// What a file has.
pub(crate) fn summary_of(alloc: Global, file: &[u8]) -> Result<Summary, MaxMindDbError> {
    let reader = Reader::from_source(alloc, file)?;
    let mut records = HashSet::new(alloc);
    let mut networks = 0u64;
    for item in reader.networks(alloc, WithinOptions::default())? {
        if let Some(offset) = item?.offset() {
            records.insert(offset)?;
            networks = networks.saturating_add(1);
        }
    }
    Ok(Summary {
        networks,
        records: records.len(),
        nodes: reader.metadata().node_count,
        bytes: file.len(),
    })
}
