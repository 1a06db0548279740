//! Reads back what was written.
ghost use Rattle.std.specs.Prelude.{◌≡◌, IfOk, IfErr, IsTrue, false};
ghost use Rattle.mmdb_format.specs.Error.{MemoryApart};
ghost use Rattle.mmdb_reader.specs.Metadata.{metadata_datum};
ghost use Rattle.mmdb_writer.specs.Making.{asked_with, IsCertified};

use crate::error::WriteError;
use crate::options::Options;
use mmdb_format::error::MaxMindDbError;
use mmdb_nodes::SearchTree;
use mmdb_reader::{Metadata, Reader};
use std::alloc::Global;

impl From<MaxMindDbError> for WriteError {
    ghost use Rattle.mmdb_writer.specs.Working.{IsOfReader};

    ghost from_gives = { λ error e. IsOfReader error e };

    fn from(error: MaxMindDbError) -> WriteError {
        match error {
            MaxMindDbError::Memory => WriteError::Memory,
            _ => WriteError::NotAsMeant,
        }
    }
}

// Whether the metadata say what was asked for, and what the tree has.
fn say_what_was_asked(metadata: &Metadata, options: &Options, tree: &SearchTree) -> bool
    ensures asked { IsTrue result
        → metadata_datum metadata.now ≡ asked_with options.now tree.now }
    ensures other { result ≡ false
        → ¬ (metadata_datum metadata.now ≡ asked_with options.now tree.now) }
{
    if metadata.binary_format_major_version != 2 {
        return false;
    }
    if metadata.binary_format_minor_version != 0 {
        return false;
    }
    if metadata.build_epoch != options.build_epoch {
        return false;
    }
    if metadata.database_type != options.database_type {
        return false;
    }
    if metadata.description != options.description {
        return false;
    }
    if metadata.ip_version != options.version_number() {
        return false;
    }
    if metadata.languages != options.languages {
        return false;
    }
    if metadata.node_count != tree.node_count {
        return false;
    }
    metadata.record_size == tree.record_size.bits()
}

// Whether the file is read as a database with these metadata and `data_len` bytes of data, and is whole.
pub(crate) fn certify(
    alloc: Global,
    file: &[u8],
    options: &Options,
    tree: &SearchTree,
    data_len: usize,
) -> Result<bool, MaxMindDbError>
    ensures certified { IfOk result (λ is_certified. IsTrue is_certified
        → IsCertified file.now options.now tree.now data_len) }
    ensures rejected { IfOk result (λ is_certified. is_certified ≡ false
        → ¬ IsCertified file.now options.now tree.now data_len) }
    ensures unread { IfErr result (λ e. MemoryApart e
        (¬ IsCertified file.now options.now tree.now data_len)) }
{
    let reader = Reader::from_source(alloc, file)?;
    let is_as_asked = say_what_was_asked(reader.metadata(), options, tree);
    if !is_as_asked || reader.data_section().len() != data_len {
        return Ok(false);
    }
    reader.verify(alloc)?;
    Ok(true)
}
