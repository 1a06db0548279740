//! The bytes of a file.
ghost use Rattle.std.specs.Prelude.{◌≡◌, IfOk, IfErr};
ghost use Rattle.mmdb_writer.specs.Errors.{IsGeneral, AreMetadataLarge};
ghost use Rattle.mmdb_writer.specs.Making.{BeginsWith, DoesNotFit, IsNotMeant};
ghost use Rattle.mmdb_writer.specs.Working.{IsFileOf};

use crate::certify::certify;
use crate::entries::put_in_order;
use crate::error::WriteError;
use crate::metadata::metadata_bytes;
use crate::options::Options;
use mmdb_nodes::{NodeEntry, SearchTree, search_tree};
use mmdb_section::SectionError;
use mmdb_tree::SEPARATOR;
use std::alloc::Global;

/// What is before the metadata.
const MARKER: [u8; 14] = *b"\xAB\xCD\xEFMaxMind.com";

// How many bytes a file has: that many are taken at once, since it may be large.
fn file_len(tree: &SearchTree, section_len: usize, metadata_len: usize) -> usize {
    tree.bytes
        .len()
        .saturating_add(SEPARATOR + MARKER.len())
        .saturating_add(section_len)
        .saturating_add(metadata_len)
}

// The bytes of a file: the tree, the separator, the data section, the marker and the metadata.
fn file_of(
    alloc: Global,
    options: &Options,
    tree: &SearchTree,
    section: &[u8],
) -> Result<Vec<u8>, SectionError>
    ensures ok { IfOk result (λ file. BeginsWith tree.now.bytes.items section.now file.items) }
    ensures too_large { IfErr result (λ e. e ≡ SectionError.TooLarge
        → AreMetadataLarge options.now) }
{
    let separator = [0; SEPARATOR];
    let metadata = metadata_bytes(alloc, options, tree)?;
    let len = file_len(tree, section.len(), metadata.len());
    let mut file = Vec::with_capacity(alloc, len)?;
    file.extend_from_slice(&tree.bytes)?;
    file.extend_from_slice(&separator)?;
    file.extend_from_slice(section)?;
    file.extend_from_slice(&MARKER)?;
    file.extend_from_slice(&metadata)?;
    Ok(file)
}

// The file of entries and a data section, read back before it is handed out. Leaves the entries in order.
pub(crate) fn write_file(
    alloc: Global,
    options: &Options,
    section: &[u8],
    entries: &mut Vec<NodeEntry>,
) -> Result<Vec<u8>, WriteError>
    ensures ok { IfOk result
        (λ file. IsFileOf options.now section.now entries.old.items file.items) }
    ensures err { IfErr result IsGeneral }
    ensures too_large { IfErr result (λ e. e ≡ WriteError.TooLarge
        → DoesNotFit options.now section.now entries.old.items) }
    ensures not_meant { IfErr result (λ e. e ≡ WriteError.NotAsMeant
        → IsNotMeant options.now section.now entries.old.items) }
{
    let version = options.ip_version;
    put_in_order(version, section.len(), entries)?;
    let tree = search_tree(alloc, version, entries, section.len(), options.record_size)?;
    let file = file_of(alloc, options, &tree, section)?;
    let is_certified = certify(alloc, &file, options, &tree, section.len())?;
    if is_certified {
        Ok(file)
    } else {
        Err(WriteError::NotAsMeant)
    }
}
