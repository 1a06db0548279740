//! What opening a file finds: its metadata, and where its parts are.
ghost use Rattle.std.specs.Prelude.{◌≡◌, ◌+◌, ◌^◌, ◌<◌, ◌≤◌, false, Some, IfOk, IfErr, length};
ghost use Rattle.mmdb_format.specs.Error.{OfDatabase, kind_of, MemoryApart};
ghost use Rattle.mmdb_decode.specs.Errors.{Fails};
ghost use Rattle.mmdb_tree.specs.Nodes.{tree_in};
ghost use Rattle.mmdb_reader.specs.File.{database, IsSupported, HasRoom, marker_bytes, tree_of};
ghost use Rattle.mmdb_reader.specs.Kept.{IsLayout, IsLayoutOf, database_of};
ghost use Rattle.mmdb_reader.specs.Metadata.{metadata_datum};
ghost use Rattle.mmdb_reader.specs.Source.{metadata_read, IsNoDatabase};

use crate::marker::{MARKER, find_marker};
use crate::metadata::Metadata;
use crate::offsets::counted_from_start;
use mmdb_format::error::{DecodeResult, MaxMindDbError};
use mmdb_format::message::{Message, Text};
use mmdb_record::first_value;
use mmdb_tree::{Nodes, SEPARATOR};
use std::alloc::Global;

/// What opening a file finds before it makes tables: the metadata, where the metadata's marker is and the data section
/// begins, and where IPv4 begins in the tree, after how many bits.
#[derive(Drop)]
pub struct FileLayout {
    pub metadata: Metadata,
    pub marker: usize,
    pub data_start: usize,
    pub ipv4_start: usize,
    pub ipv4_depth: u8,
}

// What is at the beginning of a metadata section, which begins at a place of its file.
fn read_metadata(alloc: Global, section: &[u8], start: usize) -> DecodeResult<Metadata>
    ensures ok { IfOk result (λ m. metadata_read section.now ≡ Some (metadata_datum m)) }
    ensures err { IfErr result (λ e. Fails false e (metadata_read section.now)) }
{
    match first_value::decode::<Metadata>(alloc, section) {
        Ok(metadata) => Ok(metadata),
        Err(error) => Err(counted_from_start(error, start)),
    }
}

impl FileLayout {
    // Of a file whose marker is at this place, and whose metadata are these.
    fn from_parts(
        alloc: Global,
        file: &[u8],
        marker: usize,
        metadata: Metadata,
    ) -> Result<FileLayout, MaxMindDbError>
        requires within { marker + length marker_bytes ≤ length file.now }
        ensures layout { IfOk result
            (λ layout. IsLayout (database file.now marker (metadata_datum metadata)) layout) }
        ensures rejected { let db = database file.now marker (metadata_datum metadata) in
            IfErr result (λ e. MemoryApart e ((kind_of e ≡ OfDatabase)
            × ¬ (IsSupported db.metadata × HasRoom db))) }
    {
        metadata.check_supported(alloc)?;
        let node_count = metadata.node_count as usize;
        let data_start = node_count * (metadata.record_size as usize / 4) + SEPARATOR;
        if data_start > marker {
            return Err(MaxMindDbError::InvalidDatabase {
                message: Message::Fixed(Text::TreeTooLarge),
                offset: None,
            });
        }
        let nodes = Nodes {
            bytes: file,
            node_count,
            record_size: metadata.record_size,
        };
        let start = nodes.ipv4_start(metadata.ip_version);
        Ok(FileLayout {
            metadata,
            marker,
            data_start,
            ipv4_start: start.number,
            ipv4_depth: start.taken as u8,
        })
    }

    /// The layout of the bytes of a file. They are accepted and rejected as `Reader::from_source` does.
    pub fn of(alloc: Global, file: &[u8]) -> Result<FileLayout, MaxMindDbError>
        ensures accepted { IfOk result (λ layout. IsLayoutOf file.now layout) }
        ensures rejected { IfErr result (λ e. MemoryApart e (IsNoDatabase file.now)) }
    {
        let Some(marker) = find_marker(file) else {
            return Err(MaxMindDbError::InvalidDatabase {
                message: Message::Fixed(Text::NoMarker),
                offset: None,
            });
        };
        let start = marker + MARKER.len();
        let metadata = read_metadata(alloc, &file[start..], start)?;
        FileLayout::from_parts(alloc, file, marker, metadata)
    }

    /// The nodes of the search tree of the file that it is the layout of.
    pub fn nodes<'a>(&self, file: &'a [u8]) -> Nodes<'a>
        requires { IsLayoutOf file.now self.now }
        ensures tree { tree_in result ≡ tree_of (database_of file.now self.now) }
        ensures count { result.node_count ≡ self.now.metadata.node_count }
        ensures few { result.node_count < 2 ^ 32 }
    {
        Nodes {
            bytes: file,
            node_count: self.metadata.node_count as usize,
            record_size: self.metadata.record_size,
        }
    }
}
