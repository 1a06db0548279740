//! How large the parts of a file are.
ghost use Rattle.std.specs.Prelude.{◌≡◌, length};

use crate::reader::Reader;
use mmdb_tree::SEPARATOR;
use std::convert::AsSlice;

/// How many bytes the three sections of a file have ("Overview" of the MaxMind DB File Format Specification 2.0). The
/// 16 zero bytes between tree and data and the 14 of the marker before the metadata are of none of them.
#[derive(Debug, Drop)]
pub struct Sections {
    /// Of the search tree, with which the file begins.
    pub tree_bytes: usize,
    /// Of the data section, which ends at the marker.
    pub data_bytes: usize,
    /// Of the metadata section, which ends with the file.
    pub metadata_bytes: usize,
}

impl<S: AsSlice<u8> + Drop> Reader<S> {
    ghost use Rattle.mmdb_reader.specs.File.{tree_len, data_length, metadata_section};

    /// How many bytes the sections of the file have.
    pub fn sections(&self) -> Sections
        ensures tree { result.tree_bytes ≡ tree_len self.now }
        ensures data_section { result.data_bytes ≡ data_length self.now }
        ensures metadata { result.metadata_bytes
            ≡ length (metadata_section self.now.bytes self.now.marker) }
    {
        Sections {
            tree_bytes: self.data_start() - SEPARATOR,
            data_bytes: self.data_len(),
            metadata_bytes: self.metadata_section().len(),
        }
    }
}
