//! The files of these tests, and what they answer, as text.
use mmdb_reader::{IpNetwork, LookupResult, MaxMindDbError, NumberedNetwork, Reader};
use mmdb_vectors::answer::{reported, shown};
use mmdb_vectors::base::{high, low};
use mmdb_vectors::builder::{
    BASE_DATA, BASE_NODE, Changes, changed_file, file_of_many_nodes, file_of_shared_nodes,
    file_of_twenty_nodes, file_with_alias, file_without_subtree,
};
use std::alloc::{AllocError, Global};
use std::convert::AsSlice;
use std::net::IpAddr;

/// A file.
pub enum File {
    /// These nodes and data, and the metadata of the base file with these changes.
    Of(&'static [u8], &'static [u8], Changes<'static>),
    WithAlias,
    WithoutSubtree,
    TwentyNodes,
    SharedNodes,
    ManyNodes,
}

/// The base file.
pub const BASE: File = File::Of(BASE_NODE, BASE_DATA, &[]);

/// The bytes of a file.
pub fn bytes_of(alloc: Global, file: &File) -> Result<Vec<u8>, AllocError> {
    match file {
        File::Of(nodes, data, changes) => changed_file(alloc, nodes, data, changes),
        File::WithAlias => file_with_alias(alloc),
        File::WithoutSubtree => file_without_subtree(alloc),
        File::TwentyNodes => file_of_twenty_nodes(alloc),
        File::SharedNodes => file_of_shared_nodes(alloc),
        File::ManyNodes => file_of_many_nodes(alloc),
    }
}

// A reader of these bytes, or the error.
fn opened(
    alloc: Global,
    bytes: Result<Vec<u8>, AllocError>,
) -> Result<Reader<Vec<u8>>, MaxMindDbError> {
    match bytes {
        Ok(bytes) => Reader::from_source(alloc, bytes),
        Err(_) => Err(MaxMindDbError::Memory),
    }
}

/// A reader of a file, or its error.
pub fn reader_of(alloc: Global, file: &File) -> Result<Reader<Vec<u8>>, MaxMindDbError> {
    opened(alloc, bytes_of(alloc, file))
}

/// The address that a text spells. A text that spells none has that of no data.
pub fn address(text: &str) -> IpAddr {
    text.parse().unwrap_or(low())
}

// The text of a network, of whether there is data, and of their offset.
fn line_of(
    alloc: Global,
    network: Result<String, AllocError>,
    has_data: bool,
    offset: Option<usize>,
) -> Result<String, AllocError> {
    let network = network?;
    format!(in alloc; "{network} {has_data} {offset:?}")
}

// Whether these are a network's numbers.
fn are_numbers_of(network: IpNetwork, numbers: NumberedNetwork) -> bool {
    let (first, width) = match network.ip() {
        IpAddr::V4(address) => (u128::from(address.to_bits()), 32),
        IpAddr::V6(address) => (address.to_bits(), 128),
    };
    let is_first = numbers.first == first && numbers.width == width;
    is_first && numbers.prefix == usize::from(network.prefix())
}

// The full text of the network that was found, whether there is data, and their offset. Its numbers have to agree.
fn text_of<S: AsSlice<u8> + Drop>(
    alloc: Global,
    found: LookupResult<'_, S>,
) -> Result<String, AllocError> {
    let (has_data, offset) = (found.has_data(), found.offset());
    match found.network() {
        Ok(network) if !are_numbers_of(network, found.numbered_network()) => {
            String::from_str(alloc, "other numbers")
        }
        Ok(network) => line_of(alloc, network.full_text(alloc), has_data, offset),
        Err(error) => reported(alloc, Err::<(), _>(error)),
    }
}

/// The network that was found, whether there is data, and their offset, or the text of the error.
pub fn found_text<S: AsSlice<u8> + Drop>(
    alloc: Global,
    found: Result<LookupResult<'_, S>, MaxMindDbError>,
) -> Result<String, AllocError> {
    match found {
        Ok(found) => text_of(alloc, found),
        Err(error) => reported(alloc, Err::<(), _>(error)),
    }
}

// The text that is found, or the error.
fn value_text<S: AsSlice<u8> + Drop>(
    alloc: Global,
    found: Result<LookupResult<'_, S>, MaxMindDbError>,
) -> Result<String, AllocError> {
    match found {
        Ok(found) => shown(alloc, found.decode::<&str>(alloc)),
        Err(error) => reported(alloc, Err::<(), _>(error)),
    }
}

/// The text that a reader has for the upper half of all addresses, or the error of its file.
pub fn value_by(
    alloc: Global,
    opened: Result<Reader<Vec<u8>>, MaxMindDbError>,
) -> Result<String, AllocError> {
    match opened {
        Ok(reader) => value_text(alloc, reader.lookup(high())),
        Err(error) => reported(alloc, Err::<(), _>(error)),
    }
}

/// What an address is answered by a reader, or the error of its file.
pub fn answer_by(
    alloc: Global,
    opened: Result<Reader<Vec<u8>>, MaxMindDbError>,
    text: &str,
) -> Result<String, AllocError> {
    match opened {
        Ok(reader) => found_text(alloc, reader.lookup(address(text))),
        Err(error) => reported(alloc, Err::<(), _>(error)),
    }
}

/// What an address is answered by a file, or its error.
pub fn answer(alloc: Global, file: &File, text: &str) -> Result<String, AllocError> {
    answer_by(alloc, reader_of(alloc, file), text)
}
