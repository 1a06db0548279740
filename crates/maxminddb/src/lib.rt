//! A reader and a writer of MaxMind DB files with the records of GeoIP2 and GeoLite2: what users name of the crates below.
#![tactic(auto)]

pub mod laws;
mod path;

pub use mmdb_geoip2 as geoip2;
pub use mmdb_reader::{
    FoundLeaf, IpNetwork, IpNetworkError, Ipv4Network, Ipv6Network, LookupMany, LookupResult,
    MaxMindDbError, Metadata, PathElement, Reader, Steps, Within, WithinOptions, geonet as geonet,
    mask_ip, metadata as metadata, read_node, reader as reader, render_path, tree as tree,
};
pub use mmdb_value as values;
pub use mmdb_value::{
    Checked, Decode, DecodeResult, Decoder, Double, Entries, Float, Items, Kind, OwnedBytes,
    RawValue, Value, check_value, decoding, decoding_at, decoding_at_path, empty_container,
    fuzzing as fuzzing, invalid_database, invalid_database_at, invalid_input, resource_limit_at,
};
pub use mmdb_writer as writer;
