//! A reader of MaxMind DB files: the metadata, the search tree, and lookups of addresses in it.
#![tactic(auto)]

mod decode_path;
pub mod file_layout;
mod go_along;
pub mod laws;
mod lookup_many;
mod lookup_result;
mod many;
mod marker;
pub mod metadata;
mod metadata_fields;
mod offsets;
mod open;
mod options;
mod path;
mod positions;
pub mod reader;
mod record;
mod sections;
mod steps;
mod verify;
mod walked;
mod within;

pub use file_layout::FileLayout;
pub use lookup_many::LookupMany;
pub use lookup_result::{LookupResult, NumberedNetwork};
pub use metadata::Metadata;
pub use mmdb_format::error::MaxMindDbError;
pub use mmdb_net as geonet;
pub use mmdb_net::{IpNetwork, IpNetworkError, Ipv4Network, Ipv6Network, mask_ip};
pub use mmdb_tree as tree;
pub use mmdb_tree::{Descent, FoundLeaf, Nodes, read_node};
pub use options::WithinOptions;
pub use path::{PathElement, render_path};
pub use reader::Reader;
pub use record::Record;
pub use sections::Sections;
pub use steps::Steps;
pub use within::Within;
