//! The values of a MaxMind DB file: any value read whole, and what `mmdb_format`, `mmdb_check`,
//! `mmdb_decode` and `mmdb_record` have for users.
#![tactic(auto)]

pub mod any_value;

/// Decoding from the beginning of a section, and the check of its first value.
pub mod first_value;
pub mod laws;
pub mod raw_value;
mod read;

pub use any_value::Value;
pub use first_value as fuzzing;
pub use mmdb_check::checked::{Checked, check_value};
pub use mmdb_decode::decoder::Decoder;
pub use mmdb_decode::items::{Entries, Items};
pub use mmdb_decode::peek::empty_container;
pub use mmdb_decode::{decoder as decoder, items as items};
pub use mmdb_format::content::{Double, Float};
pub use mmdb_format::error::{
    DecodeResult, MaxMindDbError, decoding, decoding_at, decoding_at_path, invalid_database,
    invalid_database_at, invalid_input, resource_limit_at,
};
pub use mmdb_format::kind::Kind;
pub use mmdb_format::message::{Message, Text};
pub use mmdb_record::decode::{Decode, OwnedBytes};
pub use mmdb_record::{decode as decode, record as record};
pub use raw_value::RawValue;
