//! Types that are read from a MaxMind DB file, and records: maps whose keys name fields.
#![tactic(auto)]

pub mod decode;
pub mod fields;

/// Decoding from the beginning of a section.
pub mod first_value;
pub mod laws;
pub mod memo;
pub mod record;
pub mod text_map;
pub mod try_decode;
