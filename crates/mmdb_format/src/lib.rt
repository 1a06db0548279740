//! The values of a MaxMind DB file: headers, pointers and contents, and the errors of every layer.
#![tactic(auto)]

mod ascii;
pub mod content;
pub mod decode_error_kind;
pub mod error;
pub mod header;
pub mod kind;
pub mod laws;
pub mod message;
pub mod utf8;
