//! What a file says of itself.
ghost use Rattle.std.specs.Prelude.{IfErr, OnOk};

use mmdb_nodes::{IpVersion, RecordSize};
use std::collections::BTreeMap;
use thiserror::Error;

/// Why metadata are not written.
#[derive(Clone, Copy, Debug, PartialEq, Eq, Error)]
pub enum OptionsError {
    /// The database has no type.
    #[error("no database type")]
    NoType,
    /// Nothing describes the database.
    #[error("no description")]
    NoDescription,
    /// It is built later than a signed number of seconds can hold.
    #[error("built too late for a signed number of seconds")]
    TooLate,
}

/// What the metadata of a file are to say ("Database Metadata" of the MaxMind DB File Format Specification 2.0).
#[derive(Debug, PartialEq, Eq, Drop)]
pub struct Options {
    /// What kind of records the database has, as `GeoLite2-City`; not empty.
    pub database_type: String,
    /// What the database is, by language code; at least in one language.
    pub description: BTreeMap<String, String>,
    /// The codes of the languages in which records may have names.
    pub languages: Vec<String>,
    /// When the database was built, in seconds since 1970.
    pub build_epoch: u64,
    /// Whether the database has addresses of IPv4 alone, or of IPv6 too.
    pub ip_version: IpVersion,
    /// How many bits a record of a node has, or none for the least that serves.
    pub record_size: Option<RecordSize>,
}

impl Options {
    ghost use Rattle.mmdb_writer.specs.declared.options.OptionsError.{OptionsError as SpecError};
    ghost use Rattle.mmdb_writer.specs.Errors.{IsWrongOption};

    // Whether a reader accepts such metadata, and a verification.
    pub(crate) fn check(&self) -> Result<(), OptionsError>
        ensures err { IfErr result (IsWrongOption self.now) }
        ensures ok { OnOk result ((e : SpecError) → ¬ IsWrongOption self.now e) }
    {
        if self.database_type.is_empty() {
            return Err(OptionsError::NoType);
        }
        if self.description.is_empty() {
            return Err(OptionsError::NoDescription);
        }
        if self.build_epoch >= 1 << 63 {
            return Err(OptionsError::TooLate);
        }
        Ok(())
    }
}
