//! What a database says of itself.
ghost use Rattle.std.specs.Prelude.{◌≡◌, ◌<◌, ◌^◌, ◌↔◌, pos, IfOk, IfErr, IsOk, OnOk};
ghost use Rattle.mmdb_format.specs.Error.{OfDatabase, kind_of, MemoryApart, IsOfOrMemory};

use mmdb_format::error::MaxMindDbError;
use mmdb_format::message::{Message, Text};
use std::alloc::{AllocError, Global};
use std::collections::BTreeMap;

/// The metadata of a database ("Database Metadata" of the MaxMind DB File Format Specification 2.0).
#[derive(Debug, PartialEq, Eq, Drop)]
pub struct Metadata {
    /// The major version of the file format, 2.
    pub binary_format_major_version: u16,
    /// The minor version of the file format.
    pub binary_format_minor_version: u16,
    /// When the database was built, in seconds since 1970.
    pub build_epoch: u64,
    /// What kind of records the database has, as `GeoLite2-City`.
    pub database_type: String,
    /// What the database is, by language code.
    pub description: BTreeMap<String, String>,
    /// Whether the database has addresses of IPv4 alone (4) or of IPv6 too (6).
    pub ip_version: u16,
    /// The codes of the languages in which records may have names.
    pub languages: Vec<String>,
    /// How many nodes the search tree has.
    pub node_count: u32,
    /// How many bits a record of a node has: 24, 28 or 32.
    pub record_size: u16,
}

// An `InvalidDatabase` with this text, or `Memory`.
fn to_error(alloc: Global, text: String) -> MaxMindDbError
    ensures { IsOfOrMemory OfDatabase result }
{
    match Message::of_text(alloc, text) {
        Ok(message) => MaxMindDbError::InvalidDatabase {
            message,
            offset: None,
        },
        Err(_) => MaxMindDbError::Memory,
    }
}

// The error of a time that a signed number of seconds can't hold.
fn too_late(alloc: Global, epoch: u64) -> MaxMindDbError
    ensures { IsOfOrMemory OfDatabase result }
{
    let text: Result<String, AllocError> = format!(in alloc;
        "build_epoch - Unix timestamp is too large to represent as SystemTime: {epoch}"
    );
    match text {
        Ok(text) => to_error(alloc, text),
        Err(_) => MaxMindDbError::Memory,
    }
}

impl Clone for Metadata {
    ghost use Rattle.mmdb_reader.specs.Metadata.{metadata_datum};

    ghost is_clone = { λ s r. metadata_datum r ≡ metadata_datum s };

    fn clone(&self) -> Result<Metadata, AllocError> {
        Ok(Metadata {
            binary_format_major_version: self.binary_format_major_version,
            binary_format_minor_version: self.binary_format_minor_version,
            build_epoch: self.build_epoch,
            database_type: self.database_type.clone()?,
            description: self.description.clone()?,
            ip_version: self.ip_version,
            languages: self.languages.clone()?,
            node_count: self.node_count,
            record_size: self.record_size,
        })
    }
}

impl Metadata {
    ghost use Rattle.mmdb_reader.specs.Metadata.{metadata_datum};
    ghost use Rattle.mmdb_reader.specs.File.{IsSupported};

    /// When the database was built, in seconds since 1970 ("build_epoch").
    ///
    /// It succeeds for the metadata of every reader. A `build_epoch` above 2^63 - 1, which metadata made
    /// by hand may have, is rejected as `InvalidDatabase`, or as `Memory` where the text can't be made.
    pub fn build_time(&self, alloc: Global) -> Result<i64, MaxMindDbError>
        ensures time { IfOk result (λ seconds. seconds ≡ pos self.now.build_epoch) }
        ensures fits { IsOk result ↔ (self.now.build_epoch < 2 ^ 63) }
        ensures kind { IfErr result (IsOfOrMemory OfDatabase) }
    {
        match i64::try_from(self.build_epoch) {
            Ok(seconds) => Ok(seconds),
            Err(_) => Err(too_late(alloc, self.build_epoch)),
        }
    }

    /// Rejects what a reader does not read, each field in turn.
    pub(crate) fn check_supported(&self, alloc: Global) -> Result<(), MaxMindDbError>
        ensures supported { OnOk result (IsSupported (metadata_datum self.now)) }
        ensures rejected { IfErr result
            (λ e. MemoryApart e ((kind_of e ≡ OfDatabase)
            × ¬ IsSupported (metadata_datum self.now))) }
    {
        let format = self.binary_format_major_version;
        if format != 2 {
            let text = format!(in alloc;
                "binary_format_major_version - Expected: 2 Actual: {format}"
            )?;
            return Err(to_error(alloc, text));
        }
        let ip = self.ip_version;
        if ip != 4 && ip != 6 {
            let text = format!(in alloc; "ip_version - Expected: 4 or 6 Actual: {ip}")?;
            return Err(to_error(alloc, text));
        }
        if self.node_count == 0 {
            return Err(MaxMindDbError::InvalidDatabase {
                message: Message::Fixed(Text::NoNode),
                offset: None,
            });
        }
        let epoch = self.build_epoch;
        if epoch >= 1 << 63 {
            let text = format!(in alloc;
                "build_epoch - Unix timestamp is too large to represent as SystemTime: {epoch}"
            )?;
            return Err(to_error(alloc, text));
        }
        let size = self.record_size;
        if size != 24 && size != 28 && size != 32 {
            let text = format!(in alloc; "record_size - Expected: 24, 28, or 32 Actual: {size}")?;
            return Err(to_error(alloc, text));
        }
        Ok(())
    }
}
