//! The metadata of a file, as bytes.
ghost use Rattle.std.specs.Prelude.{◌≡◌, ◌<◌, ◌⊎◌, IfErr, length, string_bytes};
ghost use Rattle.mmdb_section.specs.Sections.{most_size};
ghost use Rattle.mmdb_writer.specs.Errors.{IsLong, IsDescriptionLarge, AreLanguagesLarge, AreMetadataLarge};

use crate::options::Options;
use mmdb_format::kind::{ARRAY, MAP};
use mmdb_nodes::{IpVersion, SearchTree};
use mmdb_section::{MOST_SIZE, Number, SectionError, push_header, push_number, push_text};
use std::alloc::Global;

// A header of a type and size.
fn push_sized_header(out: &mut Vec<u8>, kind: u16, size: usize) -> Result<(), SectionError>
    requires no_pointer { 1 < kind }
    requires kind { kind < 16 }
    ensures { IfErr result (λ e. e ≡ SectionError.TooLarge → most_size < size) }
{
    if size > MOST_SIZE {
        return Err(SectionError::TooLarge);
    }
    Ok(push_header(out, kind, size)?)
}

// A text.
fn push_sized_text(out: &mut Vec<u8>, text: &str) -> Result<(), SectionError>
    ensures { IfErr result (λ e. e ≡ SectionError.TooLarge → IsLong text.now) }
{
    if text.len() > MOST_SIZE {
        return Err(SectionError::TooLarge);
    }
    Ok(push_text(out, text)?)
}

// A key and a number.
fn push_number_field(out: &mut Vec<u8>, name: &str, number: Number) -> Result<(), SectionError>
    ensures { IfErr result (λ e. e ≡ SectionError.TooLarge → IsLong name.now) }
{
    push_sized_text(out, name)?;
    Ok(push_number(out, number)?)
}

// The texts that describe the database, by language.
fn push_description(out: &mut Vec<u8>, options: &Options) -> Result<(), SectionError>
    ensures { IfErr result (λ e. e ≡ SectionError.TooLarge → IsDescriptionLarge options.now) }
{
    push_sized_text(out, "description")?;
    push_sized_header(out, MAP, options.description.len())?;
    for (language, text) in &options.description {
        push_sized_text(out, language)?;
        push_sized_text(out, text)?;
    }
    Ok(())
}

// The codes of languages.
fn push_languages(out: &mut Vec<u8>, options: &Options) -> Result<(), SectionError>
    ensures { IfErr result (λ e. e ≡ SectionError.TooLarge → AreLanguagesLarge options.now) }
{
    push_sized_text(out, "languages")?;
    push_sized_header(out, ARRAY, options.languages.len())?;
    for language in &options.languages {
        push_sized_text(out, language)?;
    }
    Ok(())
}

impl Options {
    ghost use Rattle.mmdb_writer.specs.Written.{version_number as spec_version_number};

    // The version of IP as metadata say it.
    pub(crate) fn version_number(&self) -> u16
        ensures { result ≡ spec_version_number self.now.ip_version }
    {
        match self.ip_version {
            IpVersion::V4 => 4,
            IpVersion::V6 => 6,
        }
    }
}

// The metadata of a database with this tree: a map of nine fields.
pub(crate) fn metadata_bytes(
    alloc: Global,
    options: &Options,
    tree: &SearchTree,
) -> Result<Vec<u8>, SectionError>
    ensures { IfErr result (λ e. e ≡ SectionError.TooLarge → AreMetadataLarge options.now) }
{
    let mut out = Vec::new(alloc);
    push_sized_header(&mut out, MAP, 9)?;
    push_number_field(&mut out, "binary_format_major_version", Number::U16(2))?;
    push_number_field(&mut out, "binary_format_minor_version", Number::U16(0))?;
    push_number_field(&mut out, "build_epoch", Number::U64(options.build_epoch))?;
    push_sized_text(&mut out, "database_type")?;
    push_sized_text(&mut out, &options.database_type)?;
    push_description(&mut out, options)?;
    push_number_field(
        &mut out,
        "ip_version",
        Number::U16(options.version_number()),
    )?;
    push_languages(&mut out, options)?;
    push_number_field(&mut out, "node_count", Number::U32(tree.node_count))?;
    push_number_field(
        &mut out,
        "record_size",
        Number::U16(tree.record_size.bits()),
    )?;
    Ok(out)
}
