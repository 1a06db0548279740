//! What `build` is asked for.
use crate::columns::Columns;
use crate::json_lines::{RANGE, RECORD};
use crate::scalars::type_of;
use mmdb_arguments::{BuildArguments, NoRequest, Reserved, RowFormat};
use mmdb_console::wanted_path;
use mmdb_filter::Rows;
use mmdb_format::kind::Kind;
use mmdb_reader::PathElement;
use mmdb_writer::{IpVersion, Options, RecordSize};
use std::alloc::{AllocError, Global};
use std::collections::BTreeMap;
use std::env::{Env, FillError};
use std::time::Clock;

/// The variable whose seconds serve where none are given.
const EPOCH: &str = "SOURCE_DATE_EPOCH";

/// A path, and the type of the values there.
#[derive(Drop)]
pub(crate) struct TypedPath<'a> {
    /// The path as it is given.
    pub(crate) text: &'a str,
    pub(crate) path: Vec<PathElement<'a>>,
    pub(crate) kind: Kind,
}

/// What `build` is asked for.
#[derive(Drop)]
pub(crate) struct BuildTask<'a> {
    pub(crate) out: &'a str,
    pub(crate) from: &'a str,
    pub(crate) format: RowFormat,
    pub(crate) columns: Columns<'a>,
    pub(crate) types: Vec<TypedPath<'a>>,
    pub(crate) types_like: Option<&'a str>,
    pub(crate) equal_is_error: bool,
    pub(crate) reserved: Reserved,
    pub(crate) skip_bad: bool,
    pub(crate) check: bool,
}

/// The name of standard input.
pub(crate) const STANDARD_INPUT: &str = "-";

/// The name that standard output has elsewhere.
const STANDARD_OUTPUT: &str = "-";

impl BuildTask<'_> {
    /// What reports call the file of the rows.
    pub(crate) fn from_name(&self) -> &str {
        if self.from == STANDARD_INPUT {
            "standard input"
        } else {
            self.from
        }
    }

    /// Where rows end.
    pub(crate) fn rows(&self) -> Rows {
        match self.format {
            RowFormat::JsonLines | RowFormat::Tsv => Rows::Lines { delimiter: b'\t' },
            RowFormat::Csv => Rows::Csv { delimiter: b',' },
        }
    }
}

// Rejects the name of a column of addresses that has something else in lines of JSON.
fn check_name<'a>(
    alloc: Global,
    format: RowFormat,
    name: &'a str,
    others: &[&str],
) -> Result<&'a str, NoRequest> {
    if format == RowFormat::JsonLines && others.contains(&name) {
        let wanted = "in lines of JSON a member of this name has something else";
        return Err(NoRequest::bad_argument(alloc, name, wanted));
    }
    Ok(name)
}

// The columns of addresses.
fn columns_of<'a>(alloc: Global, arguments: &BuildArguments<'a>) -> Result<Columns<'a>, NoRequest> {
    let format = arguments.format;
    let Some(names) = arguments.range_columns else {
        let name = arguments.network_column.unwrap_or("network");
        return Ok(Columns::Network(check_name(alloc, format, name, &[RANGE, RECORD])?));
    };
    match names.split_once(',') {
        Some((first, last)) if first != last => Ok(Columns::Range(
            check_name(alloc, format, first, &[RECORD])?,
            check_name(alloc, format, last, &[RECORD])?,
        )),
        _ => Err(NoRequest::bad_argument(alloc, names, "not two names with a comma between them")),
    }
}

// A path and a type.
fn typed_path<'a>(alloc: Global, text: &'a str) -> Result<TypedPath<'a>, NoRequest> {
    let Some((given, name)) = text.rsplit_once('=') else {
        return Err(NoRequest::bad_argument(alloc, text, "not a path and a type"));
    };
    let path = wanted_path(alloc, given)?;
    match type_of(name) {
        Some(kind) => Ok(TypedPath {
            text: given,
            path,
            kind,
        }),
        None => Err(NoRequest::bad_argument(alloc, text, "not a type that is known")),
    }
}

fn typed_paths<'a>(alloc: Global, texts: &[&'a str]) -> Result<Vec<TypedPath<'a>>, NoRequest> {
    let mut paths = Vec::new(alloc);
    for text in texts {
        paths.push(typed_path(alloc, *text)?)?;
    }
    Ok(paths)
}

// The seconds that a text spells. Other readers reject a file of second 0.
fn seconds_of(alloc: Global, of: &str, text: &str) -> Result<u64, NoRequest> {
    match text.parse::<u64>() {
        Ok(seconds) if seconds > 0 && seconds < 1 << 63 => Ok(seconds),
        _ => Err(NoRequest::bad_argument(alloc, of, "not a number of seconds from 1 on")),
    }
}

// The seconds of the variable, or now.
fn seconds_outside<R: Env + Clock>(rt: &R, alloc: Global) -> Result<u64, NoRequest> {
    let mut buffer = [0u8; 64];
    match rt.var(EPOCH, &mut buffer) {
        Ok(len) => {
            let text = str::from_utf8(&buffer[..len]).unwrap_or("");
            seconds_of(alloc, EPOCH, text)
        }
        Err(FillError::TooLong) => seconds_of(alloc, EPOCH, ""),
        Err(FillError::NotPresent) => Ok(match rt.since_1970() {
            Ok(time) => time.as_secs(),
            Err(_) => 1,
        }),
    }
}

// When the file is built.
fn build_epoch<R: Env + Clock>(
    rt: &R,
    alloc: Global,
    arguments: &BuildArguments<'_>,
) -> Result<u64, NoRequest> {
    match arguments.build_epoch {
        Some(text) => seconds_of(alloc, "--build-epoch", text),
        None => seconds_outside(rt, alloc),
    }
}

// Adds a description in a language.
fn put_description(
    alloc: Global,
    language: &str,
    text: &str,
    all: &mut BTreeMap<String, String>,
) -> Result<(), AllocError> {
    let language = String::from_str(alloc, language)?;
    let text = String::from_str(alloc, text)?;
    all.insert(language, text)?;
    Ok(())
}

// The descriptions, by language. Where there are none, the type in English.
fn descriptions_of(
    alloc: Global,
    arguments: &BuildArguments<'_>,
) -> Result<BTreeMap<String, String>, NoRequest> {
    let mut all = BTreeMap::new(alloc);
    for text in &arguments.descriptions {
        match text.split_once('=') {
            Some((language, text)) => put_description(alloc, language, text, &mut all)?,
            None => {
                return Err(NoRequest::bad_argument(alloc, *text, "not a language and a text"));
            }
        }
    }
    if all.is_empty() {
        put_description(alloc, "en", arguments.database_type, &mut all)?;
    }
    Ok(all)
}

// The codes of languages.
fn languages_of(alloc: Global, texts: &[&str]) -> Result<Vec<String>, AllocError> {
    let mut languages = Vec::new(alloc);
    for text in texts {
        languages.push(String::from_str(alloc, *text)?)?;
    }
    Ok(languages)
}

// The size of records that is asked for.
fn record_size_of(text: Option<&str>) -> Option<RecordSize> {
    match text {
        Some("24") => Some(RecordSize::Bits24),
        Some("28") => Some(RecordSize::Bits28),
        Some("32") => Some(RecordSize::Bits32),
        _ => None,
    }
}

/// What the file is to say of itself. An `Err` where an argument is not what is wanted in its place.
pub(crate) fn options_of<R: Env + Clock>(
    rt: &R,
    alloc: Global,
    arguments: &BuildArguments<'_>,
) -> Result<Options, NoRequest> {
    if arguments.database_type.is_empty() {
        return Err(NoRequest::bad_argument(alloc, "--database-type", "an empty text"));
    }
    let build_epoch = build_epoch(rt, alloc, arguments)?;
    let description = descriptions_of(alloc, arguments)?;
    Ok(Options {
        database_type: String::from_str(alloc, arguments.database_type)?,
        description,
        languages: languages_of(alloc, &arguments.languages)?,
        build_epoch,
        ip_version: if arguments.ipv4_alone {
            IpVersion::V4
        } else {
            IpVersion::V6
        },
        record_size: record_size_of(arguments.record_size),
    })
}

/// What the arguments of `build` ask for. An `Err` where one is not what is wanted in its place.
pub(crate) fn build_task<'a>(
    alloc: Global,
    arguments: &BuildArguments<'a>,
) -> Result<BuildTask<'a>, NoRequest> {
    if arguments.out == STANDARD_OUTPUT {
        return Err(NoRequest::bad_argument(alloc, "OUT", "it can't be standard output"));
    }
    let columns = columns_of(alloc, arguments)?;
    let types = typed_paths(alloc, &arguments.types)?;
    Ok(BuildTask {
        out: arguments.out,
        from: arguments.from,
        format: arguments.format,
        columns,
        types,
        types_like: arguments.types_like,
        equal_is_error: arguments.equal_is_error,
        reserved: arguments.reserved,
        skip_bad: arguments.skip_bad,
        check: arguments.check,
    })
}
