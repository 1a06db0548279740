//! What is read beside a database: files of blocks and of values.
use crate::gathering::{Addresses, Adjustment};
use crate::spelling::{Spelt, block_in};
use crate::value_lines::values_of_lines;
use mmdb_arguments::{ExportArguments, ListArguments, NoRequest};
use mmdb_blocks::BlockKind;
use mmdb_console::{Console, ProgramError, line_of};
use mmdb_layout::{Requirement, split_condition};
use std::alloc::{AllocError, Global};
use std::fs::File;
use std::io::{self, BufRead, Read, Write};
use std::rt::Files;

/// What stands for standard input in the place of a file.
const STANDARD_INPUT: &str = "-";

/// What some editors put before a text.
const BYTE_ORDER_MARK: &[u8] = b"\xEF\xBB\xBF";

/// How many characters of a line of a file are shown at most.
const MOST_SHOWN: usize = 100;

/// The beginning of a line of a file as it is shown, and what stands for the rest.
pub(crate) fn shown_start(line: &str) -> (&str, &'static str) {
    match line.char_indices().nth(MOST_SHOWN) {
        Some((place, _)) => (line.get(..place).unwrap_or(""), ".."),
        None => (line, ""),
    }
}

// A text without a byte order mark before it.
fn without_mark(bytes: &[u8]) -> &[u8] {
    bytes.strip_prefix(BYTE_ORDER_MARK).unwrap_or(bytes)
}

/// A value as it is written in a condition.
#[derive(Clone, Copy)]
pub(crate) enum Named<'a> {
    /// Itself.
    Value(&'a str),
    /// A file with a value a line.
    File(&'a str),
}

/// What a value of a condition names: after `@` a file, and after `@@` a value that begins with one.
pub(crate) fn named_by(value: &str) -> Named<'_> {
    match value.strip_prefix('@') {
        Some(rest) if rest.starts_with('@') => Named::Value(rest),
        Some(file) => Named::File(file),
        None => Named::Value(value),
    }
}

/// The values of a file that a condition names.
#[derive(Drop)]
pub(crate) struct ValueFile<'a> {
    /// The condition as it is written.
    pub(crate) condition: &'a str,
    /// What is wanted of the values.
    pub(crate) wanted: Requirement,
    pub(crate) values: Vec<String>,
}

impl ValueFile<'_> {
    /// The values.
    pub(crate) fn texts(&self, alloc: Global) -> Result<Vec<&str>, AllocError> {
        let mut texts = Vec::with_capacity(alloc, self.values.len())?;
        for value in &self.values {
            texts.push(value.as_str())?;
        }
        Ok(texts)
    }
}

/// The values of a condition's file, among those that were read; none where it was not.
pub(crate) fn values_of_file<'f>(
    alloc: Global,
    files: &'f [ValueFile<'_>],
    condition: &str,
) -> Result<Vec<&'f str>, AllocError> {
    match files.iter().find(|file| file.condition == condition) {
        Some(file) => file.texts(alloc),
        None => Ok(Vec::new(alloc)),
    }
}

// The file that a condition names, if it names one.
fn file_in(condition: &str) -> Option<&str> {
    let (_, value) = split_condition(condition)?;
    match named_by(value) {
        Named::File(file) => Some(file),
        Named::Value(_) => None,
    }
}

// How many conditions name standard input.
fn count_inputs(conditions: &[&str]) -> usize {
    let mut count = 0usize;
    for condition in conditions {
        if file_in(*condition) == Some(STANDARD_INPUT) {
            count = count.saturating_add(1);
        }
    }
    count
}

// How many files are standard input.
fn count_standard(files: &[&str]) -> usize {
    let mut count = 0usize;
    for file in files {
        if *file == STANDARD_INPUT {
            count = count.saturating_add(1);
        }
    }
    count
}

/// An `Err` where standard input is named more than once.
pub(crate) fn check_inputs(
    alloc: Global,
    arguments: &ExportArguments<'_>,
) -> Result<(), NoRequest> {
    let (conditions, list) = (&arguments.conditions, &arguments.list);
    let count = count_inputs(conditions.wheres.as_slice())
        .saturating_add(count_inputs(conditions.where_nots.as_slice()))
        .saturating_add(count_inputs(conditions.contains.as_slice()))
        .saturating_add(count_standard(list.also.as_slice()))
        .saturating_add(count_standard(list.except.as_slice()));
    if count > 1 {
        return Err(NoRequest::bad_argument(alloc, STANDARD_INPUT, "standard input is read once"));
    }
    Ok(())
}

// The bytes of a file, or of standard input.
fn read_bytes<R: Files, I: BufRead>(
    rt: &R,
    alloc: Global,
    file: &str,
    input: &mut I,
) -> io::Result<Vec<u8>> {
    let mut bytes = Vec::new(alloc);
    if file == STANDARD_INPUT {
        input.read_to_end(&mut bytes)?;
    } else {
        File::open(rt, file)?.read_to_end(&mut bytes)?;
    }
    Ok(bytes)
}

// The bytes of a file, or of standard input; none where they can't be read, which is reported.
fn read_input<R: Files, I: BufRead, O: Write, E: Write>(
    rt: &R,
    file: &str,
    input: &mut I,
    console: &mut Console<'_, O, E>,
) -> Result<Option<Vec<u8>>, ProgramError> {
    match read_bytes(rt, console.alloc, file, input) {
        Ok(bytes) => Ok(Some(bytes)),
        Err(error) if error.kind() == io::ErrorKind::OutOfMemory => Err(ProgramError::Memory),
        Err(error) => {
            console.report(file, &error);
            drop(error);
            Ok(None)
        }
    }
}

// Reports what is wrong with a line of a file.
fn report_line<O: Write, E: Write>(
    file: &str,
    line: usize,
    wrong: &str,
    console: &mut Console<'_, O, E>,
) {
    let text = format!(in console.alloc; "mmdb: {file}:{line}: {wrong}");
    console.note(line_of(console.alloc, text));
}

// Says of a network with address bits after its prefix as which it is read.
fn note_spelling<O: Write, E: Write>(
    file: &str,
    line: usize,
    text: &str,
    spelt: &Spelt,
    console: &mut Console<'_, O, E>,
) {
    if let Some(network) = spelt.read_as {
        let (network, prefix) = (network.network(), network.prefix());
        let (start, rest) = shown_start(text);
        let text = format!(in console.alloc;
            "mmdb: {file}:{line}: {start}{rest} is read as {network}/{prefix}"
        );
        console.note(line_of(console.alloc, text));
    }
}

// The text of a line without its comment and the blanks around it.
fn without_comment(line: &str) -> &str {
    let end = line.find(['#', ';']).unwrap_or(line.len());
    line.get(..end).unwrap_or("").trim()
}

/// What becomes of the blocks of a file.
#[derive(Clone, Copy, PartialEq, Eq)]
enum BlockUse {
    /// A list has them too.
    Added,
    /// A list has none of them.
    TakenAway,
}

// Adds the addresses that a line spells. Where IPv4 addresses are taken away that are written as ones of IPv6, those are too.
fn add_spelt(spelt: &Spelt, used: BlockUse, addresses: &mut Addresses) -> Result<(), AllocError> {
    addresses.add(spelt.kind, spelt.range)?;
    match spelt.mapped {
        Some(mapped) if used == BlockUse::TakenAway => addresses.add(BlockKind::Ipv6, mapped),
        _ => Ok(()),
    }
}

// Adds the blocks of a line of a file. Whether it is one of blocks; else what is wrong is reported.
fn add_line<O: Write, E: Write>(
    file: &str,
    line: usize,
    text: &str,
    used: BlockUse,
    addresses: &mut Addresses,
    console: &mut Console<'_, O, E>,
) -> Result<bool, ProgramError> {
    if text.is_empty() {
        return Ok(true);
    }
    match block_in(text) {
        Ok(spelt) => {
            note_spelling(file, line, text, &spelt, console);
            add_spelt(&spelt, used, addresses)?;
            Ok(true)
        }
        Err(wrong) => {
            let (start, rest) = shown_start(text);
            let text: String = format!(in console.alloc; "{start}{rest}: {wrong}")?;
            report_line(file, line, text.as_str(), console);
            Ok(false)
        }
    }
}

// Adds the blocks of the lines of a file. Whether all are blocks; else what is wrong with the first that is not is reported.
fn add_lines<O: Write, E: Write>(
    file: &str,
    bytes: &[u8],
    used: BlockUse,
    addresses: &mut Addresses,
    console: &mut Console<'_, O, E>,
) -> Result<bool, ProgramError> {
    let mut line = 0usize;
    for bytes in without_mark(bytes).split(|byte| *byte == b'\n') {
        line = line.saturating_add(1);
        let Ok(text) = str::from_utf8(bytes) else {
            report_line(file, line, "not valid UTF-8", console);
            return Ok(false);
        };
        if !add_line(file, line, without_comment(text), used, addresses, console)? {
            return Ok(false);
        }
    }
    Ok(true)
}

// Adds the blocks of files. Whether all could be read; else why not is reported.
fn add_files<R: Files, I: BufRead, O: Write, E: Write>(
    rt: &R,
    files: &[&str],
    used: BlockUse,
    addresses: &mut Addresses,
    input: &mut I,
    console: &mut Console<'_, O, E>,
) -> Result<bool, ProgramError> {
    for file in files {
        let Some(bytes) = read_input(rt, *file, input, console)? else {
            return Ok(false);
        };
        let is_read = add_lines(*file, bytes.as_slice(), used, addresses, console)?;
        drop(bytes);
        if !is_read {
            return Ok(false);
        }
    }
    Ok(true)
}

/// What files add to a list and take away; none where they can't be read, which is reported.
pub(crate) fn read_adjustment<R: Files, I: BufRead, O: Write, E: Write>(
    rt: &R,
    arguments: &ListArguments<'_>,
    input: &mut I,
    console: &mut Console<'_, O, E>,
) -> Result<Option<Adjustment>, ProgramError> {
    let mut also = Addresses::new(console.alloc);
    let mut except = Addresses::new(console.alloc);
    let (added, taken) = (arguments.also.as_slice(), arguments.except.as_slice());
    let is_read = add_files(rt, added, BlockUse::Added, &mut also, input, console)?
        && add_files(rt, taken, BlockUse::TakenAway, &mut except, input, console)?;
    if !is_read {
        return Ok(None);
    }
    Ok(Some(Adjustment { also, except }))
}

// The first line of a text that is not valid UTF-8.
fn line_with_fault(bytes: &[u8]) -> usize {
    let mut line = 0usize;
    for bytes in bytes.split(|byte| *byte == b'\n') {
        line = line.saturating_add(1);
        if str::from_utf8(bytes).is_err() {
            break;
        }
    }
    line
}

// The values of a text, in which a line is one; none where a line is wrong, which is reported.
fn values_in<O: Write, E: Write>(
    file: &str,
    text: &str,
    console: &mut Console<'_, O, E>,
) -> Result<Option<Vec<String>>, AllocError> {
    match values_of_lines(console.alloc, text)? {
        Ok(values) => Ok(Some(values)),
        Err(line) => {
            report_line(
                file,
                line,
                "not a text in double quotes as JSON writes it",
                console,
            );
            Ok(None)
        }
    }
}

// The values of a file; none where it can't be read, which is reported.
fn values_of_input<R: Files, I: BufRead, O: Write, E: Write>(
    rt: &R,
    file: &str,
    input: &mut I,
    console: &mut Console<'_, O, E>,
) -> Result<Option<Vec<String>>, ProgramError> {
    let Some(bytes) = read_input(rt, file, input, console)? else {
        return Ok(None);
    };
    let bytes = without_mark(bytes.as_slice());
    match str::from_utf8(bytes) {
        Ok(text) => Ok(values_in(file, text, console)?),
        Err(_) => {
            report_line(file, line_with_fault(bytes), "not valid UTF-8", console);
            Ok(None)
        }
    }
}

// Reads the files of values that conditions name. Whether all could be read; else why not is reported.
fn read_values<'a, R: Files, I: BufRead, O: Write, E: Write>(
    rt: &R,
    conditions: &[&'a str],
    wanted: Requirement,
    files: &mut Vec<ValueFile<'a>>,
    input: &mut I,
    console: &mut Console<'_, O, E>,
) -> Result<bool, ProgramError> {
    for condition in conditions {
        let Some(file) = file_in(*condition) else {
            continue;
        };
        let Some(values) = values_of_input(rt, file, input, console)? else {
            return Ok(false);
        };
        files.push(ValueFile {
            condition: *condition,
            wanted,
            values,
        })?;
    }
    Ok(true)
}

/// The files of values that conditions name; none where one can't be read, which is reported.
pub(crate) fn read_value_files<'a, R: Files, I: BufRead, O: Write, E: Write>(
    rt: &R,
    arguments: &'a ExportArguments<'a>,
    input: &mut I,
    console: &mut Console<'_, O, E>,
) -> Result<Option<Vec<ValueFile<'a>>>, ProgramError> {
    let conditions = &arguments.conditions;
    let (wheres, where_nots) = (
        conditions.wheres.as_slice(),
        conditions.where_nots.as_slice(),
    );
    let parts = conditions.contains.as_slice();
    let mut files = Vec::new(console.alloc);
    let is_read = read_values(rt, wheres, Requirement::OneOf, &mut files, input, console)?
        && read_values(
            rt,
            where_nots,
            Requirement::NoneOf,
            &mut files,
            input,
            console,
        )?
        && read_values(rt, parts, Requirement::Part, &mut files, input, console)?;
    if !is_read {
        return Ok(None);
    }
    Ok(Some(files))
}
