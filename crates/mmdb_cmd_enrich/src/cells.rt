//! The cells of a record.
ghost use Rattle.std.specs.Prelude.{◌≡◌, ◌<◌, ◌++◌, Option, false, IfOk, OnOk, map};
ghost use Rattle.std.specs.Char.{digit_char};
ghost use Rattle.mmdb_filter.specs.Cells.{csv_cell};
ghost use Rattle.mmdb_filter.specs.declared.rows.Rows.TheVariants.{Lines, Csv};
ghost use Rattle.mmdb_format.specs.Contents.{text as text_content};
ghost use Rattle.mmdb_format.specs.Unfolding.{Tree, scalar};
ghost use Rattle.mmdb_net.specs.Network.{short_text_of};
ghost use Rattle.mmdb_value.specs.Values.{value_tree};
ghost use Rattle.mmdb_cmd_enrich.specs.Cells.{is_plain as spec_is_plain, blanks, escape_letter, escape_of, escaped};
ghost use Rattle.mmdb_cmd_enrich.specs.Working.{PutsShown, PutsCompact, PutsCell, PutsNextCell, PutsCells, PutsFront, PutsJson};
ghost use Rattle.mmdb_layout.specs.Reading.{IsReadAs};

use crate::columns::delimiter_of;
use json::Writer;
use mmdb_filter::{Rows, put_csv_cell};
use mmdb_json::{compact, write_value};
use mmdb_layout::ReadAlong;
use mmdb_net::IpNetwork;
use mmdb_reader::{MaxMindDbError, PathElement};
use mmdb_value::Value;
use std::alloc::{AllocError, Global};
use std::mem;

// Whether no byte is a control character or the delimiter. All are looked at, many at a time.
fn is_plain(delimiter: u8, text: &[u8]) -> bool
    ensures { result ≡ spec_is_plain delimiter text.now }
{
    let mut plain = true;
    for at in 0..text.len() {
        plain &= (text[at] > 31) & (text[at] != delimiter);
    }
    plain
}

// Adds the JSON that shows a value.
#[inline(never)]
fn put_compact(alloc: Global, value: &Value<'_>, out: &mut Vec<u8>) -> Result<(), AllocError>
    ensures { OnOk result (PutsCompact (value_tree value.now) out.old.items out.new.items) }
{
    let mut writer = Writer::new(mem::replace(out, Vec::new(alloc)));
    let done = write_value(alloc, value, &mut writer);
    *out = writer.into_inner();
    done
}

// The letter of a control character in an escape of JSON, or 0 where it has none.
fn letter_of(byte: u8) -> u8
    ensures { result ≡ escape_letter byte }
{
    if byte == b'\x08' {
        b'b'
    } else if byte == b'\t' {
        b't'
    } else if byte == b'\n' {
        b'n'
    } else if byte == b'\x0c' {
        b'f'
    } else if byte == b'\r' {
        b'r'
    } else {
        0
    }
}

// A hex digit.
fn hex_digit(digit: u8) -> u8
    requires { digit < 16 }
    ensures { result ≡ digit_char digit }
{
    if digit < 10 {
        b'0' + digit
    } else {
        b'a' - 10 + digit
    }
}

// Adds a byte in an escape of JSON.
fn put_escape(byte: u8, out: &mut Vec<u8>) -> Result<(), AllocError>
    ensures { OnOk result (out.new.items ≡ out.old.items ++ escape_of byte) }
{
    let letter = letter_of(byte);
    if letter > 0 {
        return out.extend_from_slice(&[b'\\', letter]);
    }
    let (high, low) = (hex_digit(byte / 16), hex_digit(byte % 16));
    out.extend_from_slice(&[b'\\', b'u', b'0', b'0', high, low])
}

// Adds bytes with control characters and delimiters in escapes of JSON.
#[inline(never)]
#[tactic(auto, unfolding(crate::specs::Cells::escaped))]
fn put_escaped(delimiter: u8, bytes: &[u8], out: &mut Vec<u8>) -> Result<(), AllocError>
    ensures { OnOk result (out.new.items ≡ out.old.items ++ escaped delimiter bytes.now) }
{
    for at in 0..bytes.len() {
        let byte = bytes[at];
        if byte > 31 && byte != delimiter {
            out.push(byte)?;
        } else {
            put_escape(byte, out)?;
        }
    }
    Ok(())
}

// Adds a cell of CSV, with control characters in escapes of JSON.
#[inline(always)]
fn put_csv(alloc: Global, delimiter: u8, bytes: &[u8], out: &mut Vec<u8>) -> Result<(), AllocError>
    ensures { OnOk result
        (out.new.items ≡ out.old.items ++ csv_cell delimiter (escaped 0 bytes.now)) }
{
    if is_plain(0, bytes) {
        return put_csv_cell(delimiter, bytes, out);
    }
    let mut shown: Vec<u8> = Vec::new(alloc);
    put_escaped(0, bytes, &mut shown)?;
    put_csv_cell(delimiter, shown.as_slice(), out)
}

// Adds the cell of a text in a line that is not plain: as JSON where tabs separate cells, and else with escapes of JSON.
#[inline(never)]
fn put_rough(alloc: Global, delimiter: u8, text: &str, out: &mut Vec<u8>) -> Result<(), AllocError>
    requires { spec_is_plain delimiter text.now ≡ false }
    ensures { OnOk result (PutsShown (Lines delimiter) (scalar (text_content text.now))
        out.old.items out.new.items) }
{
    if delimiter == b'\t' {
        put_compact(alloc, &Value::String(text), out)
    } else {
        put_escaped(delimiter, text.as_bytes(), out)
    }
}

// Adds the cell of a text: in a line itself, without control characters and delimiters, or else as JSON or with its escapes; in
// CSV itself, in quotes where it needs them.
#[inline(always)]
fn put_text(alloc: Global, rows: Rows, text: &str, out: &mut Vec<u8>) -> Result<(), AllocError>
    ensures { OnOk result
        (PutsShown rows (scalar (text_content text.now)) out.old.items out.new.items) }
{
    match rows {
        Rows::Csv { delimiter } => put_csv(alloc, delimiter, text.as_bytes(), out),
        Rows::Lines { delimiter } if is_plain(delimiter, text.as_bytes()) => {
            out.extend_from_slice(text.as_bytes())
        }
        Rows::Lines { delimiter } => put_rough(alloc, delimiter, text, out),
    }
}

// Adds the cell of a value that is no text, in a line: its JSON, with escapes in the place of delimiters.
fn put_json(
    alloc: Global,
    delimiter: u8,
    value: &Value<'_>,
    out: &mut Vec<u8>,
) -> Result<(), AllocError>
    ensures { OnOk result
        (PutsJson delimiter (value_tree value.now) out.old.items out.new.items) }
{
    if delimiter == b'\t' {
        return put_compact(alloc, value, out);
    }
    let text = compact(alloc, value)?;
    put_escaped(delimiter, text.as_slice(), out)
}

// Adds the cell of a value: that of a text, or JSON.
#[inline(always)]
fn put_value(
    alloc: Global,
    rows: Rows,
    value: &Value<'_>,
    out: &mut Vec<u8>,
) -> Result<(), AllocError>
    ensures { OnOk result (PutsShown rows (value_tree value.now) out.old.items out.new.items) }
{
    if let Value::String(text) = value {
        return put_text(alloc, rows, text, out);
    }
    match rows {
        Rows::Lines { delimiter } => put_json(alloc, delimiter, value, out),
        Rows::Csv { delimiter } => {
            let text = compact(alloc, value)?;
            put_csv(alloc, delimiter, text.as_slice(), out)
        }
    }
}

// Adds the cell of a network whose text is not plain in a line.
#[inline(never)]
fn put_quoted_network(
    alloc: Global,
    delimiter: u8,
    network: IpNetwork,
    out: &mut Vec<u8>,
) -> Result<(), AllocError>
    ensures { OnOk result (PutsShown (Lines delimiter)
        (scalar (text_content (short_text_of network))) out.old.items out.new.items) }
{
    let text: String = format!(in alloc; "{network}")?;
    put_text(alloc, Rows::Lines { delimiter }, text.as_str(), out)
}

// Adds the cell of a network.
fn put_network(
    alloc: Global,
    rows: Rows,
    network: IpNetwork,
    out: &mut Vec<u8>,
) -> Result<(), AllocError>
    ensures { OnOk result (PutsShown rows (scalar (text_content (short_text_of network)))
        out.old.items out.new.items) }
{
    let mut text: Vec<u8> = Vec::new(alloc);
    network.push_text(&mut text)?;
    match rows {
        Rows::Csv { delimiter } => put_csv(alloc, delimiter, text.as_slice(), out),
        Rows::Lines { delimiter } if is_plain(delimiter, text.as_slice()) => {
            out.extend_from_slice(text.as_slice())
        }
        Rows::Lines { delimiter } => put_quoted_network(alloc, delimiter, network, out),
    }
}

/// Adds a delimiter and the cell of a network, an empty one where there is none.
pub(crate) fn put_network_cell(
    alloc: Global,
    rows: Rows,
    network: Option<IpNetwork>,
    out: &mut Vec<u8>,
) -> Result<(), AllocError>
    ensures { OnOk result (PutsFront rows network out.old.items out.new.items) }
{
    out.push(delimiter_of(rows))?;
    match network {
        Some(network) => put_network(alloc, rows, network, out),
        None => Ok(()),
    }
}

// Adds the cell of what was read along a path, and says whether nothing failed.
fn put_read(
    alloc: Global,
    rows: Rows,
    read: &Result<Option<Value<'_>>, MaxMindDbError>,
    out: &mut Vec<u8>,
) -> Result<bool, AllocError>
    ensures { IfOk result (λ addition. (answer : Option (Option Tree)) → IsReadAs answer read.now
        → PutsCell rows answer addition out.old.items out.new.items) }
{
    match read {
        Ok(Some(value)) => {
            put_value(alloc, rows, value, out)?;
            Ok(true)
        }
        Ok(None) => Ok(true),
        Err(MaxMindDbError::Memory) => Err(AllocError),
        Err(_) => Ok(false),
    }
}

// Adds a delimiter and the cell of what is read along a path, and says whether nothing failed.
fn put_cell<A: ReadAlong>(
    alloc: Global,
    rows: Rows,
    found: &A,
    path: &[PathElement<'_>],
    out: &mut Vec<u8>,
) -> Result<bool, AllocError>
    ensures { IfOk result (λ read. PutsNextCell rows (A.reads found.now path.now) read
        out.old.items out.new.items) }
{
    out.push(delimiter_of(rows))?;
    let read = found.read_along(alloc, path);
    put_read(alloc, rows, &read, out)
}

/// Adds a delimiter and a cell for each path, and says whether nothing failed.
pub(crate) fn put_cells<A: ReadAlong>(
    alloc: Global,
    rows: Rows,
    found: &A,
    paths: &[Vec<PathElement<'_>>],
    out: &mut Vec<u8>,
) -> Result<bool, AllocError>
    ensures { IfOk result (λ read. PutsCells rows (A.reads found.now)
        (map (λ path. path.items) paths.now) read out.old.items out.new.items) }
{
    let mut are_read = true;
    for at in 0..paths.len() {
        let is_read = put_cell(alloc, rows, found, paths[at].as_slice(), out)?;
        are_read &= is_read;
    }
    Ok(are_read)
}

/// Adds a delimiter for each path.
#[inline(always)]
pub(crate) fn put_blanks(
    rows: Rows,
    paths: &[Vec<PathElement<'_>>],
    out: &mut Vec<u8>,
) -> Result<(), AllocError>
    ensures { OnOk result (out.new.items
        ≡ out.old.items ++ blanks rows (map (λ path. path.items) paths.now)) }
{
    for _ in paths {
        out.push(delimiter_of(rows))?;
    }
    Ok(())
}
