//! Cells of CSV.
ghost use Rattle.std.specs.Prelude.{◌≡◌, ◌++◌, OnOk};
ghost use Rattle.mmdb_filter.specs.Cells.{is_special as spec_is_special, doubled, csv_cell};

use std::alloc::AllocError;

// Whether a cell is to be quoted: it has the delimiter, a quote or a line break.
#[tactic(auto, unfolding(crate::specs::Cells::is_special))]
fn is_special(delimiter: u8, value: &[u8]) -> bool
    ensures { result ≡ spec_is_special delimiter value.now }
{
    for at in 0..value.len() {
        let byte = value[at];
        if byte == delimiter || byte == b'"' || byte == b'\n' || byte == b'\r' {
            return true;
        }
    }
    false
}

// Adds the bytes, each quote twice.
#[tactic(auto, unfolding(crate::specs::Cells::doubled))]
fn put_doubled(value: &[u8], out: &mut Vec<u8>) -> Result<(), AllocError>
    ensures { OnOk result (out.new.items ≡ out.old.items ++ doubled value.now) }
{
    for at in 0..value.len() {
        if value[at] == b'"' {
            out.push(b'"')?;
        }
        out.push(value[at])?;
    }
    Ok(())
}

/// Adds a cell, in quotes where it needs them.
pub fn put_csv_cell(delimiter: u8, value: &[u8], out: &mut Vec<u8>) -> Result<(), AllocError>
    ensures { OnOk result (out.new.items ≡ out.old.items ++ csv_cell delimiter value.now) }
{
    if !is_special(delimiter, value) {
        return out.extend_from_slice(value);
    }
    out.push(b'"')?;
    put_doubled(value, out)?;
    out.push(b'"')?;
    Ok(())
}
