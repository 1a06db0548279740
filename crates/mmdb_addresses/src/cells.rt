//! The address in a cell.
ghost use Rattle.std.specs.Prelude.{◌≡◌, IfSome};
ghost use Rattle.mmdb_addresses.specs.Addresses.{Finds, IsAddressIn};
ghost use Rattle.mmdb_addresses.specs.Cells.{first_word as spec_first_word, last_hop as spec_last_hop, unquoted as spec_unquoted, without_opening as spec_without_opening, without_closing as spec_without_closing, whole_words as spec_whole_words};
ghost use Rattle.mmdb_addresses.specs.declared.readings.Reading.TheVariants.{First, Last};

use crate::bytes::{AddressKind, end_of, ends_word};
use crate::openings::{Opening, opening_of};
use crate::words::word_address;
use std::net::{IpAddr, Ipv6Addr};

// The first word of a cell: after blanks, up to a blank, a comma or a semicolon.
fn first_word(cell: &[u8]) -> &[u8]
    ensures { result.now ≡ spec_first_word cell.now }
{
    let from = end_of(AddressKind::Blank, cell, 0);
    let end = end_of(AddressKind::InWord, cell, from);
    &cell[from..end]
}

// What is after the last comma, or all.
fn last_hop(cell: &[u8]) -> &[u8]
    ensures { result.now ≡ spec_last_hop cell.now }
{
    let mut at = cell.len();
    while at > 0 && cell[at - 1] != b',' {
        at -= 1;
    }
    &cell[at..]
}

/// A text without the word that its end cuts off.
pub fn whole_words(text: &[u8]) -> &[u8]
    ensures { result.now ≡ spec_whole_words text.now }
{
    let len = text.len();
    for cut in 0..len {
        let at = len - cut;
        if ends_word(text[at - 1]) {
            return &text[..at];
        }
    }
    &text[..0]
}

// A word without a double quote that it begins with.
fn without_opening(word: &[u8]) -> &[u8]
    ensures { result.now ≡ spec_without_opening word.now }
{
    if !word.is_empty() && word[0] == b'"' {
        &word[1..]
    } else {
        word
    }
}

// A word without a double quote that it ends with.
fn without_closing(word: &[u8]) -> &[u8]
    ensures { result.now ≡ spec_without_closing word.now }
{
    let len = word.len();
    if len > 0 && word[len - 1] == b'"' {
        &word[..len - 1]
    } else {
        word
    }
}

// The address of IPv6 that a cell is, or none.
fn whole_cell(cell: &[u8]) -> Option<IpAddr>
    ensures { IfSome result (IsAddressIn First cell.now) }
{
    match Ipv6Addr::parse_ascii(cell) {
        Ok(address) => Some(IpAddr::V6(address)),
        Err(_) => None,
    }
}

// The address of the first word of a cell, however it begins.
#[inline(never)]
fn word_in(cell: &[u8]) -> Option<IpAddr>
    ensures { Finds (IsAddressIn First cell.now) result }
{
    word_address(without_closing(without_opening(first_word(cell))))
}

// The address of the first word of a cell, which is most often an address of IPv6 and all of the cell.
#[inline(never)]
fn cell_or_word(cell: &[u8]) -> Option<IpAddr>
    ensures { Finds (IsAddressIn First cell.now) result }
{
    match whole_cell(cell) {
        Some(address) => Some(address),
        None => word_in(cell),
    }
}

/// The address of the first word of a cell.
#[inline(never)]
pub(crate) fn first_address(cell: &[u8]) -> Option<IpAddr>
    ensures { Finds (IsAddressIn First cell.now) result }
{
    let from = end_of(AddressKind::Blank, cell, 0);
    match opening_of(&cell[from..]) {
        Opening::Other => None,
        Opening::Marked => word_in(cell),
        Opening::FourDigits => cell_or_word(cell),
    }
}

/// The address of the first word after the last comma of a cell.
#[inline(never)]
pub(crate) fn last_address(cell: &[u8]) -> Option<IpAddr>
    ensures { Finds (IsAddressIn Last cell.now) result }
{
    first_address(last_hop(cell))
}
