//! Cells after rows.
ghost use Rattle.std.specs.Prelude.{◌≡◌, ◌++◌, None, OnOk, map};
ghost use Rattle.mmdb_addresses.specs.Addresses.{ReadsAddress};
ghost use Rattle.mmdb_addresses.specs.Rows.{FindsFirst, FindsLast};
ghost use Rattle.mmdb_cmd_enrich.specs.Ahead.{IsAhead, IsNumbered, address_of_row, ahead_of, number_of_row};
ghost use Rattle.mmdb_cmd_enrich.specs.Asked.{ReadsRow, cell_read};
ghost use Rattle.mmdb_cmd_enrich.specs.Networks.{all_blanks};

use crate::ahead::{Ahead, RowAddress, row_address};
use crate::cells::{put_blanks, put_cells, put_network_cell};
use crate::columns::delimiter_of;
use crate::found::{FoundRecords, ReadRecords, note_field};
use crate::notes::Notes;
use crate::padding::put_missing;
use crate::parts::part_of;
use crate::place::{ReadRow, RowPlace};
use crate::template::Template;
use mmdb_addresses::{Reading, address_anywhere, last_address_anywhere};
use mmdb_filter::{MOST_SEEN, Outcome, Rows};
use mmdb_net::IpNetwork;
use mmdb_reader::PathElement;
use std::alloc::{AllocError, Global};
use std::net::{IpAddr, Ipv6Addr};

/// Fields as columns after each row, and before them, where it is wanted, the network of the address.
#[derive(Drop)]
pub struct RowCells<'f> {
    /// What is enriched: lines or rows of CSV.
    pub rows: Rows,
    /// Where in a cell the address is, or that it is anywhere in a row.
    pub reading: Reading,
    /// The column of the address, from 0.
    pub column: usize,
    /// How many delimiters the first row has, where it names the columns.
    pub breaks: Option<usize>,
    /// Whether the network of the address comes before the fields: the smallest in which a database has it.
    pub network: bool,
    /// The paths of the fields.
    pub paths: Vec<Vec<PathElement<'f>>>,
}

// The first address anywhere in a row.
#[inline(always)]
fn address_in_row(text: &[u8], is_long: bool, long: &mut Ipv6Addr) -> RowAddress
    ensures spelled { FindsFirst text.now is_long (address_of_row result long.new) }
    ensures number { number_of_row result ≡ None }
{
    row_address(address_anywhere(text, is_long), long)
}

// The last address anywhere in a row.
#[inline(always)]
fn last_address_in_row(text: &[u8], is_long: bool, long: &mut Ipv6Addr) -> RowAddress
    ensures spelled { FindsLast text.now is_long (address_of_row result long.new) }
    ensures number { number_of_row result ≡ None }
{
    row_address(last_address_anywhere(text, is_long), long)
}

impl<'f> RowCells<'f> {
    // The address in the cell of the column.
    #[inline(always)]
    fn address_in_cell(
        &self,
        text: &[u8],
        is_long: bool,
        ahead: &mut Ahead,
        long: &mut Ipv6Addr,
    ) -> RowAddress
        requires { IsAhead self.now.reading ahead.old }
        ensures spelled { ReadsAddress self.now.reading
            (cell_read self.now.rows self.now.reading self.now.column text.now is_long)
            (address_of_row result long.new) }
        ensures number { IsNumbered (ahead_of ahead.old) result }
        ensures is { IsAhead self.now.reading ahead.new }
        ensures same { ahead_of ahead.new ≡ ahead_of ahead.old }
    {
        let is_kept = ahead.has_next();
        match part_of(self.rows, self.reading, text, is_long, self.column, is_kept) {
            Some(cell) => ahead.read(self.reading, cell, long),
            None => RowAddress::Nothing,
        }
    }

    // The address in a row. One of IPv6 is put into `long`.
    #[inline(always)]
    fn address_in(
        &self,
        text: &[u8],
        is_long: bool,
        ahead: &mut Ahead,
        long: &mut Ipv6Addr,
    ) -> RowAddress
        requires { IsAhead self.now.reading ahead.old }
        ensures spelled { ReadsRow self.now.rows self.now.reading self.now.column text.now is_long
            (address_of_row result long.new) }
        ensures number { IsNumbered (ahead_of ahead.old) result }
        ensures is { IsAhead self.now.reading ahead.new }
        ensures same { ahead_of ahead.new ≡ ahead_of ahead.old }
    {
        match self.reading {
            Reading::Anywhere => address_in_row(text, is_long, long),
            Reading::LastAnywhere => last_address_in_row(text, is_long, long),
            _ => self.address_in_cell(text, is_long, ahead, long),
        }
    }

    // Adds empty cells, one for the network too. They are few, so they are put one by one.
    #[inline(always)]
    fn put_all_blanks(&self, out: &mut Vec<u8>) -> Result<(), AllocError>
        ensures { OnOk result (out.new.items ≡ out.old.items
            ++ all_blanks self.now.network self.now.rows
            (map (λ path. path.items) self.now.paths.items)) }
    {
        if self.network {
            out.push(delimiter_of(self.rows))?;
        }
        put_blanks(self.rows, self.paths.as_slice(), out)
    }
}

impl<'f> Template for RowCells<'f> {
    ghost use Rattle.std.specs.Prelude.{false};
    ghost use Rattle.mmdb_cmd_enrich.specs.Template.{cells, is_empty_row};

    type Scratch = Ahead;

    ghost ahead = { ahead_of };

    ghost fits = { λ w ahead. IsAhead w.reading ahead };

    ghost reads = { λ w ahead text goes_on place. (place.behind ≡ 0)
        × (place.has_comma ≡ false) × (place.is_empty ≡ is_empty_row text) };

    ghost template = { λ w. cells w.rows w.reading w.column w.breaks w.network
        (map (λ path. path.items) w.paths.items) };

    #[inline(always)]
    fn most_seen(&self) -> usize {
        MOST_SEEN
    }

    fn new_scratch(&self, _alloc: Global) -> Ahead {
        Ahead::new()
    }

    fn look(&self, ahead: &mut Ahead, bytes: &[u8]) {
        ahead.look(self.rows, self.reading, self.column, bytes);
    }

    fn addresses<'s>(&self, ahead: &'s Ahead) -> &'s [IpAddr] {
        ahead.addresses()
    }

    #[inline(always)]
    fn read(
        &self,
        _alloc: Global,
        _ahead: &mut Ahead,
        text: &[u8],
        _is_long: bool,
    ) -> Result<ReadRow, AllocError> {
        Ok(ReadRow::Place(RowPlace {
            behind: 0,
            has_comma: false,
            is_empty: text.is_empty(),
        }))
    }

    #[inline(always)]
    fn address(
        &self,
        ahead: &mut Ahead,
        text: &[u8],
        is_long: bool,
        _place: &RowPlace,
        long: &mut Ipv6Addr,
    ) -> RowAddress {
        self.address_in(text, is_long, ahead, long)
    }

    #[inline(always)]
    fn put_lead(
        &self,
        text: &[u8],
        is_long: bool,
        notes: &mut Notes,
        out: &mut Vec<u8>,
    ) -> Result<(), AllocError> {
        put_missing(self.rows, self.breaks, text, is_long, notes, out)
    }

    #[inline(always)]
    fn shows_network(&self) -> bool {
        self.network
    }

    #[inline(always)]
    fn is_kept(&self) -> bool {
        true
    }

    fn put_front(
        &self,
        alloc: Global,
        network: Option<IpNetwork>,
        out: &mut Vec<u8>,
    ) -> Result<(), AllocError> {
        if self.network {
            put_network_cell(alloc, self.rows, network, out)
        } else {
            Ok(())
        }
    }

    #[inline(always)]
    fn put_text<A: ReadRecords>(
        &self,
        alloc: Global,
        found: &A,
        _network: Option<IpNetwork>,
        text: &mut Vec<u8>,
    ) -> Result<Outcome, AllocError> {
        if put_cells(alloc, self.rows, found, self.paths.as_slice(), text)? {
            Ok(Outcome::Found)
        } else {
            Ok(Outcome::Failed)
        }
    }

    fn none_text(&self, alloc: Global) -> Result<Vec<u8>, AllocError> {
        let mut text = Vec::new(alloc);
        put_blanks(self.rows, self.paths.as_slice(), &mut text)?;
        Ok(text)
    }

    fn put_rejected(&self, _none: &[u8], out: &mut Vec<u8>) -> Result<(), AllocError> {
        self.put_all_blanks(out)
    }

    #[inline(always)]
    fn put_unread(
        &self,
        place: RowPlace,
        _none: &[u8],
        out: &mut Vec<u8>,
    ) -> Result<(), AllocError> {
        if place.is_empty {
            return Ok(());
        }
        self.put_all_blanks(out)
    }

    fn count(&self) -> usize {
        self.paths.len()
    }

    fn note<A: FoundRecords>(&self, alloc: Global, found: &A, are_read: bool, notes: &mut Notes) {
        for at in 0..self.paths.len() {
            let path = self.paths[at].as_slice();
            note_field(alloc, found, at, path, are_read, notes);
        }
    }
}
