//! The writer.
ghost use Rattle.std.specs.Prelude.{◌≡◌, [], IfOk, IfErr, OnOk, OnErr};
ghost use Rattle.mmdb_value.specs.Values.{value_tree};
ghost use Rattle.mmdb_writer.specs.declared.options.OptionsError.{OptionsError};
ghost use Rattle.mmdb_writer.specs.Errors.{IsErrorOf, IsWrongOption, IsGeneral, IsOfOptions, IsOfValue, IsOfRow};
ghost use Rattle.mmdb_writer.specs.Limits.{CanBeRead};
ghost use Rattle.mmdb_writer.specs.Making.{IsMadeOf, AddsValue, AddsRow, Stays, IsErrorAfterValue, IsErrorAfterRow, IsErrorAfter, Writes, HasFullSection, DoesNotFitAfter, IsNotMeantAfter, IsTooLarge};
ghost use Rattle.mmdb_writer.specs.Written.{IsWritten};

use crate::entries::entry_of;
use crate::error::WriteError;
use crate::keys::has_keys_once;
use crate::layout::lay_out;
use crate::limits::{ValueError, check_value};
use crate::options::Options;
use crate::row::Row;
use crate::values::put_value;
use crate::write::write_file;
use mmdb_nodes::NodeEntry;
use mmdb_section::Section;
use mmdb_value::Value;
use std::alloc::Global;

/// A file in the making. Of a value only its bytes in the file are kept, and where they are found, and 32 bytes for each row.
#[derive(Drop)]
pub struct Writer {
    options: Options,
    section: Section,
    /// Where the values begin.
    offsets: Vec<u32>,
    /// The entries of the rows.
    entries: Vec<NodeEntry>,
}

impl Writer {
    /// A file without values and rows. Metadata without a type or a description, or later than a signed number of seconds can
    /// hold, are rejected.
    pub fn new(alloc: Global, options: Options) -> Result<Writer, WriteError>
        ensures made { IfOk result (IsMadeOf [] [] options) }
        ensures explained { IfErr result (IsErrorOf [] [] options) }
        ensures accepted { OnOk result ((e : OptionsError) → ¬ IsWrongOption options e) }
        ensures no_other { IfErr result IsOfOptions }
    {
        options.check()?;
        Ok(Writer {
            options,
            section: Section::new(alloc),
            offsets: Vec::new(alloc),
            entries: Vec::new(alloc),
        })
    }

    /// Adds a value, and answers its index: how many were added before. One that no reading gives back is rejected. Else it fails
    /// for memory, and as `TooLarge` where the data section has 2^32 bytes already, after which no pointer can lead to a value: a
    /// value within the limits of readings is itself never too large. After an error the file has the values and rows that it had.
    pub fn add_value(&mut self, alloc: Global, value: &Value<'_>) -> Result<usize, WriteError>
        ensures added { IfOk result (AddsValue value.now self.old self.new) }
        ensures explained { IfErr result (IsErrorAfterValue value.now self.old) }
        ensures no_other { IfErr result IsOfValue }
        ensures readable { IfErr result (λ e. e ≡ WriteError.TooLarge
            → CanBeRead (value_tree value.now)) }
        ensures too_large { IfErr result (λ e. e ≡ WriteError.TooLarge
            → HasFullSection self.new) }
        ensures kept { OnErr result (Stays self.old self.new) }
    {
        let index = self.offsets.len();
        if let Err(error) = check_value(value) {
            return Err(WriteError::Value { index, error });
        }
        if !has_keys_once(alloc, value)? {
            let error = ValueError::KeyTwice;
            return Err(WriteError::Value { index, error });
        }
        let offset = put_value(alloc, &mut self.section, value)?;
        self.offsets.push(offset)?;
        Ok(index)
    }

    /// Adds a row. One whose network is of IPv6 in a database of IPv4 is rejected, and one whose value is not among those added so
    /// far. Else it fails for memory. After an error the file has the values and
    /// rows that it had.
    pub fn add_row(&mut self, row: Row) -> Result<(), WriteError>
        ensures added { OnOk result (AddsRow row self.old self.new) }
        ensures explained { IfErr result (IsErrorAfterRow row self.old) }
        ensures no_other { IfErr result IsOfRow }
        ensures kept { OnErr result (Stays self.old self.new) }
    {
        match entry_of(self.options.ip_version, &self.offsets, row) {
            Ok(entry) => Ok(self.entries.push(entry)?),
            Err(error) => Err(WriteError::Row {
                index: self.entries.len(),
                error,
            }),
        }
    }

    /// The bytes of the file, in which each address has the value of the row with the longest prefix that has it, of equal ones
    /// that of the last, whatever the order of the others; where no row has it, or that one has no value, it has none.
    ///
    /// On `Ok` a reader opens the file, with the metadata that the options ask for, and records of the size that was asked for or
    /// of the least that serves; `verify` accepts it; and each lookup that may be asked succeeds and finds what the rows say, which
    /// `decode::<Value>` gives back. A list of all networks has exactly the largest blocks that have one value, save that all
    /// addresses are two of them. Equal values are written once, and a part of one other value alone in that value. The file is read
    /// back before it is handed out: what is not proved of it is tested then.
    ///
    /// It fails for memory; as `TooLarge`, where nodes, the 16 bytes of the separator and the bytes of the values are together more
    /// than the numbers of a record (2^32, or 2 to the power of the bits that were asked for), or a text of the metadata is longer,
    /// or a list of them has more texts, than 16,843,036; and as `NotAsMeant`, where the file is not read back as it was meant, as
    /// with metadata that pass a reader's limits.
    pub fn write(self, alloc: Global) -> Result<Vec<u8>, WriteError>
        ensures written { IfOk result (λ file. Writes self file.items) }
        ensures explained { IfErr result (IsErrorAfter self) }
        ensures no_other { IfErr result IsGeneral }
        ensures too_large { IfErr result (λ e. e ≡ WriteError.TooLarge → DoesNotFitAfter self) }
        ensures not_meant { IfErr result (λ e. e ≡ WriteError.NotAsMeant → IsNotMeantAfter self) }
    {
        let Writer {
            options,
            section,
            offsets,
            mut entries,
        } = self;
        let bytes = lay_out(alloc, section, &offsets, &mut entries)?;
        write_file(alloc, &options, &bytes, &mut entries)
    }
}

/// Writes a file of values and rows at hand: what a `Writer` writes, to which they are added in order.
pub fn write_database(
    alloc: Global,
    values: &[Value<'_>],
    rows: &[Row],
    options: Options,
) -> Result<Vec<u8>, WriteError>
    ensures written { IfOk result (λ file. IsWritten values.now rows.now options file.items) }
    ensures explained { IfErr result (IsErrorOf values.now rows.now options) }
    ensures too_large { IfErr result (λ e. e ≡ WriteError.TooLarge
        → IsTooLarge values.now rows.now options) }
{
    let mut writer = Writer::new(alloc, options)?;
    for value in values {
        writer.add_value(alloc, value)?;
    }
    for row in rows {
        writer.add_row(*row)?;
    }
    writer.write(alloc)
}
