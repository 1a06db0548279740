//! What databases have for an address, as JSON.
ghost use Rattle.std.specs.Prelude.{◌≡◌, ◌++◌, [], ◌∷◌, is_some, option_map, true, false, Err, IfOk, IfErr, OnOk};
ghost use Rattle.json.specs.Json.{Members, string, member};
ghost use Rattle.json.specs.Tree.{json_tokens, members_tokens};
ghost use Rattle.mmdb_value.specs.Values.{value_tree};
ghost use Rattle.mmdb_cmd_show.specs.Asked.{FindsFirst, OfName};
ghost use Rattle.mmdb_cmd_show.specs.Printed.{ShowsOrNull, object_of, Prints, ShowsValue, HasValue, HasValues, ShowsFields, IsFirstUnread, ShowsValues, IsUnread, HasAnswer, ShowsAnswer, HasDatabase, has_record, HasDatabases, ShowsRecords, Writes, WritesMembers, Begins};

use crate::databases::{ReadError, ShownDatabase, first_value};
use json::{Pretty, Token, Writer};
use mmdb_json::{TokenSink, write_value};
use mmdb_layout::ChosenFields;
use mmdb_reader::{IpNetwork, PathElement};
use mmdb_value::Value;
use std::alloc::{AllocError, Global};
use std::net::IpAddr;

/// The name of an answer's address.
pub(crate) const ADDRESS: &str = "address";

/// What a database has for an address.
#[derive(Drop)]
pub(crate) struct DatabaseAnswer<'d> {
    pub(crate) network: IpNetwork,
    pub(crate) record: Option<Value<'d>>,
}

/// What is shown of values: the value at a path in the first of the databases that has one, or an object with the address and
/// such values.
#[derive(Clone, Copy)]
pub(crate) enum Shown<'f, 'p> {
    Value(&'f [PathElement<'p>]),
    Values(&'f ChosenFields<'p>),
}

/// An address, the databases that are asked for it, and what is shown of their values.
#[derive(Clone, Copy)]
pub(crate) struct AddressValues<'f, 'd, 'p> {
    pub(crate) alloc: Global,
    pub(crate) address: IpAddr,
    pub(crate) databases: &'f [ShownDatabase<'d>],
    pub(crate) shown: Shown<'f, 'p>,
}

// The tokens of a key and of a text.
fn write_text<W: TokenSink>(key: &str, text: &str, out: &mut W) -> Result<(), AllocError>
    ensures text { OnOk result (Begins (λ others members. members
        ≡ member key.now (string text.now) others) (W.tokens out.old) (W.tokens out.new)) }
    ensures front { W.front out.new ≡ W.front out.old }
{
    out.token(Token::Key(key))?;
    out.token(Token::String(text))
}

// The tokens of an object up to its second member: those of the address.
fn begin_answer<W: TokenSink>(alloc: Global, address: IpAddr, out: &mut W) -> Result<(), AllocError>
    ensures begun { OnOk result ((members : Members) → W.tokens out.new ++ members_tokens members
        ≡ W.tokens out.old ++ json_tokens (object_of address members)) }
    ensures front { W.front out.new ≡ W.front out.old }
{
    let text = address.to_string(alloc)?;
    out.token(Token::BeginObject)?;
    write_text(ADDRESS, text.as_str(), out)
}

// The tokens of a value, or of null, and whether there is a value.
fn write_or_null<W: TokenSink>(
    alloc: Global,
    value: &Option<Value<'_>>,
    out: &mut W,
) -> Result<bool, AllocError>
    ensures shown { IfOk result (λ _. Writes (ShowsOrNull (option_map value_tree value.now))
        (W.tokens out.old) (W.tokens out.new)) }
    ensures is_found { IfOk result (λ is_found. is_found ≡ is_some value.now) }
    ensures front { W.front out.new ≡ W.front out.old }
{
    match value {
        Some(value) => {
            write_value(alloc, value, out)?;
            Ok(true)
        }
        None => {
            out.token(Token::Null)?;
            Ok(false)
        }
    }
}

// The tokens of the network and the record that a database has, and whether there is a record.
fn write_members<W: TokenSink>(
    alloc: Global,
    answer: &DatabaseAnswer<'_>,
    out: &mut W,
) -> Result<bool, AllocError>
    ensures members { IfOk result (λ _. Begins (HasAnswer answer.now)
        (W.tokens out.old) (W.tokens out.new)) }
    ensures has_record { IfOk result (λ has_record. has_record ≡ is_some answer.now.record) }
    ensures front { W.front out.new ≡ W.front out.old }
{
    let network = answer.network.to_string(alloc)?;
    write_text("network", network.as_str(), out)?;
    out.token(Token::Key("record"))?;
    write_or_null(alloc, &answer.record, out)
}

// The tokens of what one of several databases has, or of null, and whether there is a record.
fn write_database<W: TokenSink>(
    alloc: Global,
    answer: &Option<DatabaseAnswer<'_>>,
    out: &mut W,
) -> Result<bool, AllocError>
    ensures shown { IfOk result (λ _. Writes (ShowsAnswer answer.now)
        (W.tokens out.old) (W.tokens out.new)) }
    ensures has_record { IfOk result (λ has_one. has_one ≡ has_record answer.now) }
    ensures front { W.front out.new ≡ W.front out.old }
{
    match answer {
        Some(answer) => {
            out.token(Token::BeginObject)?;
            let has_record = write_members(alloc, answer, out)?;
            out.token(Token::EndObject)?;
            Ok(has_record)
        }
        None => {
            out.token(Token::Null)?;
            Ok(false)
        }
    }
}

// Adds a text and a newline.
fn put_lines(text: Vec<u8>, out: &mut Vec<u8>) -> Result<(), AllocError>
    ensures { OnOk result (out.new.items ≡ out.old.items ++ (text.items ++ 10 ∷ [])) }
{
    out.extend_from_slice(text.as_slice())?;
    out.extend_from_slice(b"\n")
}

/// What databases have for an address, each its answer, or none where it has none.
#[derive(Clone, Copy)]
pub(crate) struct AddressRecords<'d, 'f, 'v> {
    pub(crate) alloc: Global,
    pub(crate) address: IpAddr,
    pub(crate) databases: &'d [ShownDatabase<'d>],
    pub(crate) answers: &'f [Option<DatabaseAnswer<'v>>],
    /// Whether each stands under the name of its database.
    pub(crate) are_named: bool,
}

impl AddressRecords<'_, '_, '_> {
    // The tokens of what one of the databases has, and whether there is a record.
    fn write_answer<W: TokenSink>(
        &self,
        shown: &ShownDatabase<'_>,
        answer: &Option<DatabaseAnswer<'_>>,
        out: &mut W,
    ) -> Result<bool, AllocError>
        ensures members { IfOk result (λ _. Begins
            (HasDatabase self.now.are_named shown.now answer.now)
            (W.tokens out.old) (W.tokens out.new)) }
        ensures has_record { IfOk result (λ has_one. has_one ≡ has_record answer.now) }
        ensures front { W.front out.new ≡ W.front out.old }
    {
        if self.are_named {
            out.token(Token::Key(shown.key))?;
            return write_database(self.alloc, answer, out);
        }
        match answer {
            Some(answer) => write_members(self.alloc, answer, out),
            None => Ok(false),
        }
    }

    // The tokens of what the databases have, each under its name, or else those of the one, and whether there is a record.
    fn write_answers<W: TokenSink>(&self, out: &mut W) -> Result<bool, AllocError>
        ensures members { IfOk result (λ has_one. WritesMembers (λ members.
            HasDatabases self.now.are_named self.now.databases.now self.now.answers.now
            members has_one) (W.tokens out.old) (W.tokens out.new)) }
        ensures front { W.front out.new ≡ W.front out.old }
    {
        let mut has_record = false;
        for (shown, answer) in self.databases.iter().zip(self.answers) {
            has_record |= self.write_answer(shown, answer, out)?;
        }
        Ok(has_record)
    }

    // The tokens of the address and what the databases have for it, and whether there is a record.
    fn write<W: TokenSink>(&self, out: &mut W) -> Result<bool, AllocError>
        ensures shown { IfOk result (λ has_one. Writes (ShowsRecords self.now has_one)
            (W.tokens out.old) (W.tokens out.new)) }
        ensures front { W.front out.new ≡ W.front out.old }
    {
        begin_answer(self.alloc, self.address, out)?;
        let has_record = self.write_answers(out)?;
        out.token(Token::EndObject)?;
        Ok(has_record)
    }

    // Adds it in one line.
    fn put_line(&self, out: &mut Vec<u8>) -> Result<bool, AllocError>
        ensures { IfOk result (λ has_one. Prints true (ShowsRecords self.now has_one)
            out.old.items out.new.items) }
    {
        let mut writer = Writer::new(Vec::new(self.alloc));
        let has_record = self.write(&mut writer)?;
        put_lines(writer.into_inner(), out)?;
        Ok(has_record)
    }

    // Adds it laid out over several lines.
    fn put_pretty(&self, out: &mut Vec<u8>) -> Result<bool, AllocError>
        ensures { IfOk result (λ has_one. Prints false (ShowsRecords self.now has_one)
            out.old.items out.new.items) }
    {
        let mut writer = Pretty::new(self.alloc);
        let has_record = self.write(&mut writer)?;
        put_lines(writer.into_inner(), out)?;
        Ok(has_record)
    }

    /// Adds an object with the address, and its network and its record, or those in each of several databases under their names,
    /// or null where there is no answer: in a line, or else laid out over several. Answers whether there is a record.
    pub(crate) fn put(&self, lines: bool, out: &mut Vec<u8>) -> Result<bool, AllocError>
        ensures { IfOk result (λ has_one. Prints lines (ShowsRecords self.now has_one)
            out.old.items out.new.items) }
    {
        if lines {
            self.put_line(out)
        } else {
            self.put_pretty(out)
        }
    }
}

impl<'d> AddressValues<'_, 'd, '_> {
    // The tokens of a value, and whether there is one.
    fn write_value<W: TokenSink>(
        &self,
        path: &[PathElement<'_>],
        out: &mut W,
    ) -> Result<bool, ReadError<'d>>
        ensures shown { IfOk result (λ is_found. Writes
            (ShowsValue self.now.databases.now self.now.address path.now is_found)
            (W.tokens out.old) (W.tokens out.new)) }
        ensures front { W.front out.new ≡ W.front out.old }
        ensures unread { IfErr result (λ e. OfName e (λ name.
            FindsFirst self.now.databases.now self.now.address path.now (Err name))) }
    {
        let value = first_value(self.alloc, self.databases, self.address, path)?;
        Ok(write_or_null(self.alloc, &value, out)?)
    }

    // The tokens of a named value, and whether there is one.
    fn write_member<W: TokenSink>(
        &self,
        name: &str,
        path: &[PathElement<'_>],
        out: &mut W,
    ) -> Result<bool, ReadError<'d>>
        ensures member { IfOk result (λ is_found. Begins
            (HasValue self.now.databases.now self.now.address name.now path.now is_found)
            (W.tokens out.old) (W.tokens out.new)) }
        ensures front { W.front out.new ≡ W.front out.old }
        ensures unread { IfErr result (λ e. OfName e (λ name.
            FindsFirst self.now.databases.now self.now.address path.now (Err name))) }
    {
        out.token(Token::Key(name))?;
        self.write_value(path, out)
    }

    // The tokens of named values, and whether none is missing.
    fn write_members<W: TokenSink>(
        &self,
        fields: &ChosenFields<'_>,
        out: &mut W,
    ) -> Result<bool, ReadError<'d>>
        ensures members { IfOk result (λ are_found. WritesMembers (λ members.
            HasValues self.now.databases.now self.now.address fields.now.names.items
            fields.now.paths.items members are_found) (W.tokens out.old) (W.tokens out.new)) }
        ensures front { W.front out.new ≡ W.front out.old }
        ensures unread { IfErr result (λ e. OfName e (IsFirstUnread self.now.databases.now
            self.now.address fields.now.paths.items)) }
    {
        let mut are_found = true;
        for (name, path) in fields.names.iter().zip(&fields.paths) {
            are_found &= self.write_member(*name, path.as_slice(), out)?;
        }
        Ok(are_found)
    }

    // The tokens of the address and values, and whether none is missing.
    fn write_values<W: TokenSink>(
        &self,
        fields: &ChosenFields<'_>,
        out: &mut W,
    ) -> Result<bool, ReadError<'d>>
        ensures shown { IfOk result (λ are_found. Writes (ShowsFields
            self.now.databases.now self.now.address fields.now are_found)
            (W.tokens out.old) (W.tokens out.new)) }
        ensures front { W.front out.new ≡ W.front out.old }
        ensures unread { IfErr result (λ e. OfName e (IsFirstUnread self.now.databases.now
            self.now.address fields.now.paths.items)) }
    {
        begin_answer(self.alloc, self.address, out)?;
        let are_found = self.write_members(fields, out)?;
        out.token(Token::EndObject)?;
        Ok(are_found)
    }

    // The tokens of what is shown, and whether nothing is missing.
    fn write<W: TokenSink>(&self, out: &mut W) -> Result<bool, ReadError<'d>>
        ensures shown { IfOk result (λ is_found. Writes (ShowsValues self.now is_found)
            (W.tokens out.old) (W.tokens out.new)) }
        ensures front { W.front out.new ≡ W.front out.old }
        ensures unread { IfErr result (λ e. OfName e (IsUnread self.now)) }
    {
        match self.shown {
            Shown::Value(path) => self.write_value(path, out),
            Shown::Values(fields) => self.write_values(fields, out),
        }
    }

    // Adds it in one line.
    fn put_line(&self, out: &mut Vec<u8>) -> Result<bool, ReadError<'d>>
        ensures printed { IfOk result (λ is_found. Prints true (ShowsValues self.now is_found)
            out.old.items out.new.items) }
        ensures unread { IfErr result (λ e. OfName e (IsUnread self.now)) }
    {
        let mut writer = Writer::new(Vec::new(self.alloc));
        let is_found = self.write(&mut writer)?;
        put_lines(writer.into_inner(), out)?;
        Ok(is_found)
    }

    // Adds it laid out over several lines.
    fn put_pretty(&self, out: &mut Vec<u8>) -> Result<bool, ReadError<'d>>
        ensures printed { IfOk result (λ is_found. Prints false (ShowsValues self.now is_found)
            out.old.items out.new.items) }
        ensures unread { IfErr result (λ e. OfName e (IsUnread self.now)) }
    {
        let mut writer = Pretty::new(self.alloc);
        let is_found = self.write(&mut writer)?;
        put_lines(writer.into_inner(), out)?;
        Ok(is_found)
    }

    /// Adds it in a line, or else laid out over several, and answers whether nothing is missing. Fails where one of the values
    /// can't be read, with the name of the database.
    pub(crate) fn put(&self, lines: bool, out: &mut Vec<u8>) -> Result<bool, ReadError<'d>>
        ensures printed { IfOk result (λ is_found. Prints lines (ShowsValues self.now is_found)
            out.old.items out.new.items) }
        ensures unread { IfErr result (λ e. OfName e (IsUnread self.now)) }
    {
        if lines {
            self.put_line(out)
        } else {
            self.put_pretty(out)
        }
    }
}
