//! Lines of JSON.
use crate::columns::Columns;
use crate::entry::{RowAddresses, RowEntry, Values};
use crate::error::{InputError, Reason, named, named_text};
use crate::known::KnownTexts;
use crate::networks::{address_of, network_of};
use crate::plan::{MOST_COLUMNS, NamedPath, Plan, add_assembled, column_path, plan_of};
use crate::range::AddressRange;
use crate::types::Types;
use crate::values::value_of;
use bumpalo::Bump;
use json::Scratch;
use memchr::memchr;
use mmdb_reader::PathElement;
use mmdb_value::Value;
use std::alloc::{AllocError, Global};
use std::net::IpAddr;

/// The member that has a range in place of a network.
pub const RANGE: &str = "range";

/// The member that has the whole record.
pub const RECORD: &str = "record";

// The name of the member that has the network, in quotes, where it needs no escapes.
fn quoted_name(alloc: Global, columns: Columns<'_>) -> Result<Option<Vec<u8>>, AllocError> {
    let Columns::Network(name) = columns else {
        return Ok(None);
    };
    if name
        .chars()
        .any(|c| c.is_control() || c == '"' || c == '\\')
    {
        return Ok(None);
    }
    let quoted: String = format!(in alloc; "\"{name}\"")?;
    Ok(Some(quoted.into_bytes()))
}

// What comes behind a text, where a line goes on with it after blanks of JSON.
fn behind<'l>(line: &'l [u8], text: &[u8]) -> Option<&'l [u8]> {
    let blanks = line
        .iter()
        .take_while(|byte| matches!(**byte, b' ' | b'\t' | b'\r' | b'\n'))
        .count();
    line.get(blanks..)?.strip_prefix(text)
}

// What comes behind the quote with which the network of a line begins, where that is its first member.
fn behind_front<'l>(line: &'l [u8], quoted_name: &[u8]) -> Option<&'l [u8]> {
    let name = behind(behind(line, b"{")?, quoted_name)?;
    behind(behind(name, b":")?, b"\"")
}

// The text of a member.
fn text_of<'a>(alloc: Global, name: &str, shown: &json::Value<'a>) -> Result<&'a str, InputError> {
    match shown {
        json::Value::String(text) => Ok(*text),
        _ => Err(InputError::at(alloc, name, Reason::NotANetwork)),
    }
}

// The network of a member.
fn network_in(
    alloc: Global,
    name: &str,
    shown: &json::Value<'_>,
) -> Result<RowAddresses, InputError> {
    let text = text_of(alloc, name, shown)?;
    Ok(RowAddresses::Network(named_text(alloc, name, text, network_of(text))?))
}

// The range from one address to another.
fn range_between(alloc: Global, first: &str, last: &str) -> Result<RowAddresses, InputError> {
    let from = named_text(alloc, RANGE, first, address_of(first))?;
    let to = named_text(alloc, RANGE, last, address_of(last))?;
    let range = named(alloc, RANGE, AddressRange::new(from, to))?;
    Ok(RowAddresses::Range(range))
}

// The range of a member that is an array of two addresses.
fn range_in(alloc: Global, shown: &json::Value<'_>) -> Result<RowAddresses, InputError> {
    match (shown.at(0), shown.at(1), shown.at(2)) {
        (Some(json::Value::String(first)), Some(json::Value::String(last)), None) => {
            range_between(alloc, *first, *last)
        }
        _ => Err(InputError::at(alloc, RANGE, Reason::NotARange)),
    }
}

// The address that a member is.
fn address_in(alloc: Global, name: &str, shown: &json::Value<'_>) -> Result<IpAddr, InputError> {
    match shown {
        json::Value::String(text) => named_text(alloc, name, *text, address_of(*text)),
        _ => Err(InputError::at(alloc, name, Reason::NotAnAddress)),
    }
}

// The range from the address of one member to that of another.
fn range_of_two(
    alloc: Global,
    first: &str,
    last: &str,
    object: &json::Value<'_>,
) -> Result<RowAddresses, InputError> {
    let (Some(from), Some(to)) = (object.get(first), object.get(last)) else {
        return Err(InputError::from(Reason::NoNetwork));
    };
    let from = address_in(alloc, first, from)?;
    let to = address_in(alloc, last, to)?;
    let range = named(alloc, first, AddressRange::new(from, to))?;
    Ok(RowAddresses::Range(range))
}

// The addresses that an object is of.
fn place_in(
    alloc: Global,
    columns: Columns<'_>,
    object: &json::Value<'_>,
) -> Result<RowAddresses, InputError> {
    match columns {
        Columns::Network(name) => match (object.get(name), object.get(RANGE)) {
            (Some(network), None) => network_in(alloc, name, network),
            (None, Some(range)) => range_in(alloc, range),
            (Some(_), Some(_)) => Err(InputError::from(Reason::SeveralNetworks)),
            (None, None) => Err(InputError::from(Reason::NoNetwork)),
        },
        Columns::Range(first, last) => range_of_two(alloc, first, last, object),
    }
}

// Whether a member of this name says which addresses an object is of.
fn is_place(columns: Columns<'_>, name: &str) -> bool {
    match columns {
        Columns::Network(network) => name == network || name == RANGE,
        Columns::Range(first, last) => name == first || name == last,
    }
}

// The members that are neither of the addresses nor the record.
fn others_in<'m, 'a>(
    alloc: Global,
    columns: Columns<'_>,
    members: &'m [(&'a str, json::Value<'a>)],
) -> Result<Vec<(&'a str, &'m json::Value<'a>)>, InputError> {
    let mut others = Vec::new(alloc);
    for member in members {
        if !is_place(columns, member.0) && member.0 != RECORD {
            if others.len() >= MOST_COLUMNS {
                return Err(InputError::from(Reason::TooManyColumns));
            }
            others.push((member.0, &member.1))?;
        }
    }
    Ok(others)
}

// The paths that the names of members spell.
fn paths_in<'a>(
    alloc: Global,
    others: &[(&'a str, &json::Value<'a>)],
) -> Result<Vec<NamedPath<'a>>, InputError> {
    let mut paths = Vec::new(alloc);
    for other in others {
        paths.push(column_path(alloc, other.0)?)?;
    }
    Ok(paths)
}

// The value of a member at a path, or none where it is null.
fn value_at<'a>(
    alloc: Global,
    shown: &json::Value<'a>,
    types: &Types,
    path: &[PathElement<'_>],
    arena: &'a Bump,
) -> Result<Option<Value<'a>>, InputError> {
    let node = types.find(path);
    types.meet(node);
    match shown {
        json::Value::Null => Ok(None),
        _ => Ok(Some(value_of(alloc, shown, types, node, arena)?)),
    }
}

// The values of members at paths.
fn values_in<'a>(
    alloc: Global,
    others: &[(&'a str, &json::Value<'a>)],
    paths: &[NamedPath<'_>],
    types: &Types,
    arena: &'a Bump,
) -> Result<Vec<Option<Value<'a>>>, InputError> {
    let mut values = Vec::new(alloc);
    for (other, named) in others.iter().zip(paths) {
        match value_at(alloc, other.1, types, &named.path, arena) {
            Ok(value) => values.push(value)?,
            Err(error) => return Err(error.below(alloc, other.0)),
        }
    }
    Ok(values)
}

// How a record is put together of the members that are paths.
fn plan_in(
    alloc: Global,
    columns: Columns<'_>,
    object: &json::Value<'_>,
) -> Result<Plan, InputError> {
    let json::Value::Object(members) = object else {
        return Err(InputError::from(Reason::NotAnObject));
    };
    let others = others_in(alloc, columns, members)?;
    let paths = paths_in(alloc, &others)?;
    plan_of(alloc, &paths)
}

// Adds the record of members at paths, by the plan of these.
fn add_members<'a, V: Values>(
    alloc: Global,
    others: &[(&'a str, &json::Value<'a>)],
    plan: &'a Plan,
    types: &Types,
    arena: &'a Bump,
    values: &mut V,
) -> Result<Option<usize>, InputError> {
    let paths = paths_in(alloc, others)?;
    let parts = values_in(alloc, others, &paths, types, arena)?;
    add_assembled(alloc, plan, parts, values)
}

// Adds a record that is given as a whole.
fn add_record<'a, V: Values>(
    alloc: Global,
    shown: &json::Value<'a>,
    types: &Types,
    arena: &'a Bump,
    values: &mut V,
) -> Result<Option<usize>, InputError> {
    if shown.is_null() {
        return Ok(None);
    }
    match value_of(alloc, shown, types, types.whole(), arena) {
        Ok(record) => Ok(Some(values.add(alloc, &record)?)),
        Err(error) => Err(error.at_least(alloc, RECORD)),
    }
}

// The members that have addresses, and the types of all others.
#[derive(Clone, Copy)]
struct MembersWanted<'t> {
    columns: Columns<'t>,
    types: &'t Types,
}

// What an object says.
fn entry_in<'a, V: Values>(
    alloc: Global,
    wanted: MembersWanted<'_>,
    object: &json::Value<'a>,
    plan: &'a Plan,
    arena: &'a Bump,
    values: &mut V,
) -> Result<RowEntry, InputError> {
    let json::Value::Object(members) = object else {
        return Err(InputError::from(Reason::NotAnObject));
    };
    let types = wanted.types;
    let place = place_in(alloc, wanted.columns, object)?;
    values.check(place)?;
    let others = others_in(alloc, wanted.columns, members)?;
    let value = match (object.get(RECORD), others.first()) {
        (Some(record), None) => add_record(alloc, record, types, arena, values)?,
        (None, Some(_)) => add_members(alloc, &others, plan, types, arena, values)?,
        (Some(_), Some(other)) => {
            return Err(InputError::at(alloc, other.0, Reason::BesideRecord));
        }
        (None, None) => return Err(InputError::from(Reason::NoRecord)),
    };
    Ok(RowEntry { place, value })
}

/// Lines of JSON, each an object with a network and its record, or the values at some paths of it.
#[derive(Drop)]
pub struct JsonLines<'t> {
    columns: Columns<'t>,
    types: &'t Types,
    quoted_name: Option<Vec<u8>>,
    known: KnownTexts,
    scratch: Scratch,
}

impl<'t> JsonLines<'t> {
    /// Lines whose addresses these members have, and whose values have these types.
    pub fn new(
        alloc: Global,
        columns: Columns<'t>,
        types: &'t Types,
    ) -> Result<JsonLines<'t>, AllocError> {
        Ok(JsonLines {
            columns,
            types,
            quoted_name: quoted_name(alloc, columns)?,
            known: KnownTexts::new(alloc),
            scratch: Scratch::new(alloc),
        })
    }

    // The text of the network that a line begins with, and what comes after it.
    fn split<'l>(&self, line: &'l [u8]) -> Option<(&'l [u8], &'l [u8])> {
        let Some(quoted_name) = &self.quoted_name else {
            return None;
        };
        let network = behind_front(line, quoted_name)?;
        let end = memchr(b'"', network)?;
        network.split_at_checked(end)
    }

    // What a line says that differs from an earlier one in its network alone.
    fn known_entry(&self, line: &[u8]) -> Option<RowEntry> {
        let (network, rest) = self.split(line)?;
        let value = self.known.get(rest)?;
        let network = network_of(str::from_utf8(network).ok()?).ok()?;
        Some(RowEntry {
            place: RowAddresses::Network(network),
            value,
        })
    }

    // What a line says.
    fn read<V: Values>(
        &mut self,
        alloc: Global,
        line: &[u8],
        values: &mut V,
    ) -> Result<RowEntry, InputError> {
        let Ok(text) = str::from_utf8(line) else {
            return Err(InputError::from(Reason::NotUtf8));
        };
        let wanted = MembersWanted {
            columns: self.columns,
            types: self.types,
        };
        let arena = Bump::new(alloc);
        let object = json::Value::parse_strict(alloc, text, &mut self.scratch)?;
        let plan = plan_in(alloc, wanted.columns, &object)?;
        let entry = entry_in(alloc, wanted, &object, &plan, &arena, values);
        drop(object);
        entry
    }

    // Keeps what a line says, for others that differ in their network alone. Its network needs no escapes.
    fn keep(&mut self, line: &[u8], value: Option<usize>) {
        if let Some((network, rest)) = self.split(line) {
            if !network.contains(&b'\\') {
                let _ = self.known.put(rest, value);
            }
        }
    }

    /// What a line says, without its end. A record that was not met before is given to `values`.
    pub fn entry<V: Values>(
        &mut self,
        alloc: Global,
        line: &[u8],
        values: &mut V,
    ) -> Result<RowEntry, InputError> {
        if let Some(entry) = self.known_entry(line) {
            return Ok(entry);
        }
        let entry = self.read(alloc, line, values)?;
        self.keep(line, entry.value);
        Ok(entry)
    }
}
