//! The member that is added to an object.
ghost use Rattle.std.specs.Prelude.{◌≡◌, ◌++◌, [], None, false, OnOk, IfOk, IfErr};
ghost use Rattle.mmdb_cmd_enrich.specs.Fields.{HasUnreadField, IsUnread, MemberAfter, IsNullMemberAfter, front_tokens, null_fields, null_values, network_tokens, nulls_of, reads_of_kind};
ghost use Rattle.mmdb_cmd_enrich.specs.Working.{PutsValue, PutsFields, PutsFieldsAfter, PutsValuesAfter, PutsWhole};
ghost use Rattle.mmdb_decode.specs.Errors.{Fails};
ghost use Rattle.mmdb_format.specs.Error.{MemoryApart};
ghost use Rattle.mmdb_layout.specs.Reading.{IsReadAs};

use crate::found::ReadRecords;
use json::{Token, Writer};
use mmdb_filter::Outcome;
use mmdb_json::write_value;
use mmdb_layout::NETWORK;
use mmdb_net::IpNetwork;
use mmdb_reader::{MaxMindDbError, PathElement};
use mmdb_value::Value;
use std::alloc::{AllocError, Global};
use std::mem;

/// A field of a record, under a name.
#[derive(Drop)]
pub struct NamedField<'f> {
    pub name: &'f str,
    /// Where in the record it is.
    pub path: Vec<PathElement<'f>>,
}

/// What a member has.
#[derive(Clone, Copy, PartialEq, Eq)]
pub enum MemberKind {
    /// Fields, each of the first record that has it, or, without a field, all of that record.
    Fields,
    /// The network of the address, and fields.
    NetworkAndFields,
    /// The records: each field is one, and the first step of its path is the number of its database.
    Records,
}

/// What a member is: its name, and what it has.
#[derive(Clone, Copy)]
pub(crate) struct MemberForm<'m> {
    pub(crate) kind: MemberKind,
    pub(crate) name: &'m str,
    pub(crate) fields: &'m [NamedField<'m>],
}

// The value along a path, in the first record that has one, or in the one whose number the path begins with.
#[inline(always)]
fn read_by<'x, A: ReadRecords>(
    alloc: Global,
    kind: MemberKind,
    found: &'x A,
    path: &[PathElement<'_>],
) -> Result<Option<Value<'x>>, MaxMindDbError>
    ensures { IsReadAs (reads_of_kind kind (A.reads found.now) (A.each found.now) path.now)
        result }
{
    match kind {
        MemberKind::Records => found.read_each(alloc, path),
        _ => found.read_along(alloc, path),
    }
}

// Writes the value along a path, or null where there is none.
fn put_value<A: ReadRecords>(
    alloc: Global,
    kind: MemberKind,
    found: &A,
    path: &[PathElement<'_>],
    out: &mut Writer,
) -> Result<(), MaxMindDbError>
    ensures value { OnOk result (PutsValue
        (reads_of_kind kind (A.reads found.now) (A.each found.now) path.now)
        out.old.tokens out.new.tokens) }
    ensures rejected { IfErr result (λ e. Fails false e
        (reads_of_kind kind (A.reads found.now) (A.each found.now) path.now)) }
    ensures before { out.new.before ≡ out.old.before }
{
    match &read_by(alloc, kind, found, path)? {
        Some(value) => write_value(alloc, value, out)?,
        None => out.token(Token::Null)?,
    }
    Ok(())
}

// Writes for each field its name, and the value along its path or null.
fn put_fields<A: ReadRecords>(
    alloc: Global,
    kind: MemberKind,
    found: &A,
    fields: &[NamedField<'_>],
    out: &mut Writer,
) -> Result<(), MaxMindDbError>
    ensures fields { OnOk result (PutsFields
        (reads_of_kind kind (A.reads found.now) (A.each found.now)) fields.now
        out.old.tokens out.new.tokens) }
    ensures rejected { IfErr result (λ e. MemoryApart e (HasUnreadField
        (reads_of_kind kind (A.reads found.now) (A.each found.now)) fields.now)) }
    ensures before { out.new.before ≡ out.old.before }
{
    for at in 0..fields.len() {
        let field = &fields[at];
        out.token(Token::Key(field.name))?;
        put_value(alloc, kind, found, field.path.as_slice(), out)?;
    }
    Ok(())
}

// Writes the member of a network, null where there is none.
fn put_network(
    alloc: Global,
    network: Option<IpNetwork>,
    out: &mut Writer,
) -> Result<(), AllocError>
    ensures tokens { OnOk result (out.new.tokens ≡ out.old.tokens ++ network_tokens network) }
    ensures before { out.new.before ≡ out.old.before }
{
    out.token(Token::Key(NETWORK))?;
    match network {
        Some(network) => {
            let text: String = format!(in alloc; "{network}")?;
            out.token(Token::String(text.as_str()))
        }
        None => out.token(Token::Null),
    }
}

// Writes the members before the fields: none, or that of the network.
fn put_front(
    alloc: Global,
    kind: MemberKind,
    network: Option<IpNetwork>,
    out: &mut Writer,
) -> Result<(), AllocError>
    ensures tokens { OnOk result (out.new.tokens ≡ out.old.tokens ++ front_tokens kind network) }
    ensures before { out.new.before ≡ out.old.before }
{
    match kind {
        MemberKind::NetworkAndFields => put_network(alloc, network, out),
        _ => Ok(()),
    }
}

// Writes a member with the fields, after others.
fn put_member<A: ReadRecords>(
    alloc: Global,
    form: MemberForm<'_>,
    found: &A,
    network: Option<IpNetwork>,
    out: &mut Writer,
) -> Result<(), MaxMindDbError>
    ensures member { OnOk result (PutsFieldsAfter (front_tokens form.entry.kind network)
        (reads_of_kind form.entry.kind (A.reads found.now) (A.each found.now))
        form.entry.name.now form.entry.fields.now out.old.tokens out.new.tokens) }
    ensures rejected { IfErr result (λ e. MemoryApart e (HasUnreadField
        (reads_of_kind form.entry.kind (A.reads found.now) (A.each found.now))
        form.entry.fields.now)) }
    ensures before { out.new.before ≡ out.old.before }
{
    out.token(Token::Key(form.name))?;
    out.token(Token::BeginObject)?;
    put_front(alloc, form.kind, network, out)?;
    put_fields(alloc, form.kind, found, form.fields, out)?;
    out.token(Token::EndObject)?;
    Ok(())
}

// Writes a member with all that is read.
fn put_whole<A: ReadRecords>(
    alloc: Global,
    form: MemberForm<'_>,
    found: &A,
    out: &mut Writer,
) -> Result<(), MaxMindDbError>
    ensures whole { OnOk result (PutsWhole
        (reads_of_kind form.entry.kind (A.reads found.now) (A.each found.now))
        form.entry.name.now out.old.tokens out.new.tokens) }
    ensures rejected { IfErr result (λ e. Fails false e
        (reads_of_kind form.entry.kind (A.reads found.now) (A.each found.now) [])) }
    ensures before { out.new.before ≡ out.old.before }
{
    out.token(Token::Key(form.name))?;
    put_value(alloc, form.kind, found, &[], out)
}

// Writes a member with the fields after others, or, without a field, with all that is read.
fn put_values<A: ReadRecords>(
    alloc: Global,
    form: MemberForm<'_>,
    found: &A,
    network: Option<IpNetwork>,
    out: &mut Writer,
) -> Result<(), MaxMindDbError>
    ensures member { OnOk result (PutsValuesAfter (front_tokens form.entry.kind network)
        (reads_of_kind form.entry.kind (A.reads found.now) (A.each found.now))
        form.entry.name.now form.entry.fields.now out.old.tokens out.new.tokens) }
    ensures rejected { IfErr result (λ e. MemoryApart e (IsUnread
        (reads_of_kind form.entry.kind (A.reads found.now) (A.each found.now))
        form.entry.fields.now)) }
    ensures before { out.new.before ≡ out.old.before }
{
    if form.fields.is_empty() {
        put_whole(alloc, form, found, out)
    } else {
        put_member(alloc, form, found, network, out)
    }
}

/// Puts the text of a member in place of nothing. It stays so where something of it can't be read.
pub(crate) fn put_member_text<A: ReadRecords>(
    alloc: Global,
    form: MemberForm<'_>,
    found: &A,
    network: Option<IpNetwork>,
    text: &mut Vec<u8>,
) -> Result<Outcome, AllocError>
    requires { text.old.items ≡ [] }
    ensures { IfOk result (MemberAfter (front_tokens form.entry.kind network)
        (reads_of_kind form.entry.kind (A.reads found.now) (A.each found.now))
        form.entry.name.now form.entry.fields.now text.new.items) }
{
    let mut out = Writer::new(mem::replace(text, Vec::new(alloc)));
    let done = put_values(alloc, form, found, network, &mut out);
    *text = out.into_inner();
    match done {
        Ok(()) => Ok(Outcome::Found),
        Err(MaxMindDbError::Memory) => Err(AllocError),
        Err(_) => {
            text.clear();
            Ok(Outcome::Failed)
        }
    }
}

// Writes for each field its name and null.
fn put_nulls(fields: &[NamedField<'_>], out: &mut Writer) -> Result<(), AllocError>
    ensures fields { OnOk result (out.new.tokens ≡ out.old.tokens ++ null_fields fields.now) }
    ensures before { out.new.before ≡ out.old.before }
{
    for at in 0..fields.len() {
        let field = &fields[at];
        out.token(Token::Key(field.name))?;
        out.token(Token::Null)?;
    }
    Ok(())
}

// Writes an object with every field null, after others, or, without a field, null itself.
fn put_null_values(
    alloc: Global,
    kind: MemberKind,
    fields: &[NamedField<'_>],
    out: &mut Writer,
) -> Result<(), AllocError>
    ensures values { OnOk result (out.new.tokens
        ≡ out.old.tokens ++ null_values (front_tokens kind None) fields.now) }
    ensures before { out.new.before ≡ out.old.before }
{
    if fields.is_empty() {
        return out.token(Token::Null);
    }
    out.token(Token::BeginObject)?;
    put_front(alloc, kind, None, out)?;
    put_nulls(fields, out)?;
    out.token(Token::EndObject)
}

// The fields that are null without a record: none where the records are wanted, since all of the member is null then.
fn null_fields_of<'m>(form: MemberForm<'m>) -> &'m [NamedField<'m>]
    ensures { result.now ≡ nulls_of form.entry.kind form.entry.fields.now }
{
    match form.kind {
        MemberKind::Records => &[],
        _ => form.fields,
    }
}

/// The text of a member of which everything is null.
pub(crate) fn null_member(alloc: Global, form: MemberForm<'_>) -> Result<Vec<u8>, AllocError>
    ensures { IfOk result (λ text. IsNullMemberAfter (front_tokens form.entry.kind None)
        form.entry.name.now (nulls_of form.entry.kind form.entry.fields.now) text.items) }
{
    let mut out = Writer::new(Vec::with_capacity(alloc, 256)?);
    out.token(Token::Key(form.name))?;
    put_null_values(alloc, form.kind, null_fields_of(form), &mut out)?;
    Ok(out.into_inner())
}
