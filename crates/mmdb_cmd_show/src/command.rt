//! The command `show`.
ghost use Rattle.std.specs.Prelude.{◌≡◌, ◌⊎◌, ◌↔◌};

use crate::answer::{ADDRESS, AddressRecords, AddressValues, DatabaseAnswer, Shown};
use crate::asked::AskedTexts;
use crate::databases::{ReadError, ShownDatabase, answers_of, lookup_in, shown_databases};
use mmdb_arguments::{NoRequest, ShowArguments};
use mmdb_console::{BAD_ARGUMENTS, Console, DONE, FAILED, NOT_FOUND, ProgramError};
use mmdb_layout::{
    BesideFiles, ChosenFields, Database, DefaultName, FieldsMet, NamedDatabases, fields_of,
    keys_of, open_named,
};
use mmdb_reader::{MaxMindDbError, PathElement};
use std::alloc::{AllocError, Global};
use std::env::Env;
use std::io::Write;
use std::net::IpAddr;
use std::rt::Files;

// What `show` is asked for.
#[derive(Drop)]
struct ShowTask<'a> {
    asked: AskedTexts<'a>,
    fields: ChosenFields<'a>,
    lines: bool,
}

// What the arguments of `show` ask for. An `Err` where a field is not a path, and where all are addresses.
fn show_task<'a>(alloc: Global, arguments: &ShowArguments<'a>) -> Result<ShowTask<'a>, NoRequest> {
    let fields = arguments.fields.as_slice();
    let fields = fields_of(alloc, fields, DefaultName::PathBesideNames, &[ADDRESS])?;
    let asked = AskedTexts::new(alloc, arguments.asked.as_slice())?;
    if asked.names.is_empty() {
        return Err(NoRequest::bad_argument(alloc, "show", "needs a file"));
    }
    Ok(ShowTask {
        asked,
        fields,
        lines: arguments.lines,
    })
}

/// Databases that are asked, and how.
#[derive(Clone, Copy)]
struct Asking<'d, 'a> {
    databases: &'d [ShownDatabase<'d>],
    /// Whether several are named, so that what each has stands under its name.
    are_several: bool,
    task: &'d ShowTask<'a>,
    lines: bool,
}

impl<'d> Asking<'d, '_> {
    // Adds what is shown of the values of an address, and answers whether nothing was missing.
    fn put_shown(
        &self,
        alloc: Global,
        address: IpAddr,
        shown: Shown<'_, '_>,
        out: &mut Vec<u8>,
    ) -> Result<bool, ReadError<'d>> {
        let values = AddressValues {
            alloc,
            address,
            databases: self.databases,
            shown,
        };
        values.put(self.lines, out)
    }

    // Adds the values of an address, and answers whether none was missing.
    fn put_values(
        &self,
        alloc: Global,
        address: IpAddr,
        out: &mut Vec<u8>,
    ) -> Result<bool, ReadError<'d>> {
        let fields = &self.task.fields;
        if fields.is_named {
            return self.put_shown(alloc, address, Shown::Values(fields), out);
        }
        let mut are_found = true;
        for path in &fields.paths {
            are_found &= self.put_shown(alloc, address, Shown::Value(path.as_slice()), out)?;
        }
        Ok(are_found)
    }
}

// Adds an object with what the databases have for an address, and answers whether one has a record. Nothing is added where none
// could be read.
fn put_answers<'d>(
    alloc: Global,
    asking: &Asking<'d, '_>,
    address: IpAddr,
    answers: &[Option<DatabaseAnswer<'_>>],
    out: &mut Vec<u8>,
) -> Result<bool, AllocError> {
    if answers.iter().all(|answer| answer.is_none()) {
        return Ok(false);
    }
    let records = AddressRecords {
        alloc,
        address,
        databases: asking.databases,
        answers,
        are_named: asking.are_several,
    };
    records.put(asking.lines, out)
}

// What an error of an address is said of: of several databases the one with the error is named.
fn name_of(
    alloc: Global,
    asking: &Asking<'_, '_>,
    name: &str,
    address: IpAddr,
) -> Result<String, AllocError> {
    if asking.are_several {
        return format!(in alloc; "{name}: {address}");
    }
    address.to_string(alloc)
}

// Reports why the values of an address can't be read.
fn report_unread<O: Write, E: Write>(
    asking: &Asking<'_, '_>,
    address: IpAddr,
    error: &ReadError<'_>,
    console: &mut Console<'_, O, E>,
) -> Result<(), ProgramError> {
    match error {
        ReadError::Memory => console.report_behind(
            address.to_string(console.alloc),
            &MaxMindDbError::Memory,
        ),
        ReadError::Unread(name, error) => {
            console.report_behind(name_of(console.alloc, asking, *name, address), error)
        }
    }
}

// Writes the values that were made for an address, reports its error if it has one, and answers the status of it.
fn put_made<O: Write, E: Write>(
    asking: &Asking<'_, '_>,
    address: IpAddr,
    text: &[u8],
    shown: &Result<bool, ReadError<'_>>,
    console: &mut Console<'_, O, E>,
) -> Result<u8, ProgramError> {
    console.put(text)?;
    match shown {
        Ok(true) => Ok(DONE),
        Ok(false) => Ok(NOT_FOUND),
        Err(error) => {
            report_unread(asking, address, error, console)?;
            Ok(FAILED)
        }
    }
}

// Writes what each database has for an address, reports the errors, and answers the status of it.
fn show_records<O: Write, E: Write>(
    asking: &Asking<'_, '_>,
    address: IpAddr,
    console: &mut Console<'_, O, E>,
) -> Result<u8, ProgramError> {
    let alloc = console.alloc;
    let found = answers_of(alloc, asking.databases, address)?;
    let mut text = Vec::new(alloc);
    let has_record = put_answers(alloc, asking, address, found.answers.as_slice(), &mut text)?;
    console.put(text.as_slice())?;
    for (name, error) in &found.errors {
        console.report_behind(name_of(alloc, asking, *name, address), error)?;
    }
    Ok(match (found.errors.is_empty(), has_record) {
        (false, _) => FAILED,
        (true, true) => DONE,
        (true, false) => NOT_FOUND,
    })
}

// Writes what databases have for an address, reports its errors, and answers the status of it.
fn show_one<O: Write, E: Write>(
    asking: &Asking<'_, '_>,
    address: IpAddr,
    console: &mut Console<'_, O, E>,
) -> Result<u8, ProgramError> {
    if asking.task.fields.paths.is_empty() {
        return show_records(asking, address, console);
    }
    let mut text = Vec::new(console.alloc);
    let shown = asking.put_values(console.alloc, address, &mut text);
    let status = put_made(asking, address, text.as_slice(), &shown, console);
    drop(shown);
    status
}

// The status after one more address: of an error above all, and of what is not found only if nothing came before.
fn status_after(status: u8, next: u8) -> u8
    ensures failed { (status ≡ 1) ⊎ (next ≡ 1) → result ≡ 1 }
    ensures done { result ≡ 0 ↔ ((status ≡ 0) × (next ≡ 0)) }
    ensures either { (result ≡ status) ⊎ (result ≡ next) }
{
    if next == FAILED || status == DONE {
        next
    } else {
        status
    }
}

// Writes what databases have for addresses, reports their errors, and answers the status.
fn show_all<O: Write, E: Write>(
    asking: &Asking<'_, '_>,
    console: &mut Console<'_, O, E>,
) -> Result<u8, ProgramError> {
    let mut status = DONE;
    for address in &asking.task.asked.addresses {
        status = status_after(status, show_one(asking, *address, console)?);
    }
    note_absent(asking, console)?;
    Ok(status)
}

// Whether a database has a record of one of the addresses.
fn has_records(database: &Database, addresses: &[IpAddr]) -> bool {
    addresses.iter().any(|address| match lookup_in(database, *address) {
        Ok(found) => found.offset().is_some(),
        Err(_) => false,
    })
}

// Looks at the records of addresses in a database.
fn look_at(
    database: &Database,
    addresses: &[IpAddr],
    paths: &[Vec<PathElement<'_>>],
    met: &mut FieldsMet,
) {
    for address in addresses {
        if met.are_all_met() {
            return;
        }
        if let Ok(found) = lookup_in(database, *address) {
            met.look(&found, paths);
        }
    }
}

// Says of paths that lead to no value in any of the records that were shown. What may be meant is looked for in the first
// database that has some.
fn note_absent<O: Write, E: Write>(
    asking: &Asking<'_, '_>,
    console: &mut Console<'_, O, E>,
) -> Result<(), ProgramError> {
    let (fields, addresses) = (&asking.task.fields, asking.task.asked.addresses.as_slice());
    let paths = fields.paths.as_slice();
    let mut met = FieldsMet::new(console.alloc, paths.len())?;
    let mut databases = asking.databases.iter();
    let Some(first) = databases.find(|shown| has_records(shown.database, addresses)) else {
        return Ok(());
    };
    look_at(first.database, addresses, paths, &mut met);
    let mut met_later = FieldsMet::new(console.alloc, paths.len())?;
    for shown in databases {
        look_at(shown.database, addresses, paths, &mut met_later);
    }
    met.join(&met_later);
    met.note_absent(
        fields.texts.as_slice(),
        first.database.data_section(),
        console,
    )
}

// Shows what open databases have, and answers the status.
fn show_open<O: Write, E: Write>(
    databases: &NamedDatabases<'_>,
    task: &ShowTask<'_>,
    console: &mut Console<'_, O, E>,
) -> Result<u8, ProgramError> {
    if databases.open.is_empty() {
        return Ok(FAILED);
    }
    let open = databases.open.as_slice();
    let keys = keys_of(console.alloc, open, ADDRESS)?;
    let shown = shown_databases(console.alloc, open, keys.as_slice())?;
    let asking = Asking {
        databases: shown.as_slice(),
        are_several: databases.named > 1,
        task,
        lines: task.lines || !console.terminals.output,
    };
    let status = show_all(&asking, console)?;
    Ok(if databases.has_failed() {
        FAILED
    } else {
        status
    })
}

// The status where no argument is an address. An `Err` where each is a file.
fn status_without_address(
    alloc: Global,
    databases: &NamedDatabases<'_>,
) -> Result<u8, ProgramError> {
    if databases.strangers == 0 {
        let reason = NoRequest::bad_argument(alloc, "show", "needs an address");
        return Err(ProgramError::Arguments(reason));
    }
    Ok(BAD_ARGUMENTS)
}

/// Writes what databases have for addresses, reports each error, and answers the status. An `Err` where an argument is not a
/// path, before a file is opened; where no argument is an address or none may be a file; where standard output can't be
/// written, or out of memory.
pub fn show<R: Files + Env, O: Write, E: Write>(
    rt: &R,
    arguments: &ShowArguments<'_>,
    console: &mut Console<'_, O, E>,
) -> Result<u8, ProgramError> {
    let task = show_task(console.alloc, arguments)?;
    let (names, is_needed) = (
        task.asked.names.as_slice(),
        !task.asked.addresses.is_empty(),
    );
    let databases = open_named(rt, names, BesideFiles::Addresses, is_needed, console)?;
    if task.asked.addresses.is_empty() {
        return status_without_address(console.alloc, &databases);
    }
    show_open(&databases, &task, console)
}
