//! A MaxMind DB file that takes another one's place.
ghost use Rattle.std.specs.Prelude.{◌≡◌, IfOk, IfSome, OnOk};
ghost use Rattle.std.specs.Io.KnownBytes.{Appends};
ghost use Rattle.mmdb_reader.specs.Source.{IsDatabaseOf};
ghost use Rattle.mmdb_reader.specs.Whole.{IsWhole, HasReadableRecords};
ghost use Rattle.mmdb_cmd_install.specs.Fit.{IsFit};

use crate::change::{Share, change_between};
use crate::percent::{Percent, percent_of};
use mmdb_arguments::{InstallArguments, NoRequest};
use mmdb_compare::Side;
use mmdb_console::{
    Console, DONE, FAILED, ProgramError, file_elsewhere, line_of, note_archive, note_remarks,
    report_replace, reported,
};
use mmdb_files::{PendingFile, ReplaceError, SharedFiles, Standing, begin_file, standing_of};
use mmdb_reader::{MaxMindDbError, Metadata, Reader};
use mmdb_records::{TypePattern, is_ahead, reason_of, time_text, unreadable_records};
use std::alloc::{AllocError, Global};
use std::env::Env;
use std::fs::File;
use std::io::{self, Read, Write};
use std::rt::Files;
use std::time::Clock;

/// What `install` is asked for.
#[derive(Clone, Copy)]
struct InstallTask<'a> {
    new: &'a str,
    dest: &'a str,
    max_change: Option<Percent>,
    database_type: Option<TypePattern<'a>>,
    allow_older: bool,
    allow_broken: bool,
    dry_run: bool,
    quiet: bool,
}

/// What becomes of the file that is there.
#[derive(Clone, Copy, PartialEq, Eq)]
enum Decision {
    Replace,
    /// It has the same bytes.
    Keep,
    /// There is a reason against it, which is reported.
    Reject,
}

// The type that is wanted, if one is.
fn wanted_type<'a>(
    alloc: Global,
    text: Option<&'a str>,
) -> Result<Option<TypePattern<'a>>, NoRequest> {
    let Some(text) = text else {
        return Ok(None);
    };
    match TypePattern::of(text) {
        Some(pattern) => Ok(Some(pattern)),
        None => {
            let wanted = "a * inside, and not at an end";
            Err(NoRequest::bad_argument(alloc, "--database-type", wanted))
        }
    }
}

// What the arguments ask for. An `Err` where one is not what is wanted in its place.
fn task_of<'a>(
    alloc: Global,
    arguments: &InstallArguments<'a>,
) -> Result<InstallTask<'a>, NoRequest> {
    Ok(InstallTask {
        new: arguments.new,
        dest: arguments.dest,
        max_change: match arguments.max_change {
            Some(text) => Some(percent_of(alloc, text)?),
            None => None,
        },
        database_type: wanted_type(alloc, arguments.database_type)?,
        allow_older: arguments.allow_older,
        allow_broken: arguments.allow_broken,
        dry_run: arguments.dry_run,
        quiet: arguments.quiet,
    })
}

// All bytes of a file.
fn bytes_of<R: Files>(rt: &R, alloc: Global, path: &str) -> io::Result<Vec<u8>> {
    let mut file = File::open(rt, path)?;
    let mut bytes = Vec::new(alloc);
    file.read_to_end(&mut bytes)?;
    Ok(bytes)
}

// Why a file can't be taken as a database, if it can't.
fn against_new(standing: Standing) -> Option<&'static str> {
    match standing {
        Standing::Database => None,
        Standing::Nothing => Some("no such file"),
        Standing::Other => Some("not a MaxMind DB file"),
        Standing::NoFile => Some("not a file"),
        Standing::DeadLink => Some("a link that leads nowhere"),
    }
}

// Why a file can't be replaced by a database, if it can't.
fn against_dest(standing: Standing, allow_broken: bool) -> Option<&'static str> {
    match standing {
        Standing::Nothing => None,
        Standing::Other if allow_broken => None,
        Standing::Other => Some("not a MaxMind DB file; --allow-broken replaces it"),
        _ => against_new(standing),
    }
}

// What is at a path, none where that can't be asked, which is reported.
fn found_at<O: Write, E: Write>(
    path: &str,
    standing: io::Result<Standing>,
    console: &mut Console<'_, O, E>,
) -> Option<Standing> {
    let standing: Result<Standing, MaxMindDbError> = match standing {
        Ok(standing) => Ok(standing),
        Err(error) => Err(MaxMindDbError::from(error)),
    };
    reported(path, standing, console)
}

// Whether there is no reason against a file, which is reported.
fn is_fit<O: Write, E: Write>(
    path: &str,
    reason: Option<&str>,
    console: &mut Console<'_, O, E>,
) -> bool {
    match reason {
        None => true,
        Some(reason) => {
            console.report(path, &reason);
            false
        }
    }
}

// What there is to be replaced, none where there is a reason against it, which is reported.
fn standing_of_dest<R: Files, O: Write, E: Write>(
    rt: &R,
    task: InstallTask<'_>,
    console: &mut Console<'_, O, E>,
) -> Option<Standing> {
    let found = standing_of(rt, console.alloc, task.dest);
    let standing = found_at(task.dest, found, console)?;
    if is_fit(
        task.dest,
        against_dest(standing, task.allow_broken),
        console,
    ) {
        Some(standing)
    } else {
        None
    }
}

// The bytes of a file, none where it can't be read, which is reported.
fn read_file<R: Files, O: Write, E: Write>(
    rt: &R,
    path: &str,
    console: &mut Console<'_, O, E>,
) -> Option<Vec<u8>> {
    let bytes: Result<Vec<u8>, MaxMindDbError> = match bytes_of(rt, console.alloc, path) {
        Ok(bytes) => Ok(bytes),
        Err(error) => Err(MaxMindDbError::from(error)),
    };
    reported(path, bytes, console)
}

// Says a line on standard error.
fn note<O: Write, E: Write>(console: &mut Console<'_, O, E>, text: Result<String, AllocError>) {
    console.note(line_of(console.alloc, text));
}

// Why a database is not what is wanted, whatever is there, if it is not.
fn text_against_new<R: Clock>(
    rt: &R,
    alloc: Global,
    task: InstallTask<'_>,
    new: &Metadata,
) -> Result<Option<String>, ProgramError> {
    let (new_type, built) = (new.database_type.as_str(), new.build_epoch);
    if let Some(pattern) = task.database_type
        && !pattern.fits(new_type)
    {
        let wanted = pattern.text;
        return Ok(Some(format!(in alloc; "its type is {new_type}, not {wanted}")?));
    }
    let now = rt.since_1970()?.as_secs();
    if is_ahead(built, now) {
        let built = time_text(alloc, built)?;
        return Ok(Some(format!(in alloc; "it was built at {built}, more than a day ahead")?));
    }
    Ok(None)
}

// Why a database does not follow another one, if it does not.
fn text_against(
    alloc: Global,
    task: InstallTask<'_>,
    old: &Metadata,
    new: &Metadata,
) -> Result<Option<String>, AllocError> {
    let (old_type, new_type) = (old.database_type.as_str(), new.database_type.as_str());
    let (old_version, new_version) = (old.ip_version, new.ip_version);
    if old_type != new_type {
        return Ok(Some(format!(in alloc; "its type is {new_type}, not {old_type}")?));
    }
    if old_version != new_version {
        return Ok(Some(format!(in alloc; "its IP version is {new_version}, not {old_version}")?));
    }
    if new.build_epoch < old.build_epoch && !task.allow_older {
        let (built, before) = (
            time_text(alloc, new.build_epoch)?,
            time_text(alloc, old.build_epoch)?,
        );
        return Ok(Some(format!(in alloc;
            "it was built at {built}, before {before}; --allow-older takes it"
        )?));
    }
    Ok(None)
}

// Whether no more changed of some addresses than may, which is reported.
fn is_close<O: Write, E: Write>(
    task: InstallTask<'_>,
    most: Percent,
    of: &str,
    share: Share,
    console: &mut Console<'_, O, E>,
) -> Result<bool, ProgramError> {
    if !most.is_below(share.changed, share.all) {
        return Ok(true);
    }
    let changed = Percent::of(share.changed, share.all).text(console.alloc)?;
    let most = most.text(console.alloc)?;
    let text: String = format!(in console.alloc;
        "{changed} % of the {of} with a record changed, at most {most} % may"
    )?;
    console.report(task.new, &text);
    Ok(false)
}

// Whether no more of two databases differs than may. Why it does is reported, and which can't be read.
fn are_close<O: Write, E: Write>(
    task: InstallTask<'_>,
    most: Percent,
    old: &Reader<&[u8]>,
    new: &Reader<&[u8]>,
    console: &mut Console<'_, O, E>,
) -> Result<bool, ProgramError> {
    match change_between(console.alloc, old, new) {
        Ok(change) => Ok(
            is_close(task, most, "IPv4 addresses", change.ipv4, console)?
                && is_close(task, most, "IPv6 /48 networks", change.ipv6, console)?,
        ),
        Err((side, error)) => {
            let file = match side {
                Side::Old => task.dest,
                Side::New => task.new,
            };
            console.report(file, &error);
            drop(error);
            Ok(false)
        }
    }
}

// Whether a database follows another one. Why it does not is reported.
fn follows<O: Write, E: Write>(
    task: InstallTask<'_>,
    old: &Reader<&[u8]>,
    new: &Reader<&[u8]>,
    console: &mut Console<'_, O, E>,
) -> Result<bool, ProgramError> {
    if let Some(text) = text_against(console.alloc, task, old.metadata(), new.metadata())? {
        console.report(task.new, &text);
        return Ok(false);
    }
    match task.max_change {
        Some(most) => are_close(task, most, old, new, console),
        None => Ok(true),
    }
}

// Whether a database may take the place of the file of some bytes, which is reported.
fn decide_by_bytes<O: Write, E: Write>(
    task: InstallTask<'_>,
    old_bytes: &[u8],
    new: &Reader<&[u8]>,
    bytes: &[u8],
    console: &mut Console<'_, O, E>,
) -> Result<Decision, ProgramError>
    ensures same { IfOk result (λ decision. decision ≡ Decision.Keep → old_bytes.now ≡ bytes.now) }
{
    if old_bytes == bytes {
        return Ok(Decision::Keep);
    }
    let old = Reader::from_source(console.alloc, old_bytes);
    let is_broken = !matches!(old, Ok(_) | Err(MaxMindDbError::Memory));
    if is_broken && task.allow_broken {
        drop(old);
        return Ok(Decision::Replace);
    }
    let Some(old) = reported(task.dest, old, console) else {
        return Ok(Decision::Reject);
    };
    Ok(if follows(task, &old, new, console)? {
        Decision::Replace
    } else {
        Decision::Reject
    })
}

// Whether a database may take the place of what is there, which is reported.
fn decide<R: Files, O: Write, E: Write>(
    rt: &R,
    task: InstallTask<'_>,
    new: &Reader<&[u8]>,
    bytes: &[u8],
    console: &mut Console<'_, O, E>,
) -> Result<Decision, ProgramError> {
    match standing_of_dest(rt, task, console) {
        Some(Standing::Database) => match read_file(rt, task.dest, console) {
            Some(old_bytes) => {
                let decision = decide_by_bytes(task, &old_bytes, new, bytes, console);
                drop(old_bytes);
                decision
            }
            None => Ok(Decision::Reject),
        },
        Some(_) => Ok(Decision::Replace),
        None => Ok(Decision::Reject),
    }
}

// Says what became of the file that was there, in a line of standard output and a note.
fn say<O: Write, E: Write>(
    task: InstallTask<'_>,
    word: &str,
    text: Result<String, AllocError>,
    console: &mut Console<'_, O, E>,
) -> Result<u8, ProgramError> {
    if task.quiet {
        return Ok(DONE);
    }
    note(console, text);
    let dest = task.dest;
    let line = line_of(console.alloc, format!(in console.alloc; "{dest}: {word}"))?;
    console.put(line.as_bytes())?;
    Ok(DONE)
}

// Says that the file that is there has the same bytes.
fn say_kept<O: Write, E: Write>(
    task: InstallTask<'_>,
    console: &mut Console<'_, O, E>,
) -> Result<u8, ProgramError> {
    let dest = task.dest;
    let text: Result<String, AllocError> = format!(in console.alloc;
        "mmdb: {dest} has these bytes already"
    );
    say(task, "unchanged", text, console)
}

// Says that it would be replaced.
fn say_dry<O: Write, E: Write>(
    task: InstallTask<'_>,
    count: usize,
    console: &mut Console<'_, O, E>,
) -> u8 {
    let (new, dest) = (task.new, task.dest);
    if !task.quiet {
        note(
            console,
            format!(in console.alloc; "mmdb: {dest}: {new} would be installed, {count} bytes"),
        );
    }
    DONE
}

// Writes all of the bytes.
fn write_fit<W: Write>(bytes: &[u8], out: &mut W) -> io::Result<()>
    requires { IsFit bytes.now }
    ensures { OnOk result (Appends (W.contents out.old) (W.contents out.new) bytes.now) }
{
    out.write_all(bytes)
}

// Writes the bytes to a file, and gives it the place of the one that is there.
fn put_in_place<R: SharedFiles>(
    rt: &R,
    pending: PendingFile<R>,
    bytes: &[u8],
) -> Result<(), ReplaceError>
    requires { IsFit bytes.now }
{
    let mut pending = pending;
    match write_fit(bytes, &mut pending) {
        Ok(()) => pending.take_place(rt),
        Err(error) => {
            pending.remove(rt);
            Err(ReplaceError::Io(error))
        }
    }
}

// Puts the bytes in their place, and answers the status.
fn put<R: SharedFiles, O: Write, E: Write>(
    rt: &R,
    task: InstallTask<'_>,
    pending: PendingFile<R>,
    bytes: &[u8],
    console: &mut Console<'_, O, E>,
) -> Result<u8, ProgramError>
    requires { IsFit bytes.now }
{
    let (new, dest, count) = (task.new, task.dest, bytes.len());
    note_remarks(task.dest, &pending, console);
    match put_in_place(rt, pending, bytes) {
        Ok(()) => {
            let text: Result<String, AllocError> = format!(in console.alloc;
                "mmdb: {dest}: {new} is installed, {count} bytes"
            );
            say(task, "replaced", text, console)
        }
        Err(error) => report_replace(task.dest, error, console),
    }
}

// Says what would be done, and answers the status.
fn install_dry<R: Files, O: Write, E: Write>(
    rt: &R,
    task: InstallTask<'_>,
    new: &Reader<&[u8]>,
    bytes: &[u8],
    console: &mut Console<'_, O, E>,
) -> Result<u8, ProgramError> {
    match decide(rt, task, new, bytes, console)? {
        Decision::Replace => Ok(say_dry(task, bytes.len(), console)),
        Decision::Keep => say_kept(task, console),
        Decision::Reject => Ok(FAILED),
    }
}

// Installs a verified database beside which no other process replaces the one that is there, and answers the status.
fn install_locked<R: SharedFiles, O: Write, E: Write>(
    rt: &R,
    task: InstallTask<'_>,
    pending: PendingFile<R>,
    new: &Reader<&[u8]>,
    bytes: &[u8],
    console: &mut Console<'_, O, E>,
) -> Result<u8, ProgramError>
    requires { IsFit bytes.now }
{
    match decide(rt, task, new, bytes, console) {
        Ok(Decision::Replace) => put(rt, task, pending, bytes, console),
        Ok(Decision::Keep) => {
            pending.remove(rt);
            say_kept(task, console)
        }
        Ok(Decision::Reject) => {
            pending.remove(rt);
            Ok(FAILED)
        }
        Err(error) => {
            pending.remove(rt);
            Err(error)
        }
    }
}

// Installs a verified database, and answers the status.
fn install_verified<R: SharedFiles + Clock, O: Write, E: Write>(
    rt: &R,
    task: InstallTask<'_>,
    new: &Reader<&[u8]>,
    bytes: &[u8],
    console: &mut Console<'_, O, E>,
) -> Result<u8, ProgramError>
    requires { IsFit bytes.now }
{
    if let Some(text) = text_against_new(rt, console.alloc, task, new.metadata())? {
        console.report(task.new, &text);
        return Ok(FAILED);
    }
    if task.dry_run {
        return install_dry(rt, task, new, bytes, console);
    }
    match begin_file(rt, console.alloc, task.dest) {
        Ok(pending) => install_locked(rt, task, pending, new, bytes, console),
        Err(error) => report_replace(task.dest, error, console),
    }
}

// Whether a database is whole and all its records can be read. An `Err` says why not, or is of the first one that can't be.
fn read_all(alloc: Global, database: &Reader<&[u8]>) -> Result<(), MaxMindDbError>
    ensures whole { IfOk result (λ _. IsWhole database.now) }
    ensures readable { IfOk result (λ _. HasReadableRecords database.now) }
{
    match unreadable_records(alloc, database)? {
        Some(unreadable) => Err(unreadable.error),
        None => Ok(()),
    }
}

// A database, verified; none where it is not whole, or a record can't be read, which is reported.
fn verified<'b, O: Write, E: Write>(
    file: &str,
    database: Reader<&'b [u8]>,
    console: &mut Console<'_, O, E>,
) -> Option<Reader<&'b [u8]>>
    ensures same { IfSome result (λ verified. verified ≡ database.entry) }
    ensures whole { IfSome result (λ verified. IsWhole verified) }
    ensures readable { IfSome result (λ verified. HasReadableRecords verified) }
{
    match read_all(console.alloc, &database) {
        Ok(()) => Some(database),
        Err(error) => {
            drop(database);
            report_reason(file, &error, console);
            None
        }
    }
}

// The database of bytes, verified; none where they are none, or it is not fit, which is reported.
fn database_of<'b, O: Write, E: Write>(
    file: &str,
    bytes: &'b [u8],
    console: &mut Console<'_, O, E>,
) -> Option<Reader<&'b [u8]>>
    ensures database { IfSome result (λ database. IsDatabaseOf bytes.now database) }
    ensures whole { IfSome result (λ database. IsWhole database) }
    ensures readable { IfSome result (λ database. HasReadableRecords database) }
{
    match Reader::from_source(console.alloc, bytes) {
        Ok(database) => verified(file, database, console),
        Err(error) => {
            console.report(file, &error);
            None
        }
    }
}

// Reports why a database is not whole, or a record can't be read.
fn report_reason<O: Write, E: Write>(
    file: &str,
    error: &MaxMindDbError,
    console: &mut Console<'_, O, E>,
) {
    match reason_of(console.alloc, error) {
        Ok(reason) => console.report(file, &reason),
        Err(_) => console.report(file, &MaxMindDbError::Memory),
    }
}

// Installs the file of these bytes, and answers the status.
fn install_bytes<R: SharedFiles + Clock, O: Write, E: Write>(
    rt: &R,
    task: InstallTask<'_>,
    bytes: &[u8],
    console: &mut Console<'_, O, E>,
) -> Result<u8, ProgramError> {
    match database_of(task.new, bytes, console) {
        Some(new) => {
            let done = install_verified(rt, task, &new, bytes, console);
            drop(new);
            done
        }
        None => {
            note_archive(rt, task.new, console);
            Ok(FAILED)
        }
    }
}

// Installs the file of a task, and answers the status.
fn install_file<R: SharedFiles + Clock, O: Write, E: Write>(
    rt: &R,
    task: InstallTask<'_>,
    found: io::Result<Standing>,
    console: &mut Console<'_, O, E>,
) -> Result<u8, ProgramError> {
    let Some(standing) = found_at(task.new, found, console) else {
        return Ok(FAILED);
    };
    if !is_fit(task.new, against_new(standing), console) {
        note_archive(rt, task.new, console);
        return Ok(FAILED);
    }
    match read_file(rt, task.new, console) {
        Some(bytes) => {
            let done = install_bytes(rt, task, &bytes, console);
            drop(bytes);
            done
        }
        None => Ok(FAILED),
    }
}

// Where the new file is, if that is elsewhere, which is said.
fn new_elsewhere<R: Files + Env, O: Write, E: Write>(
    rt: &R,
    task: InstallTask<'_>,
    found: &io::Result<Standing>,
    console: &mut Console<'_, O, E>,
) -> Result<Option<String>, AllocError> {
    match found {
        Ok(Standing::Nothing | Standing::DeadLink) => file_elsewhere(rt, task.new, console),
        _ => Ok(None),
    }
}

// Installs the new file of a task, which is here or elsewhere, and answers the status.
fn install_found<R: SharedFiles + Env + Clock, O: Write, E: Write>(
    rt: &R,
    task: InstallTask<'_>,
    console: &mut Console<'_, O, E>,
) -> Result<u8, ProgramError> {
    let found = standing_of(rt, console.alloc, task.new);
    match new_elsewhere(rt, task, &found, console)? {
        Some(path) => {
            drop(found);
            let found = standing_of(rt, console.alloc, path.as_str());
            let task = InstallTask {
                new: path.as_str(),
                ..task
            };
            install_file(rt, task, found, console)
        }
        None => install_file(rt, task, found, console),
    }
}

/// Puts a MaxMind DB file in the place of another one, or where there is none, says so, and answers the status. Before that it
/// is verified, all its records are read, and it is compared with what is there: it has the same type and kind of addresses, is
/// not older, and not more addresses of IPv4 and networks of IPv6 changed than may. No other process that asks so replaces what is
/// there between that and the end. Why it is not done is reported, and then what is there stays. An `Err` where an argument is
/// not what is wanted in its place, before any file is opened, standard output can't be written, or out of memory.
pub fn install<R: SharedFiles + Env + Clock, O: Write, E: Write>(
    rt: &R,
    arguments: &InstallArguments<'_>,
    console: &mut Console<'_, O, E>,
) -> Result<u8, ProgramError> {
    let task = task_of(console.alloc, arguments)?;
    console.names_found = !arguments.quiet;
    match standing_of_dest(rt, task, console) {
        Some(_) => install_found(rt, task, console),
        None => Ok(FAILED),
    }
}
