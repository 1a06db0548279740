//! Whether files are whole and all their records can be read, and whether they are what is expected.
ghost use Rattle.std.specs.Prelude.{◌≡◌, true, false, IfOk, IfNone, IsOkAnd, IsSome};
ghost use Rattle.mmdb_reader.specs.Whole.{IsWhole, HasReadableRecords};

use json::{Token, Writer};
use mmdb_arguments::{NoRequest, VerifyArguments};
use mmdb_console::{Console, DONE, FAILED, Pace, Passed, ProgramError, line_of, note_archive};
use mmdb_json::write_value;
use mmdb_layout::{Database, Opened, open_database, open_found, path_or};
use mmdb_reader::{MaxMindDbError, Metadata, Reader};
use mmdb_records::{TypePattern, is_ahead, reason_of, time_text, unreadable_records};
use mmdb_value::Value;
use std::alloc::{AllocError, Global};
use std::env::Env;
use std::io::Write;
use std::rt::Files;
use std::time::Clock;

const SECONDS_OF_A_DAY: u64 = 86_400;

/// How old a file may be.
#[derive(Clone, Copy)]
struct MostAge {
    days: u64,
    /// When it may be built first, in seconds since 1970.
    since: u64,
    /// What time it is.
    now: u64,
}

/// What `verify` is asked for.
#[derive(Clone, Copy)]
struct VerifyTask<'a> {
    /// Whether records are left out.
    whole: bool,
    database_type: Option<TypePattern<'a>>,
    /// After which second since 1970 a file has to be built.
    after: Option<u64>,
    most_age: Option<MostAge>,
    json: bool,
    quiet: bool,
}

/// What was found of a file. What is not known of it is none.
#[derive(Drop)]
struct Verdict {
    database_type: Option<String>,
    build_epoch: Option<u64>,
    node_count: Option<u64>,
    /// How many of its records can't be read.
    unreadable: Option<u64>,
    /// What is wrong with it, if something is.
    wrong: Option<String>,
}

// The number that a text of digits alone spells.
fn number_of(text: &str) -> Option<u64> {
    if !text.as_bytes().iter().all(|byte| byte.is_ascii_digit()) {
        return None;
    }
    text.parse::<u64>().ok()
}

// How old files may be, by a text that should be a number of days.
fn most_age_of<R: Clock>(rt: &R, alloc: Global, text: &str) -> Result<MostAge, ProgramError> {
    let Some(days) = number_of(text) else {
        let reason = NoRequest::bad_argument(alloc, "--max-age", "not a number of days");
        return Err(ProgramError::Arguments(reason));
    };
    let now = rt.since_1970()?.as_secs();
    Ok(MostAge {
        days,
        since: now.saturating_sub(days.saturating_mul(SECONDS_OF_A_DAY)),
        now,
    })
}

// The pattern of a text. An `Err` where a `*` is inside.
fn pattern_of<'a>(alloc: Global, text: &'a str) -> Result<TypePattern<'a>, NoRequest> {
    match TypePattern::of(text) {
        Some(pattern) => Ok(pattern),
        None => {
            let wanted = "a * inside, and not at an end";
            Err(NoRequest::bad_argument(alloc, "--database-type", wanted))
        }
    }
}

// Why a database of a time is too old, or from a day that is to come, if it is.
fn against_age(alloc: Global, built: u64, most: MostAge) -> Result<Option<String>, AllocError> {
    let MostAge { days, since, now } = most;
    if built >= since && !is_ahead(built, now) {
        return Ok(None);
    }
    let time = time_text(alloc, built)?;
    let text: String = if built < since {
        format!(in alloc; "it was built at {time}, more than {days} days ago")?
    } else {
        format!(in alloc; "it was built at {time}, more than a day ahead")?
    };
    Ok(Some(text))
}

// What is not as expected of a whole database, if something is.
fn unexpected(
    alloc: Global,
    metadata: &Metadata,
    task: VerifyTask<'_>,
) -> Result<Option<String>, AllocError> {
    let (database_type, built) = (metadata.database_type.as_str(), metadata.build_epoch);
    if let Some(pattern) = task.database_type
        && !pattern.fits(database_type)
    {
        let wanted = pattern.text;
        return Ok(Some(format!(in alloc; "its type is {database_type}, not {wanted}")?));
    }
    if let Some(after) = task.after
        && built <= after
    {
        let (built, after) = (time_text(alloc, built)?, time_text(alloc, after)?);
        return Ok(Some(format!(in alloc; "it was built at {built}, not after {after}")?));
    }
    match task.most_age {
        Some(most) => against_age(alloc, built, most),
        None => Ok(None),
    }
}

// Why a database is not whole, if it is not.
fn not_whole(alloc: Global, reader: &Reader<Vec<u8>>) -> Result<Option<String>, AllocError>
    ensures { IfOk result (λ reason. IfNone reason (IsWhole reader.now)) }
{
    match reader.verify(alloc) {
        Ok(()) => Ok(None),
        Err(error) => {
            let text = reason_of(alloc, &error);
            drop(error);
            Ok(Some(text?))
        }
    }
}

// Why a database is not whole, or which of its records can't be read, if there are some.
fn not_readable(
    alloc: Global,
    reader: &Reader<Vec<u8>>,
    unreadable: &mut Option<u64>,
) -> Result<Option<String>, AllocError>
    ensures whole { IfOk result (λ reason. IfNone reason (IsWhole reader.now)) }
    ensures readable { IfOk result (λ reason. IfNone reason (HasReadableRecords reader.now)) }
{
    match unreadable_records(alloc, reader) {
        Ok(None) => {
            *unreadable = Some(0);
            Ok(None)
        }
        Ok(Some(found)) => {
            let (count, network, error) = (found.count, found.network, &found.error);
            *unreadable = Some(count);
            let text: Result<String, AllocError> = format!(in alloc;
                "{count} of its records can't be read, the first at {network}: {error}"
            );
            drop(found);
            Ok(Some(text?))
        }
        Err(error) => {
            let text = reason_of(alloc, &error);
            drop(error);
            Ok(Some(text?))
        }
    }
}

// Why a database is not whole or, unless records are left out, which of them can't be read, if there are some.
fn damage_of(
    alloc: Global,
    reader: &Reader<Vec<u8>>,
    task: VerifyTask<'_>,
    unreadable: &mut Option<u64>,
) -> Result<Option<String>, AllocError>
    ensures whole { IfOk result (λ damage. IfNone damage (IsWhole reader.now)) }
    ensures readable { task.entry.whole ≡ false
        → IfOk result (λ damage. IfNone damage (HasReadableRecords reader.now)) }
{
    if task.whole {
        return not_whole(alloc, reader);
    }
    not_readable(alloc, reader, unreadable)
}

// What is wrong with a database, if something is.
fn wrong_with(
    alloc: Global,
    reader: &Reader<Vec<u8>>,
    task: VerifyTask<'_>,
    unreadable: &mut Option<u64>,
) -> Result<Option<String>, AllocError>
    ensures whole { IfOk result (λ wrong. IfNone wrong (IsWhole reader.now)) }
    ensures readable { task.entry.whole ≡ false
        → IfOk result (λ wrong. IfNone wrong (HasReadableRecords reader.now)) }
{
    match damage_of(alloc, reader, task, unreadable)? {
        Some(text) => Ok(Some(text)),
        None => unexpected(alloc, reader.metadata(), task),
    }
}

// What is found of a database.
fn verdict_on(
    alloc: Global,
    reader: &Reader<Vec<u8>>,
    task: VerifyTask<'_>,
) -> Result<Verdict, AllocError>
    ensures whole { IfOk result (λ verdict. IfNone verdict.wrong (IsWhole reader.now)) }
    ensures readable { task.entry.whole ≡ false
        → IfOk result (λ verdict. IfNone verdict.wrong (HasReadableRecords reader.now)) }
{
    let metadata = reader.metadata();
    let mut unreadable = None;
    let wrong = wrong_with(alloc, reader, task, &mut unreadable)?;
    Ok(Verdict {
        database_type: Some(String::from_str(alloc, metadata.database_type.as_str())?),
        build_epoch: Some(metadata.build_epoch),
        node_count: Some(u64::from(metadata.node_count)),
        unreadable,
        wrong,
    })
}

// What is found of a file that can't be opened.
fn verdict_of_error(alloc: Global, error: &MaxMindDbError) -> Result<Verdict, AllocError>
    ensures { IfOk result (λ verdict. IsSome verdict.wrong) }
{
    Ok(Verdict {
        database_type: None,
        build_epoch: None,
        node_count: None,
        unreadable: None,
        wrong: Some(format!(in alloc; "{error}")?),
    })
}

// What is found of a database, or of a file that can't be opened.
fn verdict_of(
    alloc: Global,
    got: Result<Database, MaxMindDbError>,
    task: VerifyTask<'_>,
) -> Result<Verdict, AllocError>
    ensures whole { IfOk result (λ verdict. IfNone verdict.wrong (IsOkAnd got IsWhole)) }
    ensures readable { task.entry.whole ≡ false
        → IfOk result (λ verdict. IfNone verdict.wrong (IsOkAnd got HasReadableRecords)) }
{
    match got {
        Ok(reader) => {
            let verdict = verdict_on(alloc, &reader, task);
            drop(reader);
            verdict
        }
        Err(error) => {
            let verdict = verdict_of_error(alloc, &error);
            drop(error);
            verdict
        }
    }
}

// The line on a file that a person reads.
fn line_on(alloc: Global, file: &str, verdict: &Verdict) -> Result<String, AllocError> {
    line_of(
        alloc,
        match &verdict.wrong {
            None => format!(in alloc; "{file}: ok"),
            Some(wrong) => format!(in alloc; "{file}: {wrong}"),
        },
    )
}

// A member whose value is a text, or null.
fn put_text(out: &mut Writer, key: &str, text: Option<&str>) -> Result<(), AllocError> {
    out.token(Token::Key(key))?;
    match text {
        Some(text) => out.token(Token::String(text)),
        None => out.token(Token::Null),
    }
}

// A member whose value is a number, or null.
fn put_number(
    alloc: Global,
    out: &mut Writer,
    key: &str,
    number: Option<u64>,
) -> Result<(), AllocError> {
    out.token(Token::Key(key))?;
    match number {
        Some(number) => write_value(alloc, &Value::U64(number), out),
        None => out.token(Token::Null),
    }
}

// The text of an option.
fn text_in(text: &Option<String>) -> Option<&str> {
    match text {
        Some(text) => Some(text.as_str()),
        None => None,
    }
}

// The members of the object on a file.
fn put_members(
    alloc: Global,
    file: &str,
    verdict: &Verdict,
    out: &mut Writer,
) -> Result<(), AllocError> {
    put_text(out, "path", Some(file))?;
    out.token(Token::Key("ok"))?;
    write_value(alloc, &Value::Bool(verdict.wrong.is_none()), out)?;
    put_text(out, "type", text_in(&verdict.database_type))?;
    put_number(alloc, out, "epoch", verdict.build_epoch)?;
    put_number(alloc, out, "nodes", verdict.node_count)?;
    put_number(alloc, out, "unreadable_records", verdict.unreadable)?;
    put_text(out, "error", text_in(&verdict.wrong))
}

// The line on a file as an object.
fn object_on(alloc: Global, file: &str, verdict: &Verdict) -> Result<Vec<u8>, AllocError> {
    let mut out = Writer::new(Vec::with_capacity(alloc, 256)?);
    out.token(Token::BeginObject)?;
    put_members(alloc, file, verdict, &mut out)?;
    out.token(Token::EndObject)?;
    let mut line = out.into_inner();
    line.push(b'\n')?;
    Ok(line)
}

// Writes the line on a file, or where there is to be no output says on standard error what is wrong with it.
fn put_line<O: Write, E: Pace>(
    file: &str,
    verdict: &Verdict,
    task: VerifyTask<'_>,
    console: &mut Console<'_, O, E>,
) -> Result<(), ProgramError> {
    if task.quiet {
        if let Some(wrong) = &verdict.wrong {
            console.report(file, wrong);
        }
        return Ok(());
    }
    if task.json {
        let line = object_on(console.alloc, file, verdict)?;
        return console.put(line.as_slice());
    }
    let line = line_on(console.alloc, file, verdict)?;
    console.put(line.as_bytes())
}

// Writes of what was got of a file what is wrong with it, if something is, and answers whether nothing is.
fn put_verdict<O: Write, E: Pace>(
    file: &str,
    got: Result<Database, MaxMindDbError>,
    task: VerifyTask<'_>,
    console: &mut Console<'_, O, E>,
) -> Result<bool, ProgramError>
    ensures whole { IfOk result (λ is_right. is_right ≡ true → IsOkAnd got IsWhole) }
    ensures readable { task.entry.whole ≡ false
        → IfOk result (λ is_right. is_right ≡ true → IsOkAnd got HasReadableRecords) }
{
    let verdict = verdict_of(console.alloc, got, task)?;
    let is_right = verdict.wrong.is_none();
    let put = put_line(file, &verdict, task, console);
    drop(verdict);
    put?;
    Ok(is_right)
}

// Writes of a file what is wrong with it, if something is, and answers whether nothing is.
fn verify_one<R: Files + Env, O: Write, E: Pace>(
    rt: &R,
    file: &str,
    task: VerifyTask<'_>,
    console: &mut Console<'_, O, E>,
) -> Result<bool, ProgramError> {
    let Opened { path, got } = open_found(rt, file, console);
    let is_right = put_verdict(file, got, task, console)?;
    if !is_right {
        note_archive(rt, path_or(&path, file), console);
    }
    drop(path);
    Ok(is_right)
}

// When a file was built, none where it can't be opened, which is reported.
fn epoch_of<R: Files + Env, O: Write, E: Pace>(
    rt: &R,
    file: &str,
    console: &mut Console<'_, O, E>,
) -> Option<u64> {
    let database = open_database(rt, file, console)?;
    let built = database.metadata().build_epoch;
    drop(database);
    Some(built)
}

// Verifies files as a task says, and answers the status.
fn verify_all<R: Files + Env, O: Write, E: Pace>(
    rt: &R,
    files: &[&str],
    task: VerifyTask<'_>,
    console: &mut Console<'_, O, E>,
) -> Result<u8, ProgramError> {
    let mut status = DONE;
    for (passed, file) in files.iter().enumerate() {
        if passed > 0 {
            console.show_progress("files", Passed::of(passed as u64));
        }
        if !verify_one(rt, file, task, console)? {
            status = FAILED;
        }
    }
    Ok(status)
}

/// Writes of each file what is wrong with it, if something is, and answers the status: whether it is whole and, unless only
/// that is asked, all its records can be read, and whether it is of the type and the time that are asked for. An `Err` where an
/// argument is not what is wanted in its place, standard output can't be written, or out of memory.
pub fn verify<R: Files + Env + Clock, O: Write, E: Pace>(
    rt: &R,
    arguments: &VerifyArguments<'_>,
    console: &mut Console<'_, O, E>,
) -> Result<u8, ProgramError> {
    console.names_found = !arguments.quiet;
    let mut task = VerifyTask {
        whole: arguments.whole,
        database_type: None,
        after: None,
        most_age: None,
        json: arguments.json,
        quiet: arguments.quiet,
    };
    if let Some(text) = arguments.database_type {
        task.database_type = Some(pattern_of(console.alloc, text)?);
    }
    if let Some(days) = arguments.max_age {
        task.most_age = Some(most_age_of(rt, console.alloc, days)?);
    }
    if let Some(old) = arguments.newer_than {
        task.after = epoch_of(rt, old, console);
        if task.after.is_none() {
            return Ok(FAILED);
        }
    }
    verify_all(rt, arguments.files.as_slice(), task, console)
}
