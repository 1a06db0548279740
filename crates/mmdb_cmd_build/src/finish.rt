//! The file of rows that were gathered.
use crate::check::first_difference;
use crate::gather::Gathering;
use crate::kept::KeptRows;
use crate::notes::{note, report_write};
use crate::replaceable::may_replace;
use crate::scalars::type_name;
use crate::summary::{Summary, summary_of};
use crate::taken::TakenRows;
use crate::task::BuildTask;
use crate::types::Types;
use crate::unmet::report_unmet;
use mmdb_arguments::Reserved;
use mmdb_blocks::{Block, BlockKind};
use mmdb_console::{Console, DONE, FAILED, ProgramError, note_remarks, report_replace};
use mmdb_files::{PendingFile, ReplaceError, SharedFiles, begin_file};
use mmdb_format::kind::Kind;
use mmdb_layout::{Database, open_at};
use mmdb_writer::{WriteError, Writer};
use std::alloc::{AllocError, Global};
use std::io::Write;
use std::time::Clock;

// How the rows fared.
fn text_of_rows(
    alloc: Global,
    task: &BuildTask<'_>,
    gathering: &Gathering,
) -> Result<String, AllocError> {
    let networks = gathering.taken.networks;
    let reserved = gathering.taken.reserved;
    let bad = gathering.bad.lines;
    let how = if task.reserved == Reserved::Skip {
        "left out"
    } else {
        "among them"
    };
    format!(in alloc;
        "mmdb: {networks} networks taken, {reserved} reserved {how}, {bad} lines left out"
    )
}

// Says how many rows have addresses of IPv4 that are written as ones of IPv6, if some have.
fn note_mapped<O: Write, E: Write>(mapped: u64, console: &mut Console<'_, O, E>) {
    if mapped > 0 {
        note(
            console,
            format!(in console.alloc; "mmdb: {mapped} lines within ::ffff:0:0/96 are of IPv4"),
        );
    }
}

// The names of types.
fn text_of_types(alloc: Global, kinds: &[Kind]) -> Result<String, AllocError> {
    let mut text = String::new(alloc);
    for kind in kinds {
        if !text.is_empty() {
            text.push_str(", ")?;
        }
        text.push_str(type_name(*kind))?;
    }
    Ok(text)
}

// Says which paths got values of several types, if some did: the first, and how many there are.
fn note_several<O: Write, E: Write>(
    found: &Types,
    console: &mut Console<'_, O, E>,
) -> Result<(), AllocError> {
    let alloc = console.alloc;
    let several = found.first_several(alloc)?;
    for node in &several.shown {
        let path = node.shown_path();
        let types = text_of_types(alloc, &node.kinds)?;
        note(
            console,
            format!(in alloc; "mmdb: {path} got several types: {types}"),
        );
    }
    if let Some(count) = several.count_of_more() {
        note(
            console,
            format!(in alloc; "mmdb: {count} paths got several types"),
        );
    }
    Ok(())
}

// What the file has.
fn text_of_file(alloc: Global, out: &str, summary: Summary) -> Result<String, AllocError> {
    let Summary {
        networks,
        records,
        nodes,
        bytes,
    } = summary;
    format!(in alloc;
        "mmdb: {out}: {networks} networks, {records} records, {nodes} nodes, {bytes} bytes"
    )
}

// Reports the lines that are wrong, and whether there is something that rules out a file.
fn report_bad<O: Write, E: Write>(
    task: &BuildTask<'_>,
    gathering: &Gathering,
    console: &mut Console<'_, O, E>,
) -> bool {
    let bad = &gathering.bad;
    bad.report(task.from_name(), console);
    let ends_here = gathering.has_no_header || gathering.has_open_quote;
    if bad.lines == 0 || (task.skip_bad && !ends_here) {
        return false;
    }
    let (from, count) = (task.from_name(), bad.lines);
    note(
        console,
        format!(in console.alloc; "mmdb: {from}: {count} lines are wrong"),
    );
    true
}

// Reports that there is nothing of which a file could be made.
fn report_nothing<O: Write, E: Write>(task: &BuildTask<'_>, console: &mut Console<'_, O, E>) {
    let (from, out) = (task.from_name(), task.out);
    note(
        console,
        format!(in console.alloc; "mmdb: {from}: no network with a record; {out} is not touched"),
    );
}

// An address by its number, as one network.
fn text_of_number(alloc: Global, number: u128) -> Result<String, AllocError> {
    let kind = if number < 1 << 32 {
        BlockKind::Ipv4
    } else {
        BlockKind::Ipv6
    };
    let block = Block {
        first: number,
        prefix: 128,
    };
    match kind.network_of(block) {
        Ok(network) => network.to_string(alloc),
        Err(_) => String::from_str(alloc, "an address"),
    }
}

// Whether a database has what the rows say. Where it does not, that is reported.
fn is_as_said<O: Write, E: Write>(
    task: &BuildTask<'_>,
    database: &Database,
    kept: &KeptRows,
    console: &mut Console<'_, O, E>,
) -> Result<bool, ProgramError> {
    let Some(number) = first_difference(console.alloc, database, kept)? else {
        let out = task.out;
        note(
            console,
            format!(in console.alloc; "mmdb: {out}: every network is read back as the lines say"),
        );
        return Ok(true);
    };
    let at = text_of_number(console.alloc, number)?;
    let text: String = format!(in console.alloc; "{at} is not read back as the lines say")?;
    console.report(task.out, &text);
    Ok(false)
}

// Reads a file back, and says whether it has what the rows say. Where it does not, that is reported.
fn check<R: SharedFiles, O: Write, E: Write>(
    rt: &R,
    task: &BuildTask<'_>,
    pending: &PendingFile<R>,
    kept: KeptRows,
    console: &mut Console<'_, O, E>,
) -> Result<bool, ProgramError> {
    let mut kept = kept;
    kept.sort()?;
    match open_at(rt, pending.path(), console) {
        Some(database) => {
            let is_right = is_as_said(task, &database, &kept, console);
            drop(database);
            is_right
        }
        None => Ok(false),
    }
}

// Whether a file that was made may take OUT's place: whether OUT may be replaced, and the file has what the rows say, where that
// is asked for. Why not is reported.
fn is_right<R: SharedFiles, O: Write, E: Write>(
    rt: &R,
    task: &BuildTask<'_>,
    pending: &PendingFile<R>,
    kept: Option<KeptRows>,
    console: &mut Console<'_, O, E>,
) -> Result<bool, ProgramError> {
    let may = may_replace(rt, task.out, console)?;
    match kept {
        Some(kept) if may => check(rt, task, pending, kept, console),
        _ => Ok(may),
    }
}

// Gives a file that was made its name, and answers the status.
fn put_in_place<R: SharedFiles, O: Write, E: Write>(
    rt: &R,
    task: &BuildTask<'_>,
    pending: PendingFile<R>,
    summary: Summary,
    console: &mut Console<'_, O, E>,
) -> Result<u8, ProgramError> {
    match pending.take_place(rt) {
        Ok(()) => {
            note(console, text_of_file(console.alloc, task.out, summary));
            Ok(DONE)
        }
        Err(error) => report_replace(task.out, error, console),
    }
}

// Checks a file that was made, gives it its name, and answers the status.
fn check_and_put<R: SharedFiles, O: Write, E: Write>(
    rt: &R,
    task: &BuildTask<'_>,
    pending: PendingFile<R>,
    summary: Summary,
    kept: Option<KeptRows>,
    console: &mut Console<'_, O, E>,
) -> Result<u8, ProgramError> {
    match is_right(rt, task, &pending, kept, console) {
        Ok(true) => put_in_place(rt, task, pending, summary, console),
        Ok(false) => {
            pending.remove(rt);
            Ok(FAILED)
        }
        Err(error) => {
            pending.remove(rt);
            Err(error)
        }
    }
}

// Makes a file of bytes beside its place.
fn filled<R: SharedFiles + Clock>(
    rt: &R,
    alloc: Global,
    out: &str,
    bytes: &[u8],
) -> Result<PendingFile<R>, ReplaceError> {
    let mut pending = begin_file(rt, alloc, out)?;
    match pending.write_all(bytes) {
        Ok(()) => Ok(pending),
        Err(error) => {
            pending.remove(rt);
            Err(ReplaceError::Io(error))
        }
    }
}

// Makes the file beside its place, with what it has, which is at least one network with a record.
fn make<R: SharedFiles + Clock, O: Write, E: Write>(
    rt: &R,
    task: &BuildTask<'_>,
    bytes: Vec<u8>,
    kept: Option<KeptRows>,
    console: &mut Console<'_, O, E>,
) -> Result<u8, ProgramError> {
    let summary = summary_of(console.alloc, &bytes)?;
    if summary.networks == 0 {
        report_nothing(task, console);
        return Ok(FAILED);
    }
    let filled = filled(rt, console.alloc, task.out, &bytes);
    drop(bytes);
    match filled {
        Ok(pending) => {
            note_remarks(task.out, &pending, console);
            check_and_put(rt, task, pending, summary, kept, console)
        }
        Err(error) => report_replace(task.out, error, console),
    }
}

// Writes the file of what was taken.
fn write<R: SharedFiles + Clock, O: Write, E: Write>(
    rt: &R,
    task: &BuildTask<'_>,
    writer: Writer,
    kept: Option<KeptRows>,
    console: &mut Console<'_, O, E>,
) -> Result<u8, ProgramError> {
    match writer.write(console.alloc) {
        Ok(bytes) => make(rt, task, bytes, kept, console),
        Err(error) => report_write(task.out, error, console),
    }
}

// Makes the file of what was taken, and answers the status.
fn finish_taken<R: SharedFiles + Clock, O: Write, E: Write>(
    rt: &R,
    task: &BuildTask<'_>,
    types: &Types,
    taken: TakenRows,
    console: &mut Console<'_, O, E>,
) -> Result<u8, ProgramError> {
    note_several(&taken.found, console)?;
    if report_unmet(task, types, &taken.found, console)? {
        drop(taken);
        return Ok(FAILED);
    }
    let TakenRows { writer, kept, .. } = taken;
    write(rt, task, writer, kept, console)
}

/// Makes the file of what was gathered, and answers the status.
pub(crate) fn finish<R: SharedFiles + Clock, O: Write, E: Write>(
    rt: &R,
    task: &BuildTask<'_>,
    types: &Types,
    gathering: Gathering,
    console: &mut Console<'_, O, E>,
) -> Result<u8, ProgramError> {
    let is_ruled_out = report_bad(task, &gathering, console);
    if gathering.is_too_large {
        drop(gathering);
        return report_write(task.out, WriteError::TooLarge, console);
    }
    if is_ruled_out {
        drop(gathering);
        return Ok(FAILED);
    }
    note(console, text_of_rows(console.alloc, task, &gathering));
    note_mapped(gathering.taken.mapped, console);
    let Gathering { taken, .. } = gathering;
    if !taken.has_value {
        drop(taken);
        report_nothing(task, console);
        return Ok(FAILED);
    }
    finish_taken(rt, task, types, taken, console)
}
