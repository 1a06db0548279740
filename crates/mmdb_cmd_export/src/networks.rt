//! The chosen networks of a range, written out.
use crate::adjusted::write_adjusted;
use crate::asked::{AskedTexts, asked_texts};
use crate::gathering::{Adjustment, Listed};
use crate::inputs::{ValueFile, check_inputs, read_adjustment, read_value_files};
use crate::looked::looked_at;
use crate::reports::report_faults;
use crate::rows::write_rows;
use crate::several::Several;
use crate::task::{ExportTask, Shape, export_task};
use mmdb_arguments::{ExportArguments, NoRequest};
use mmdb_blocks::Syntax;
use mmdb_console::{Console, FAILED, Pace, ProgramError, note_range};
use mmdb_layout::{
    BesideFiles, NamedDatabase, can_be_walked, open_database, open_named, range_asked,
};
use mmdb_reader::IpNetwork;
use std::alloc::Global;
use std::env::Env;
use std::io::{BufRead, Write};
use std::rt::Files;

// Writes the list of the chosen networks with what is added and without what is taken away, and answers the status.
fn export_adjusted<O: Write, E: Pace>(
    listed: &Listed<'_, '_>,
    syntax: Syntax<'_>,
    adjustment: &Adjustment,
    console: &mut Console<'_, O, E>,
) -> Result<u8, ProgramError> {
    let gathered = listed.gather(console)?;
    write_adjusted(
        console.alloc,
        listed.task,
        syntax,
        &gathered,
        adjustment,
        console.out,
    )?;
    report_faults(gathered.faults, console)
}

// Writes the list of the chosen networks of databases, reports each that can't be read, and answers the status.
fn export_list<O: Write, E: Pace>(
    listed: &Listed<'_, '_>,
    syntax: Syntax<'_>,
    adjustment: Option<&Adjustment>,
    console: &mut Console<'_, O, E>,
) -> Result<u8, ProgramError> {
    if listed.several.are_several() && !listed.several.can_be_asked(console)? {
        return Ok(FAILED);
    }
    if !listed.may_be_written(console)? {
        return Ok(FAILED);
    }
    if let Some(adjustment) = adjustment {
        return export_adjusted(listed, syntax, adjustment, console);
    }
    match listed.several.alone() {
        Some(database) => listed.write_one(database, syntax, console),
        None => export_adjusted(
            listed,
            syntax,
            &Adjustment::of_nothing(console.alloc),
            console,
        ),
    }
}

// Writes the rows or the list of databases, and answers the status.
fn export_databases<'d, O: Write, E: Pace>(
    databases: &'d [NamedDatabase<'d>],
    task: &ExportTask<'_>,
    adjustment: Option<&Adjustment>,
    console: &mut Console<'_, O, E>,
) -> Result<u8, ProgramError> {
    let whole = Several::new(console.alloc, &*databases, task.range)?;
    let syntax = match &task.shape {
        Shape::Rows(layout) => return write_rows(&whole, task, layout, console),
        Shape::List(syntax) => *syntax,
    };
    let looked = looked_at(databases, task)?;
    let several = Several::new(console.alloc, &*databases, looked.range)?;
    let listed = Listed {
        several: &several,
        whole: &whole,
        task,
        kinds: looked.kinds,
    };
    export_list(&listed, syntax, adjustment, console)
}

// Writes the rows or the list of databases in the range in which they are asked, and answers the status.
fn export_opened<O: Write, E: Pace>(
    databases: &[NamedDatabase<'_>],
    task: ExportTask<'_>,
    adjustment: Option<&Adjustment>,
    console: &mut Console<'_, O, E>,
) -> Result<u8, ProgramError> {
    let mut all = Vec::with_capacity(console.alloc, databases.len())?;
    for named in databases {
        all.push(&named.database)?;
    }
    let mut task = task;
    task.range = range_asked(all.as_slice(), task.range, console)?;
    drop(all);
    for named in databases {
        if !can_be_walked(&named.database, named.name, task.range, console)? {
            return Ok(FAILED);
        }
    }
    export_databases(databases, &task, adjustment, console)
}

// Opens a file, and writes its rows or its list.
fn export_file<R: Files + Env, O: Write, E: Pace>(
    rt: &R,
    name: &str,
    task: ExportTask<'_>,
    adjustment: Option<&Adjustment>,
    console: &mut Console<'_, O, E>,
) -> Result<u8, ProgramError> {
    match open_database(rt, name, console) {
        Some(database) => {
            export_opened(
                &[NamedDatabase { name, database }],
                task,
                adjustment,
                console,
            )
        }
        None => Ok(FAILED),
    }
}

// Opens files, and writes their rows or their list.
fn export_files<R: Files + Env, O: Write, E: Pace>(
    rt: &R,
    names: &[&str],
    task: ExportTask<'_>,
    adjustment: Option<&Adjustment>,
    console: &mut Console<'_, O, E>,
) -> Result<u8, ProgramError> {
    let databases = open_named(rt, names, BesideFiles::Networks, true, console)?;
    if databases.has_failed() {
        return Ok(FAILED);
    }
    export_opened(databases.open.as_slice(), task, adjustment, console)
}

// What is added to a list and taken away, if anything is; none where a file can't be read, which is reported.
fn adjustment_of<R: Files, I: BufRead, O: Write, E: Pace>(
    rt: &R,
    arguments: &ExportArguments<'_>,
    input: &mut I,
    console: &mut Console<'_, O, E>,
) -> Result<Option<Option<Adjustment>>, ProgramError> {
    let list = &arguments.list;
    if list.also.is_empty() && list.except.is_empty() {
        return Ok(Some(None));
    }
    match read_adjustment(rt, list, input, console)? {
        Some(adjustment) => Ok(Some(Some(adjustment))),
        None => Ok(None),
    }
}

// Writes the chosen networks by conditions with the values of files, and answers the status.
fn export_with_values<R: Files + Env, I: BufRead, O: Write, E: Pace>(
    rt: &R,
    asked: &AskedTexts<'_>,
    arguments: &ExportArguments<'_>,
    files: &[ValueFile<'_>],
    input: &mut I,
    console: &mut Console<'_, O, E>,
) -> Result<u8, ProgramError> {
    let task = export_task(console.alloc, arguments, asked.range, files)?;
    note_range(task.range, console);
    let Some(adjustment) = adjustment_of(rt, arguments, input, console)? else {
        return Ok(FAILED);
    };
    match asked.files.as_slice() {
        [file] => export_file(rt, *file, task, adjustment.as_ref(), console),
        files => export_files(rt, files, task, adjustment.as_ref(), console),
    }
}

/// Writes the chosen networks of a range, of one database or of several side by side, reports each that can't be read, and
/// answers the status. An `Err` where an
/// argument is not what is wanted in its place, before a file is opened; where the range can't be asked, standard output
/// can't be written, the networks do not ascend, or out of memory.
pub fn export<R: Files + Env, I: BufRead, O: Write, E: Pace>(
    rt: &R,
    arguments: &ExportArguments<'_>,
    input: &mut I,
    console: &mut Console<'_, O, E>,
) -> Result<u8, ProgramError> {
    let asked = asked_texts(console.alloc, arguments)?;
    check_arguments(console.alloc, arguments, asked.range)?;
    let Some(files) = read_value_files(rt, arguments, input, console)? else {
        return Ok(FAILED);
    };
    export_with_values(rt, &asked, arguments, files.as_slice(), input, console)
}

/// An `Err` where an argument is not what is wanted in its place.
pub(crate) fn check_arguments(
    alloc: Global,
    arguments: &ExportArguments<'_>,
    range: Option<IpNetwork>,
) -> Result<(), NoRequest> {
    check_inputs(alloc, arguments)?;
    let task = export_task(alloc, arguments, range, &[])?;
    drop(task);
    Ok(())
}
