//! What changes in a list of networks.
use crate::adjusted::{KINDS, push_blocks};
use crate::blocks::of_list;
use crate::gathering::{Adjustment, Gathered, Listed, of_ranges};
use crate::inputs::{ValueFile, read_adjustment, read_value_files};
use crate::looked::looked_at;
use crate::networks::check_arguments;
use crate::reports::report_faults;
use crate::several::Several;
use crate::task::{ExportTask, Shape, export_task};
use mmdb_arguments::ListDiffArguments;
use mmdb_blocks::{Block, BlockKind, Kinds, List, RangesError, blocks_without};
use mmdb_console::{Console, DIFFERENT, DONE, FAILED, Pace, ProgramError, note_range, range_of};
use mmdb_layout::{NamedDatabase, can_be_walked, open_database, range_asked};
use mmdb_reader::IpNetwork;
use std::alloc::Global;
use std::env::Env;
use std::io::{BufRead, Write};
use std::rt::Files;

/// What changes in a list, of one kind of addresses.
#[derive(Drop)]
struct BlockChanges {
    removed: Vec<Block>,
    added: Vec<Block>,
    /// Whether the new list has blocks.
    has_new: bool,
}

/// What changes in a list.
#[derive(Drop)]
struct ListChanges {
    ipv4: BlockChanges,
    ipv6: BlockChanges,
}

impl ListChanges {
    fn of(&self, kind: BlockKind) -> &BlockChanges {
        match kind {
            BlockKind::Ipv4 => &self.ipv4,
            BlockKind::Ipv6 => &self.ipv6,
        }
    }

    // Whether the new list has no blocks of some kinds.
    fn is_empty(&self, kinds: Kinds) -> bool {
        !KINDS
            .iter()
            .any(|kind| kinds.has(*kind) && self.of(*kind).has_new)
    }

    // Whether nothing changes.
    fn is_none(&self) -> bool {
        self.ipv4.is_none() && self.ipv6.is_none()
    }
}

impl BlockChanges {
    fn is_none(&self) -> bool {
        self.removed.is_empty() && self.added.is_empty()
    }
}

// What changes between the lists of two databases, of a kind.
fn changes_of(
    alloc: Global,
    old: &Gathered,
    newer: &Gathered,
    adjustment: &Adjustment,
    kind: BlockKind,
) -> Result<BlockChanges, RangesError> {
    let old = adjustment.blocks_of(alloc, &old.chosen, kind)?;
    let newer = adjustment.blocks_of(alloc, &newer.chosen, kind)?;
    let removed = blocks_without(alloc, &old, &newer)?;
    let added = blocks_without(alloc, &newer, &old)?;
    Ok(BlockChanges {
        removed,
        added,
        has_new: !newer.is_empty(),
    })
}

// What changes between the lists of two databases.
fn list_changes(
    alloc: Global,
    old: &Gathered,
    newer: &Gathered,
    adjustment: &Adjustment,
) -> Result<ListChanges, RangesError> {
    let ipv4 = changes_of(alloc, old, newer, adjustment, BlockKind::Ipv4)?;
    let ipv6 = changes_of(alloc, old, newer, adjustment, BlockKind::Ipv6)?;
    Ok(ListChanges { ipv4, ipv6 })
}

// Writes what changes, first what is taken out.
fn write_changes<O: Write>(
    alloc: Global,
    task: &ExportTask<'_>,
    changes: &ListChanges,
    out: &mut O,
) -> Result<(), ProgramError> {
    let Shape::List(syntax) = &task.shape else {
        return Ok(());
    };
    if changes.is_empty(task.kinds) && !task.allow_empty && !task.may_lack() {
        return Err(ProgramError::EmptyList);
    }
    let mut list = List::of_changes(alloc, *syntax, task.kinds)?;
    for kind in KINDS {
        push_blocks(kind, changes.of(kind).removed.as_slice(), &mut list, out)?;
    }
    of_list(list.go_on_to_add(out))?;
    for kind in KINDS {
        push_blocks(kind, changes.of(kind).added.as_slice(), &mut list, out)?;
    }
    of_list(list.finish(out))?;
    of_list(list.end(out))
}

// The chosen addresses of the old database.
fn gather_old<'d, O: Write, E: Pace>(
    old: &'d [NamedDatabase<'d>],
    task: &ExportTask<'_>,
    console: &mut Console<'_, O, E>,
) -> Result<Gathered, ProgramError> {
    let looked = looked_at(old, task)?;
    let several = Several::new(console.alloc, &*old, looked.range)?;
    let whole = Several::new(console.alloc, &*old, task.range)?;
    let listed = Listed {
        several: &several,
        whole: &whole,
        task,
        kinds: looked.kinds,
    };
    listed.gather(console)
}

// The chosen addresses of the new database; none where no list may be written, which is reported.
fn gather_new<'d, O: Write, E: Pace>(
    newer: &'d [NamedDatabase<'d>],
    task: &ExportTask<'_>,
    console: &mut Console<'_, O, E>,
) -> Result<Option<Gathered>, ProgramError> {
    let looked = looked_at(newer, task)?;
    let several = Several::new(console.alloc, &*newer, looked.range)?;
    let whole = Several::new(console.alloc, &*newer, task.range)?;
    let listed = Listed {
        several: &several,
        whole: &whole,
        task,
        kinds: looked.kinds,
    };
    listed.gather_met(console)
}

// Writes what changes between the lists of two databases, and answers the status. Where a network can't be read nothing is
// written, since it may be in a list, and a block of it would be taken out.
fn compare<'d, O: Write, E: Pace>(
    old: &'d [NamedDatabase<'d>],
    newer: &'d [NamedDatabase<'d>],
    task: &ExportTask<'_>,
    adjustment: &Adjustment,
    exit_code: bool,
    console: &mut Console<'_, O, E>,
) -> Result<u8, ProgramError> {
    let Some(newer) = gather_new(newer, task, console)? else {
        return Ok(FAILED);
    };
    let old = gather_old(old, task, console)?;
    let faults = old.faults.saturating_add(newer.faults);
    if faults > 0 {
        return report_faults(faults, console);
    }
    let changes = match list_changes(console.alloc, &old, &newer, adjustment) {
        Ok(changes) => changes,
        Err(error) => return Err(of_ranges(error)),
    };
    write_changes(console.alloc, task, &changes, console.out)?;
    if exit_code && !changes.is_none() {
        return Ok(DIFFERENT);
    }
    Ok(DONE)
}

// Opens both files and writes what changes between their lists, and answers the status.
fn compare_files<R: Files + Env, I: BufRead, O: Write, E: Pace>(
    rt: &R,
    arguments: &ListDiffArguments<'_>,
    range: Option<IpNetwork>,
    files: &[ValueFile<'_>],
    input: &mut I,
    console: &mut Console<'_, O, E>,
) -> Result<u8, ProgramError> {
    let mut task = export_task(console.alloc, &arguments.newer, range, files)?;
    note_range(task.range, console);
    let Some(adjustment) = read_adjustment(rt, &arguments.newer.list, input, console)? else {
        return Ok(FAILED);
    };
    let Some(old) = open_database(rt, arguments.old, console) else {
        return Ok(FAILED);
    };
    let Some(newer) = open_database(rt, arguments.newer.file, console) else {
        return Ok(FAILED);
    };
    task.range = range_asked(&[&old, &newer], task.range, console)?;
    if !can_be_walked(&old, arguments.old, task.range, console)?
        || !can_be_walked(&newer, arguments.newer.file, task.range, console)?
    {
        return Ok(FAILED);
    }
    let old = [NamedDatabase {
        name: arguments.old,
        database: old,
    }];
    let newer = [NamedDatabase {
        name: arguments.newer.file,
        database: newer,
    }];
    compare(
        &old,
        &newer,
        &task,
        &adjustment,
        arguments.exit_code,
        console,
    )
}

/// Writes what changes in a list of networks between two files: what takes the blocks out that only the old list has, and
/// what puts those in that only the new list has; nothing where a network can't be read. Reports each of these, and answers
/// the status. An `Err` as of `export`.
pub fn list_diff<R: Files + Env, I: BufRead, O: Write, E: Pace>(
    rt: &R,
    arguments: &ListDiffArguments<'_>,
    input: &mut I,
    console: &mut Console<'_, O, E>,
) -> Result<u8, ProgramError> {
    let range = range_of(console.alloc, arguments.newer.range)?;
    check_arguments(console.alloc, &arguments.newer, range)?;
    let Some(files) = read_value_files(rt, &arguments.newer, input, console)? else {
        return Ok(FAILED);
    };
    compare_files(rt, arguments, range, files.as_slice(), input, console)
}
