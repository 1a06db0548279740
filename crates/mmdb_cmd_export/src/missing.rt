//! Values of conditions that no network has: a list by a value that is misspelt would have nothing, or too much.

use crate::absent_paths::note_absent_path;
use crate::conditions::{NamedValue, Role};
use crate::gathering::Listed;
use crate::listed_values::{FileSearch, searches_of};
use crate::look::Look;
use crate::meant::Seekers;
use crate::several::Several;
use crate::task::ExportTask;
use mmdb_blocks::Kinds;
use mmdb_console::{Console, ProgramError, line_of};
use mmdb_layout::{ReadAlong, Requirement, split_condition};
use mmdb_query::Answer;
use mmdb_query_forms::Along;
use mmdb_reader::{MaxMindDbError, PathElement};
use std::alloc::{AllocError, Global};
use std::io::Write;

/// For how many values at most that no network has it is looked for what was meant.
const MOST_SOUGHT: usize = 100;

/// What lets a list be written without a value.
const GOES_ON: &str = "; --allow-missing goes on without it";

/// What lets a list be written without the values of a file.
const GO_ON: &str = "; --allow-missing goes on without them";

/// What becomes of a list where no network has a value.
#[derive(Clone, Copy)]
enum Lack {
    /// It is written, and nothing is said.
    Passed,
    /// It is written, and what no network has is said.
    Noted,
    /// It is not written without what is said here.
    Refused(&'static str),
}

// What becomes of a list that may lack networks, or else needs an argument.
fn refused_unless(may_lack: bool, hint: &'static str) -> Lack {
    if may_lack {
        Lack::Noted
    } else {
        Lack::Refused(hint)
    }
}

// What becomes of a list of which no network is chosen: it has the blocks that are added, or none.
fn lack_of_all(task: &ExportTask<'_>, hint: &'static str) -> Lack {
    if task.allow_empty {
        Lack::Passed
    } else if task.allow_missing {
        // a list without any block is not written for all that
        Lack::Noted
    } else if task.has_more {
        refused_unless(task.may_lack(), hint)
    } else {
        refused_unless(task.may_lack(), "; --allow-empty writes an empty list")
    }
}

/// Which of the values that conditions name some network has.
#[derive(Drop)]
struct Search<'a> {
    alloc: Global,
    named: &'a [NamedValue<'a>],
    are_met: Vec<bool>,
    /// The values of files that no network has so far.
    files: Vec<FileSearch<'a>>,
}

// Whether a value is met by a record. One that can't be read meets none: it is reported when the networks are written.
fn meets<R: ReadAlong>(
    alloc: Global,
    named: &NamedValue<'_>,
    found: &R,
) -> Result<bool, ProgramError> {
    match named.condition.holds(alloc, found) {
        Ok(is_met) => Ok(is_met),
        Err(MaxMindDbError::Memory) => Err(ProgramError::Memory),
        Err(_) => Ok(false),
    }
}

impl<'a> Search<'a> {
    fn new(
        alloc: Global,
        named: &'a [NamedValue<'a>],
        files: Vec<FileSearch<'a>>,
    ) -> Result<Search<'a>, AllocError> {
        Ok(Search {
            alloc,
            named,
            are_met: vec![in alloc; false; named.len()]?,
            files,
        })
    }

    fn is_done(&self) -> bool {
        self.are_met.iter().all(|is_met| *is_met) && self.files.iter().all(|file| file.is_done())
    }

    // Marks the values that the records of a network meet by the first that has a value.
    fn meet<R: ReadAlong>(&mut self, found: &R) -> Result<(), ProgramError> {
        for (named, is_met) in self.named.iter().zip(&mut self.are_met) {
            if !*is_met {
                *is_met = meets(self.alloc, named, found)?;
            }
        }
        for file in &mut self.files {
            file.meet(self.alloc, found)?;
        }
        Ok(())
    }

    // Whether some network has one of the values of which this is wanted at this path.
    fn is_served(&self, path: &[PathElement<'_>], wanted: Requirement) -> bool {
        let mut all = self.named.iter().zip(&self.are_met);
        all.any(|(named, is_met)| *is_met && named.serves(path, wanted))
            || self.files.iter().any(|file| file.serves(path, wanted))
    }

    // Whether no network is chosen where none has a value, nor one that serves as well.
    fn is_without_alternative(&self, value: &NamedValue<'_>) -> bool {
        let condition = &value.condition;
        match value.role {
            Role::Alternative => !self.is_served(condition.path.as_slice(), condition.wanted),
            Role::Needed => true,
            Role::Excluded => false,
        }
    }

    // What becomes of the list where no network has a value.
    fn lack_of(&self, value: &NamedValue<'_>, task: &ExportTask<'_>) -> Lack {
        if self.is_without_alternative(value) {
            lack_of_all(task, GOES_ON)
        } else if task.is_of_part() || task.allow_missing {
            // within a part it may be elsewhere in the database
            Lack::Passed
        } else {
            refused_unless(task.may_lack(), GOES_ON)
        }
    }

    // What becomes of the list where no network has any of the values of a file.
    fn lack_of_file(&self, file: &FileSearch<'_>, task: &ExportTask<'_>) -> Lack {
        if task.allow_missing || !file.is_all_missing() {
            Lack::Noted
        } else if file.wanted != Requirement::NoneOf
            && !self.is_served(file.present.path.as_slice(), file.wanted)
        {
            lack_of_all(task, GO_ON)
        } else {
            refused_unless(task.may_lack(), GO_ON)
        }
    }
}

impl Look for Search<'_> {
    fn look<A: Answer>(&mut self, answer: &A) -> Result<bool, ProgramError> {
        self.meet(&Along { answer })?;
        Ok(!self.is_done())
    }
}

// What no network has, as what it stands in its option.
fn missing_text(alloc: Global, named: &NamedValue<'_>) -> Result<String, AllocError> {
    let text = named.text;
    match named.condition.wanted {
        Requirement::Present => format!(in alloc; "the PATH of --where-has {text}"),
        Requirement::Part => format!(in alloc; "the TEXT of --where-contains {text}"),
        Requirement::Above => format!(in alloc; "what --where-above {text} asks for"),
        Requirement::Below => format!(in alloc; "what --where-below {text} asks for"),
        Requirement::OneOf | Requirement::NoneOf => String::from_str(alloc, text),
    }
}

// What is said of a value that no network has, with what may be meant.
fn missing_line(
    alloc: Global,
    task: &ExportTask<'_>,
    named: &NamedValue<'_>,
    meant: Option<&str>,
    hint: &str,
) -> Result<String, AllocError> {
    let of = if task.is_of_part() {
        " that is asked for"
    } else {
        ""
    };
    let missing = missing_text(alloc, named)?;
    match meant {
        Some(meant) => {
            format!(in alloc; "mmdb: no network{of} has {missing} (did you mean {meant}?){hint}")
        }
        None => format!(in alloc; "mmdb: no network{of} has {missing}{hint}"),
    }
}

// A value that no network has, and what lets a list be written without it.
#[derive(Clone, Copy)]
struct MissingValue<'a> {
    named: &'a NamedValue<'a>,
    hint: &'static str,
}

// The values that no network has of which something is said, and how many there are without which the list is not written.
fn missing_values<'a>(
    task: &ExportTask<'_>,
    search: &Search<'a>,
) -> Result<(Vec<MissingValue<'a>>, usize), AllocError> {
    let mut missing = Vec::new(search.alloc);
    let mut refused = 0usize;
    for (named, is_met) in search.named.iter().zip(&search.are_met) {
        if *is_met {
            continue;
        }
        let hint = match search.lack_of(named, task) {
            Lack::Passed => continue,
            Lack::Noted => "",
            Lack::Refused(hint) => {
                refused = refused.saturating_add(1);
                hint
            }
        };
        missing.push(MissingValue { named, hint })?;
    }
    Ok((missing, refused))
}

// What is looked for in place of the first of the values that no network has.
fn seekers_of<'a, 'd>(
    several: &Several<'d>,
    missing: &[MissingValue<'a>],
    alloc: Global,
) -> Result<Seekers<'a, 'd>, AllocError> {
    let mut seekers = Seekers::new(alloc, several)?;
    for value in missing.iter().take(MOST_SOUGHT) {
        seekers.add(value.named)?;
    }
    Ok(seekers)
}

// Reports the values that no network has, and answers how many there are without which the list is not written.
fn report_named<O: Write, E: Write>(
    several: &Several<'_>,
    task: &ExportTask<'_>,
    search: &Search<'_>,
    console: &mut Console<'_, O, E>,
) -> Result<usize, ProgramError> {
    let alloc = console.alloc;
    let (missing, refused) = missing_values(task, search)?;
    let mut seekers = seekers_of(several, missing.as_slice(), alloc)?;
    if seekers.count() > 0 {
        several.look(alloc, Kinds::Both, &mut seekers)?;
    }
    for (number, value) in missing.iter().enumerate() {
        let meant = seekers.meant(number)?;
        let line = missing_line(alloc, task, value.named, meant.as_deref(), value.hint);
        console.note(line_of(alloc, line));
    }
    Ok(refused)
}

// Says of the paths of files of whose values no network has any that no record has them, if none has.
fn note_paths<O: Write, E: Write>(
    several: &Several<'_>,
    search: &Search<'_>,
    console: &mut Console<'_, O, E>,
) -> Result<(), ProgramError> {
    for file in search.files.iter().filter(|file| file.is_all_missing()) {
        if let Some((path, _)) = split_condition(file.condition) {
            note_absent_path(several, path, console)?;
        }
    }
    Ok(())
}

// Reports the values of files that no network has, and answers for how many files the list is not written.
fn report_files<O: Write, E: Write>(
    task: &ExportTask<'_>,
    search: &Search<'_>,
    console: &mut Console<'_, O, E>,
) -> usize {
    let mut refused = 0usize;
    for file in &search.files {
        let hint = match search.lack_of_file(file, task) {
            Lack::Refused(hint) => {
                refused = refused.saturating_add(1);
                hint
            }
            Lack::Passed | Lack::Noted => "",
        };
        file.report(task.is_of_part(), hint, console);
    }
    refused
}

// Reports the values that no network has, and answers whether the list is written for all that.
fn report_search<O: Write, E: Write>(
    several: &Several<'_>,
    task: &ExportTask<'_>,
    search: &Search<'_>,
    console: &mut Console<'_, O, E>,
) -> Result<bool, ProgramError> {
    let named = report_named(several, task, search, console)?;
    let files = report_files(task, search, console);
    note_paths(several, search, console)?;
    Ok(named == 0 && files == 0)
}

/// Whether networks of these kinds have all the values that a list's conditions name, or may lack them. Those that none has are
/// reported, each with one that may be meant. It is known before anything is written.
pub(crate) fn are_values_met<'a, O: Write, E: Write>(
    listed: &Listed<'a, '_>,
    console: &mut Console<'_, O, E>,
) -> Result<bool, ProgramError> {
    let task = listed.task;
    let files = searches_of(console.alloc, task.files)?;
    let mut search = Search::new(console.alloc, task.named.as_slice(), files)?;
    listed
        .several
        .look(console.alloc, listed.kinds, &mut search)?;
    report_search(listed.whole, task, &search, console)
}
