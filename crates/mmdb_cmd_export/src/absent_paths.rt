//! Paths of conditions that no record has: rows would be none, or all, without a word.
use crate::look::{FirstRecords, Look};
use crate::meant::path_in;
use crate::several::Several;
use crate::task::ExportTask;
use mmdb_arguments::NoRequest;
use mmdb_blocks::Kinds;
use mmdb_console::{Console, ProgramError, line_of, wanted_path};
use mmdb_layout::{Condition, Requirement, Texts, absent_text, split_condition};
use mmdb_query::Answer;
use mmdb_query_forms::Along;
use std::alloc::{AllocError, Global};
use std::io::Write;

// Adds a path, unless it is there.
fn add_path<'a>(path: &'a str, paths: &mut Vec<&'a str>) -> Result<(), AllocError> {
    if !paths.contains(&path) {
        paths.push(path)?;
    }
    Ok(())
}

// The paths of conditions, as they are written, each once.
fn paths_of<'a>(alloc: Global, task: &ExportTask<'a>) -> Result<Vec<&'a str>, AllocError> {
    let mut paths = Vec::new(alloc);
    for named in &task.named {
        add_path(path_in(named), &mut paths)?;
    }
    for file in task.files {
        if let Some((path, _)) = split_condition(file.condition) {
            add_path(path, &mut paths)?;
        }
    }
    Ok(paths)
}

// The condition that there is a value at a path.
fn presence_at<'a>(alloc: Global, path: &'a str) -> Result<Condition<'a>, NoRequest> {
    Ok(Condition {
        path: wanted_path(alloc, path)?,
        texts: Texts::new(alloc),
        wanted: Requirement::Present,
    })
}

// Looks for a record that has a value at a path. What can't be read was reported.
#[derive(Drop)]
struct PathLook<'d, 'c> {
    alloc: Global,
    condition: Condition<'c>,
    is_met: bool,
    first: FirstRecords<'d>,
}

impl Look for PathLook<'_, '_> {
    fn look<A: Answer>(&mut self, answer: &A) -> Result<bool, ProgramError> {
        self.first.add(answer)?;
        let holds = self.condition.holds(self.alloc, &Along { answer });
        self.is_met = !matches!(holds, Ok(false));
        Ok(!self.is_met)
    }
}

impl PathLook<'_, '_> {
    // Says of a path that no record has it, unless there is none.
    fn note<O: Write, E: Write>(
        &self,
        path: &str,
        console: &mut Console<'_, O, E>,
    ) -> Result<(), ProgramError> {
        if self.is_met || self.first.records().is_empty() {
            return Ok(());
        }
        console.flush()?;
        let text = absent_text(self.alloc, "no record", path, self.first.records());
        console.note(line_of(self.alloc, text));
        Ok(())
    }
}

/// Says of a path of a condition that no record of databases has it, if none has, with one that may be meant. Without memory
/// for it nothing is said.
pub(crate) fn note_absent_path<O: Write, E: Write>(
    several: &Several<'_>,
    path: &str,
    console: &mut Console<'_, O, E>,
) -> Result<(), ProgramError> {
    let mut looked = PathLook {
        alloc: console.alloc,
        condition: presence_at(console.alloc, path)?,
        is_met: false,
        first: FirstRecords::new(console.alloc, several),
    };
    match several.look(console.alloc, Kinds::Both, &mut looked) {
        Ok(()) => looked.note(path, console),
        Err(_) => Ok(()),
    }
}

/// The same of each path of a condition.
pub(crate) fn note_absent_paths<O: Write, E: Write>(
    several: &Several<'_>,
    task: &ExportTask<'_>,
    console: &mut Console<'_, O, E>,
) -> Result<(), ProgramError> {
    for path in paths_of(console.alloc, task)? {
        note_absent_path(several, path, console)?;
    }
    Ok(())
}
