//! Types of paths which no row has: those that are named, and those of another file.
use crate::task::BuildTask;
use crate::types::Types;
use mmdb_console::{Console, ProgramError, Similar};
use std::alloc::{AllocError, Global};
use std::io::Write;

// What is wrong with a path that no row has, with the one of those which rows have that may be meant.
fn text_of(alloc: Global, path: &str, found: &Types) -> Result<String, AllocError> {
    let mut similar = Similar::new(alloc, path)?;
    found.offer(&mut similar)?;
    match similar.best() {
        Some(best) => format!(in alloc; "no row has this path; did you mean {best}?"),
        None => String::from_str(alloc, "no row has this path"),
    }
}

// Reports the types that are named for paths which no row has, and answers whether there are some.
fn report_named<O: Write, E: Write>(
    task: &BuildTask<'_>,
    types: &Types,
    found: &Types,
    console: &mut Console<'_, O, E>,
) -> Result<bool, AllocError> {
    let alloc = console.alloc;
    let mut is_unmet = false;
    for typed in &task.types {
        if !types.is_met(&typed.path) {
            let path = typed.text;
            let text = text_of(alloc, path, found)?;
            let of: String = format!(in alloc; "--type {path}")?;
            console.report(of.as_str(), &text);
            is_unmet = true;
        }
    }
    Ok(is_unmet)
}

// Reports the first paths of a file that no row has and how many there are, and answers whether there are some.
fn report_learned<O: Write, E: Write>(
    file: &str,
    types: &Types,
    found: &Types,
    console: &mut Console<'_, O, E>,
) -> Result<bool, AllocError> {
    let alloc = console.alloc;
    let unmet = types.first_unmet(alloc)?;
    for node in &unmet.shown {
        let path = node.shown_path();
        let text = text_of(alloc, path, found)?;
        let of: String = format!(in alloc; "--types-like {file}: {path}")?;
        console.report(of.as_str(), &text);
    }
    if let Some(count) = unmet.count_of_more() {
        let of: String = format!(in alloc; "--types-like {file}")?;
        let text: String = format!(in alloc; "no row has {count} of its paths")?;
        console.report(of.as_str(), &text);
    }
    Ok(unmet.count > 0)
}

/// Reports the types that are named for paths which no row has, and the paths of the file of types which no row has, beside what
/// was found in the rows, and answers whether there are some.
pub(crate) fn report_unmet<O: Write, E: Write>(
    task: &BuildTask<'_>,
    types: &Types,
    found: &Types,
    console: &mut Console<'_, O, E>,
) -> Result<bool, ProgramError> {
    let is_named = report_named(task, types, found, console)?;
    let is_learned = match task.types_like {
        Some(file) => report_learned(file, types, found, console)?,
        None => false,
    };
    Ok(is_named || is_learned)
}
