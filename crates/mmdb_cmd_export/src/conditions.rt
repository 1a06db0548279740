//! Conditions as a person writes them.
use crate::inputs::{Named, ValueFile, named_by, values_of_file};
use mmdb_arguments::{ConditionTexts, NoRequest};
use mmdb_console::{path_of, wanted_path};
use mmdb_layout::{Condition, Requirement, Texts, is_comparable, split_condition};
use mmdb_reader::PathElement;
use std::alloc::{AllocError, Global};

/// What is said of a text that is no path with a number.
const NO_BOUND: &str = "not PATH=NUMBER, a number as JSON writes it, with an exponent below 2^64";

// Which condition is on a path and wants the same of it, if there is one.
fn place_of(
    conditions: &[Condition<'_>],
    path: &[PathElement<'_>],
    wanted: Requirement,
) -> Option<usize> {
    for (place, condition) in conditions.iter().enumerate() {
        if condition.wanted == wanted && condition.path.as_slice() == path {
            return Some(place);
        }
    }
    None
}

// Adds values to the texts of a condition.
fn push_texts<'a>(texts: &mut Texts<'a>, values: &[&'a str]) -> Result<(), AllocError> {
    for value in values {
        texts.push(*value)?;
    }
    Ok(())
}

/// The texts of a condition with some values.
pub(crate) fn texts_of<'a>(alloc: Global, values: &[&'a str]) -> Result<Texts<'a>, AllocError> {
    let mut texts = Texts::new(alloc);
    push_texts(&mut texts, values)?;
    Ok(texts)
}

// Adds values to a condition.
fn add_values<'a>(
    conditions: &mut [Condition<'a>],
    place: usize,
    values: &[&'a str],
) -> Result<(), AllocError> {
    match conditions.get_mut(place) {
        Some(condition) => push_texts(&mut condition.texts, values),
        None => Ok(()),
    }
}

// A condition with some values.
fn condition_of<'a>(
    alloc: Global,
    path: Vec<PathElement<'a>>,
    wanted: Requirement,
    values: &[&'a str],
) -> Result<Condition<'a>, AllocError> {
    Ok(Condition {
        path,
        texts: texts_of(alloc, values)?,
        wanted,
    })
}

// Adds the condition that one of some values is at the end of a path.
fn put_condition<'a>(
    alloc: Global,
    path: Vec<PathElement<'a>>,
    wanted: Requirement,
    values: &[&'a str],
    conditions: &mut Vec<Condition<'a>>,
) -> Result<(), AllocError> {
    match place_of(conditions.as_slice(), path.as_slice(), wanted) {
        Some(place) => {
            drop(path);
            add_values(conditions.as_mut_slice(), place, values)
        }
        None => Ok(conditions.push(condition_of(alloc, path, wanted, values)?)?),
    }
}

// The values that a condition has: one, or those of a file.
fn values_of<'a>(
    alloc: Global,
    text: &'a str,
    value: &'a str,
    files: &'a [ValueFile<'a>],
) -> Result<Vec<&'a str>, AllocError> {
    match named_by(value) {
        Named::File(_) => values_of_file(alloc, files, text),
        Named::Value(value) => {
            let mut values = Vec::new(alloc);
            values.push(value)?;
            Ok(values)
        }
    }
}

// What is wrong with a text that spells no condition.
fn fault_of(wanted: Requirement) -> &'static str {
    match wanted {
        Requirement::Part => "not PATH=TEXT",
        _ => "not PATH=VALUE",
    }
}

// The path and the value of a text `PATH=VALUE`.
fn parts_of<'a>(
    alloc: Global,
    text: &'a str,
    wanted: Requirement,
) -> Result<(&'a str, &'a str), NoRequest> {
    match split_condition(text) {
        Some((_, "@")) => Err(NoRequest::bad_argument(alloc, text, "no file behind the @")),
        Some(parts) => Ok(parts),
        None => Err(NoRequest::bad_argument(alloc, text, fault_of(wanted))),
    }
}

// Adds the condition that a text spells.
fn add_condition<'a>(
    alloc: Global,
    text: &'a str,
    wanted: Requirement,
    files: &'a [ValueFile<'a>],
    conditions: &mut Vec<Condition<'a>>,
) -> Result<(), NoRequest> {
    let (path, value) = parts_of(alloc, text, wanted)?;
    let Some(path) = path_of(alloc, path)? else {
        return Err(NoRequest::bad_argument(alloc, text, "not a path before the ="));
    };
    let values = values_of(alloc, text, value, files)?;
    put_condition(alloc, path, wanted, values.as_slice(), conditions)?;
    Ok(())
}

// Adds the conditions that texts spell.
fn add_conditions<'a>(
    alloc: Global,
    texts: &[&'a str],
    wanted: Requirement,
    files: &'a [ValueFile<'a>],
    conditions: &mut Vec<Condition<'a>>,
) -> Result<(), NoRequest> {
    for text in texts {
        add_condition(alloc, *text, wanted, files, conditions)?;
    }
    Ok(())
}

// Adds the conditions that there is a value at paths.
fn add_paths<'a>(
    alloc: Global,
    paths: &[&'a str],
    conditions: &mut Vec<Condition<'a>>,
) -> Result<(), NoRequest> {
    for path in paths {
        let path = wanted_path(alloc, *path)?;
        put_condition(alloc, path, Requirement::Present, &[], conditions)?;
    }
    Ok(())
}

// The option that wants this of a number.
fn option_of(wanted: Requirement) -> &'static str {
    match wanted {
        Requirement::Below => "--where-below",
        _ => "--where-above",
    }
}

// An `Err` for a text that is no path with a number.
fn bad_bound(alloc: Global, text: &str, wanted: Requirement) -> NoRequest {
    let option = option_of(wanted);
    let argument: Result<String, AllocError> = format!(in alloc; "{option} {text}");
    match &argument {
        Ok(argument) => NoRequest::bad_argument(alloc, argument.as_str(), NO_BOUND),
        Err(_) => NoRequest::Memory,
    }
}

// The path and the number of a text `PATH=NUMBER`.
fn bound_of<'a>(
    alloc: Global,
    text: &'a str,
    wanted: Requirement,
) -> Result<(Vec<PathElement<'a>>, &'a str), NoRequest> {
    match split_condition(text) {
        Some((path, number)) if is_comparable(number) => Ok((wanted_path(alloc, path)?, number)),
        _ => Err(bad_bound(alloc, text, wanted)),
    }
}

// Adds the conditions that there are numbers on a side of others.
fn add_bounds<'a>(
    alloc: Global,
    texts: &[&'a str],
    wanted: Requirement,
    conditions: &mut Vec<Condition<'a>>,
) -> Result<(), NoRequest> {
    for text in texts {
        let (path, number) = bound_of(alloc, *text, wanted)?;
        put_condition(alloc, path, wanted, &[number], conditions)?;
    }
    Ok(())
}

/// How a value that a condition names counts among the others.
#[derive(Clone, Copy, PartialEq, Eq)]
pub(crate) enum Role {
    /// Others of which the same is wanted at its path serve as well.
    Alternative,
    /// It is met by all networks that are chosen.
    Needed,
    /// It is met by none of them.
    Excluded,
}

/// The value that a condition names, alone.
#[derive(Drop)]
pub(crate) struct NamedValue<'a> {
    /// The condition as it is written.
    pub(crate) text: &'a str,
    pub(crate) value: &'a str,
    /// That the value is at the end of the path.
    pub(crate) condition: Condition<'a>,
    pub(crate) role: Role,
}

impl NamedValue<'_> {
    /// Whether a network with the value is chosen by it, whatever else of which this is wanted at this path.
    pub(crate) fn serves(&self, path: &[PathElement<'_>], wanted: Requirement) -> bool {
        self.role == Role::Alternative
            && self.condition.wanted == wanted
            && self.condition.path.as_slice() == path
    }
}

// Adds a value that a text names.
fn push_named<'a>(named: NamedValue<'a>, all: &mut Vec<NamedValue<'a>>) -> Result<(), AllocError> {
    all.push(named)?;
    Ok(())
}

// Adds the values that texts name. Those of files are looked for together.
fn add_named<'a>(
    alloc: Global,
    texts: &[&'a str],
    wanted: Requirement,
    role: Role,
    all: &mut Vec<NamedValue<'a>>,
) -> Result<(), NoRequest> {
    for text in texts {
        let (path, value) = parts_of(alloc, *text, wanted)?;
        let Named::Value(value) = named_by(value) else {
            continue;
        };
        let path = wanted_path(alloc, path)?;
        let condition = condition_of(alloc, path, wanted, &[value])?;
        let named = NamedValue {
            text: *text,
            value,
            condition,
            role,
        };
        push_named(named, all)?;
    }
    Ok(())
}

// Adds the paths at which there is to be a value.
fn add_named_paths<'a>(
    alloc: Global,
    paths: &[&'a str],
    all: &mut Vec<NamedValue<'a>>,
) -> Result<(), NoRequest> {
    for path in paths {
        let steps = wanted_path(alloc, *path)?;
        let condition = condition_of(alloc, steps, Requirement::Present, &[])?;
        let named = NamedValue {
            text: *path,
            value: *path,
            condition,
            role: Role::Needed,
        };
        push_named(named, all)?;
    }
    Ok(())
}

// Adds the numbers on a side of which there is to be one.
fn add_named_bounds<'a>(
    alloc: Global,
    texts: &[&'a str],
    wanted: Requirement,
    all: &mut Vec<NamedValue<'a>>,
) -> Result<(), NoRequest> {
    for text in texts {
        let (path, number) = bound_of(alloc, *text, wanted)?;
        let condition = condition_of(alloc, path, wanted, &[number])?;
        let named = NamedValue {
            text: *text,
            value: number,
            condition,
            role: Role::Needed,
        };
        push_named(named, all)?;
    }
    Ok(())
}

/// The values that conditions name one by one, of networks that are wanted and that are not.
pub(crate) fn named_values<'a>(
    alloc: Global,
    texts: &ConditionTexts<'a>,
) -> Result<Vec<NamedValue<'a>>, NoRequest> {
    let mut all = Vec::new(alloc);
    let (wheres, where_nots) = (texts.wheres.as_slice(), texts.where_nots.as_slice());
    let (parts, paths) = (texts.contains.as_slice(), texts.has.as_slice());
    let (above, below) = (texts.above.as_slice(), texts.below.as_slice());
    add_named(
        alloc,
        wheres,
        Requirement::OneOf,
        Role::Alternative,
        &mut all,
    )?;
    add_named(
        alloc,
        where_nots,
        Requirement::OneOf,
        Role::Excluded,
        &mut all,
    )?;
    add_named(alloc, parts, Requirement::Part, Role::Alternative, &mut all)?;
    add_named_paths(alloc, paths, &mut all)?;
    add_named_bounds(alloc, above, Requirement::Above, &mut all)?;
    add_named_bounds(alloc, below, Requirement::Below, &mut all)?;
    Ok(all)
}

/// The conditions that texts spell, with the values of files: of one path several values that are asked for in the same way
/// are alternatives.
pub(crate) fn conditions_of<'a>(
    alloc: Global,
    texts: &ConditionTexts<'a>,
    files: &'a [ValueFile<'a>],
) -> Result<Vec<Condition<'a>>, NoRequest> {
    let mut conditions = Vec::new(alloc);
    let (wheres, where_nots) = (texts.wheres.as_slice(), texts.where_nots.as_slice());
    let (parts, paths) = (texts.contains.as_slice(), texts.has.as_slice());
    add_conditions(alloc, wheres, Requirement::OneOf, files, &mut conditions)?;
    add_conditions(
        alloc,
        where_nots,
        Requirement::NoneOf,
        files,
        &mut conditions,
    )?;
    add_conditions(alloc, parts, Requirement::Part, files, &mut conditions)?;
    add_paths(alloc, paths, &mut conditions)?;
    add_bounds(
        alloc,
        texts.above.as_slice(),
        Requirement::Above,
        &mut conditions,
    )?;
    add_bounds(
        alloc,
        texts.below.as_slice(),
        Requirement::Below,
        &mut conditions,
    )?;
    Ok(conditions)
}
