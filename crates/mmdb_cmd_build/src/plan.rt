//! Records that are put together of values at paths.
use crate::entry::Values;
use crate::error::{InputError, Reason};
use mmdb_console::path_of;
use mmdb_reader::PathElement;
use mmdb_value::Value;
use std::alloc::Global;
use std::collections::BTreeMap;

/// How many columns there may be.
pub(crate) const MOST_COLUMNS: usize = 1000;

/// How many steps a path may have, as many as containers may be in one another.
const MOST_STEPS: usize = 64;

/// How a record is put together: of which column a value is, and which values are in a map or an array.
#[derive(Drop)]
pub(crate) enum Plan {
    /// The value of the column of this index.
    Column(usize),
    Map(Vec<(String, Plan)>),
    Array(Vec<Plan>),
}

/// The name of a column, and the path that it spells.
#[derive(Drop)]
pub(crate) struct NamedPath<'a> {
    name: &'a str,
    pub(crate) path: Vec<PathElement<'a>>,
}

// A column, and what is left of its path.
#[derive(Clone, Copy)]
struct PathPart<'p, 'a> {
    column: usize,
    name: &'a str,
    path: &'p [PathElement<'a>],
}

// A key, and the parts whose paths begin with it, without it.
#[derive(Drop)]
struct Member<'p, 'a> {
    key: &'a str,
    parts: Vec<PathPart<'p, 'a>>,
}

// The parts whose paths begin with an index, without it.
#[derive(Drop)]
struct ArrayItem<'p, 'a> {
    parts: Vec<PathPart<'p, 'a>>,
}

// The error of a part that leads into another one's value, or beside its keys or indexes.
fn in_another(alloc: Global, part: &PathPart<'_, '_>) -> InputError {
    InputError::at(alloc, part.name, Reason::InAnother)
}

// The place of the member of a key, which is made where there is none.
fn member_place<'p, 'a>(
    alloc: Global,
    key: &'a str,
    places: &mut BTreeMap<String, usize>,
    members: &mut Vec<Member<'p, 'a>>,
) -> Result<usize, InputError> {
    if let Some(place) = places.get(key) {
        return Ok(*place);
    }
    let place = members.len();
    places.insert(String::from_str(alloc, key)?, place)?;
    members.push(Member {
        key,
        parts: Vec::new(alloc),
    })?;
    Ok(place)
}

// The members of a map, in the order in which the parts name them first.
fn members_of<'p, 'a>(
    alloc: Global,
    parts: &[PathPart<'p, 'a>],
) -> Result<Vec<Member<'p, 'a>>, InputError> {
    let mut places = BTreeMap::new(alloc);
    let mut members: Vec<Member<'p, 'a>> = Vec::new(alloc);
    for part in parts {
        let [PathElement::Key(key), path @ ..] = part.path else {
            return Err(in_another(alloc, part));
        };
        let place = member_place(alloc, *key, &mut places, &mut members)?;
        if let Some(member) = members.get_mut(place) {
            member.parts.push(PathPart { path, ..*part })?;
        }
    }
    Ok(members)
}

// The items of an array, of which those after the last may have no parts.
fn items_of<'p, 'a>(
    alloc: Global,
    parts: &[PathPart<'p, 'a>],
) -> Result<Vec<ArrayItem<'p, 'a>>, InputError> {
    let mut items: Vec<ArrayItem<'p, 'a>> = Vec::new(alloc);
    for _ in parts {
        items.push(ArrayItem {
            parts: Vec::new(alloc),
        })?;
    }
    for part in parts {
        let [PathElement::Index(index), path @ ..] = part.path else {
            return Err(in_another(alloc, part));
        };
        match items.get_mut(*index) {
            Some(item) => item.parts.push(PathPart { path, ..*part })?,
            None => return Err(in_another(alloc, part)),
        }
    }
    Ok(items)
}

// The plan of a map.
#[cycle(plans)]
fn plan_of_map<'p, 'a>(
    alloc: Global,
    parts: &[PathPart<'p, 'a>],
    steps: usize,
) -> Result<Plan, InputError> {
    let mut plans: Vec<(String, Plan)> = Vec::new(alloc);
    for member in &members_of(alloc, parts)? {
        let plan = plan_of_parts(alloc, &member.parts, steps)?;
        plans.push((String::from_str(alloc, member.key)?, plan))?;
    }
    Ok(Plan::Map(plans))
}

// The plan of an array.
#[cycle(plans)]
fn plan_of_array<'p, 'a>(
    alloc: Global,
    parts: &[PathPart<'p, 'a>],
    steps: usize,
) -> Result<Plan, InputError> {
    let mut plans = Vec::new(alloc);
    let mut is_at_end = false;
    for item in &items_of(alloc, parts)? {
        match item.parts.first() {
            Some(part) if is_at_end => return Err(in_another(alloc, part)),
            Some(_) => plans.push(plan_of_parts(alloc, &item.parts, steps)?)?,
            None => is_at_end = true,
        }
    }
    Ok(Plan::Array(plans))
}

// The plan of parts of which there is at least one, whose paths may have `steps` steps.
#[cycle(plans)]
fn plan_of_parts<'p, 'a>(
    alloc: Global,
    parts: &[PathPart<'p, 'a>],
    steps: usize,
) -> Result<Plan, InputError> {
    let Some((first, others)) = parts.split_first() else {
        return Ok(Plan::Map(Vec::new(alloc)));
    };
    match (first.path, others, steps) {
        ([], [], _) => Ok(Plan::Column(first.column)),
        ([], [other, ..], _) => Err(in_another(alloc, other)),
        (_, _, 0) => Err(InputError::at(alloc, first.name, Reason::TooDeep)),
        ([PathElement::Key(_), ..], _, _) => plan_of_map(alloc, parts, steps - 1),
        ([_, ..], _, _) => plan_of_array(alloc, parts, steps - 1),
    }
}

/// The path that a column's name spells, without an index from the end.
pub(crate) fn column_path<'a>(alloc: Global, name: &'a str) -> Result<NamedPath<'a>, InputError> {
    match path_of(alloc, name)? {
        Some(path) if !path.iter().any(is_from_end) => Ok(NamedPath { name, path }),
        _ => Err(InputError::at(alloc, name, Reason::NotAPath)),
    }
}

// Whether a step counts from the end.
fn is_from_end(step: &PathElement<'_>) -> bool {
    matches!(step, PathElement::IndexFromEnd(_))
}

/// How a record is put together of the values at these paths.
pub(crate) fn plan_of(alloc: Global, paths: &[NamedPath<'_>]) -> Result<Plan, InputError> {
    let mut parts = Vec::new(alloc);
    for (column, named) in paths.iter().enumerate() {
        parts.push(PathPart {
            column,
            name: named.name,
            path: named.path.as_slice(),
        })?;
    }
    plan_of_parts(alloc, &parts, MOST_STEPS)
}

// The map of the members that have values, or none where none has.
#[cycle(assemblies)]
fn assembled_map<'a>(
    alloc: Global,
    members: &'a [(String, Plan)],
    values: &mut [Option<Value<'a>>],
) -> Result<Option<Value<'a>>, InputError> {
    let mut pairs = Vec::new(alloc);
    for member in members {
        match assembled(alloc, &member.1, values) {
            Ok(Some(value)) => pairs.push((member.0.as_str(), value))?,
            Ok(None) => {}
            Err(error) => return Err(error.below_key(alloc, member.0.as_str())),
        }
    }
    Ok(if pairs.is_empty() {
        None
    } else {
        Some(Value::Map(pairs))
    })
}

// The array of the items, of which only last ones may have no value, or none where none has.
#[cycle(assemblies)]
fn assembled_array<'a>(
    alloc: Global,
    items: &'a [Plan],
    values: &mut [Option<Value<'a>>],
) -> Result<Option<Value<'a>>, InputError> {
    let mut all = Vec::new(alloc);
    let mut is_at_end = false;
    for (index, item) in items.iter().enumerate() {
        match assembled(alloc, item, values) {
            Ok(Some(value)) => {
                if is_at_end {
                    return Err(InputError::from(Reason::Gap).below_index(alloc, index));
                }
                all.push(value)?;
            }
            Ok(None) => is_at_end = true,
            Err(error) => return Err(error.below_index(alloc, index)),
        }
    }
    Ok(if all.is_empty() {
        None
    } else {
        Some(Value::Array(all))
    })
}

// The record that a plan makes of the values of columns, which are taken out. None where there are none.
#[cycle(assemblies)]
fn assembled<'a>(
    alloc: Global,
    plan: &'a Plan,
    values: &mut [Option<Value<'a>>],
) -> Result<Option<Value<'a>>, InputError> {
    match plan {
        Plan::Column(column) => match values.get_mut(*column) {
            Some(value) => Ok(value.take()),
            None => Ok(None),
        },
        Plan::Map(members) => assembled_map(alloc, members, values),
        Plan::Array(items) => assembled_array(alloc, items, values),
    }
}

/// Adds the record that a plan makes of the values of columns, where there are some.
pub(crate) fn add_assembled<'p, V: Values>(
    alloc: Global,
    plan: &'p Plan,
    parts: Vec<Option<Value<'p>>>,
    values: &mut V,
) -> Result<Option<usize>, InputError> {
    let mut parts = parts;
    match assembled(alloc, plan, &mut parts)? {
        Some(record) => Ok(Some(values.add(alloc, &record)?)),
        None => Ok(None),
    }
}
