//! Fields as a person asks for them: by a path, or by a name and a path.
use crate::condition::split_condition;
use mmdb_arguments::NoRequest;
use mmdb_console::wanted_path;
use mmdb_reader::PathElement;
use std::alloc::{AllocError, Global};

/// Some values of a record: what each is called, and its path.
#[derive(Drop)]
pub struct ChosenFields<'a> {
    pub names: Vec<&'a str>,
    /// The paths, as they are written.
    pub texts: Vec<&'a str>,
    pub paths: Vec<Vec<PathElement<'a>>>,
    /// Whether a name was given to one of them.
    pub is_named: bool,
}

/// What a field is called that is given no name.
#[derive(Clone, Copy, PartialEq, Eq)]
pub enum DefaultName {
    /// As its path is written. Fields may be asked for twice so.
    Path,
    /// The same, where a name is given to any of them; else no name is shown.
    PathBesideNames,
    /// As the last step of its path is, which no other field may be.
    LastStep,
}

/// The text of a field: the name that it gives, if it gives one, and the path as it is written.
#[derive(Clone, Copy)]
struct FieldText<'a> {
    /// All of it.
    text: &'a str,
    name: Option<&'a str>,
    path: &'a str,
}

// What is between the quotes in which a whole name is, or else the name.
fn unquoted(name: &str) -> &str {
    match name
        .strip_prefix('"')
        .and_then(|rest| rest.strip_suffix('"'))
    {
        Some(inside) if !inside.contains('"') => inside,
        _ => name,
    }
}

// The parts of a text `PATH`, or `NAME=PATH`, of which the first equals sign that is not in quotes ends the name.
fn field_text(text: &str) -> FieldText<'_> {
    match split_condition(text) {
        Some((name, path)) => FieldText {
            text,
            name: Some(unquoted(name)),
            path,
        },
        None => FieldText {
            text,
            name: None,
            path: text,
        },
    }
}

// The last step of a path, as it is written. In quotes it is what is between them.
fn last_step(path: &str) -> &str {
    if let Some(text) = path.strip_suffix('"') {
        return match text.rsplit_once('"') {
            Some((_, step)) => step,
            None => path,
        };
    }
    match path.rsplit_once('.') {
        Some((_, step)) => step,
        None => path,
    }
}

impl<'a> FieldText<'a> {
    // What the field is called.
    fn name_or(self, default: DefaultName) -> &'a str {
        match (self.name, default) {
            (Some(name), _) => name,
            (None, DefaultName::Path | DefaultName::PathBesideNames) => self.path,
            (None, DefaultName::LastStep) => last_step(self.path),
        }
    }
}

// The error of a text, if there was memory for it.
fn error_of(alloc: Global, text: &str, wanted: Result<String, AllocError>) -> NoRequest {
    match &wanted {
        Ok(wanted) => NoRequest::bad_argument(alloc, text, wanted.as_str()),
        Err(_) => NoRequest::Memory,
    }
}

// That what is beside the fields has another name than a field.
fn test_taken(
    alloc: Global,
    name: &str,
    field: FieldText<'_>,
    taken: &[&str],
) -> Result<(), NoRequest> {
    if !taken.contains(&name) {
        return Ok(());
    }
    let FieldText { text, path, .. } = field;
    let wanted = format!(in alloc;
        "the name {name} is taken; give the field another one, as NAME={path}"
    );
    Err(error_of(alloc, text, wanted))
}

// That a field has a name if one is given, which neither another one nor what is beside the fields has.
fn test_name(
    alloc: Global,
    name: &str,
    field: FieldText<'_>,
    others: &[&str],
    taken: &[&str],
) -> Result<(), NoRequest> {
    let FieldText { text, path, .. } = field;
    let wanted: Result<String, AllocError> = if name.is_empty() && field.name.is_some() {
        format!(in alloc; "an empty name; give the field another one, as NAME={path}")
    } else if others.contains(&name) {
        format!(in alloc;
            "another field has the name {name} too; give one of them a name of its own, as NAME={path}"
        )
    } else {
        return test_taken(alloc, name, field, taken);
    };
    Err(error_of(alloc, text, wanted))
}

/// The paths that texts ask for, as they are written, without the names.
pub fn path_texts<'a>(alloc: Global, texts: &[&'a str]) -> Result<Vec<&'a str>, AllocError> {
    let mut paths = Vec::new(alloc);
    for text in texts {
        paths.push(field_text(*text).path)?;
    }
    Ok(paths)
}

// The parts of texts.
fn field_texts<'a>(alloc: Global, texts: &[&'a str]) -> Result<Vec<FieldText<'a>>, AllocError> {
    let mut fields = Vec::new(alloc);
    for text in texts {
        fields.push(field_text(*text))?;
    }
    Ok(fields)
}

/// The fields that texts ask for, each `PATH` or `NAME=PATH`. An `Err` where one is not a path, and where a name that is shown
/// is empty or taken, or two have one, unless no name is given and each is called as its path is written.
pub fn fields_of<'a>(
    alloc: Global,
    texts: &[&'a str],
    default: DefaultName,
    taken: &[&str],
) -> Result<ChosenFields<'a>, NoRequest> {
    let asked = field_texts(alloc, texts)?;
    let is_named = asked.iter().any(|field| field.name.is_some());
    let are_shown = is_named || default != DefaultName::PathBesideNames;
    let are_distinct = is_named || default == DefaultName::LastStep;
    let mut fields = ChosenFields {
        names: Vec::new(alloc),
        texts: Vec::new(alloc),
        paths: Vec::new(alloc),
        is_named,
    };
    for field in &asked {
        let name = field.name_or(default);
        if are_distinct {
            test_name(alloc, name, *field, fields.names.as_slice(), taken)?;
        } else if are_shown {
            test_taken(alloc, name, *field, taken)?;
        }
        fields.names.push(name)?;
        fields.texts.push(field.path)?;
        fields.paths.push(wanted_path(alloc, field.path)?)?;
    }
    Ok(fields)
}
