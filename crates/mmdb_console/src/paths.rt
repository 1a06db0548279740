//! Paths into records as a person writes them.
use mmdb_arguments::NoRequest;
use mmdb_reader::PathElement;
use std::alloc::{AllocError, Global};

// Whether a part is digits, after a sign or none.
fn is_integer(part: &str) -> bool {
    let digits = part.strip_prefix('-').or(part.strip_prefix('+'));
    let digits = digits.unwrap_or(part).as_bytes();
    !digits.is_empty() && digits.iter().all(|byte| byte.is_ascii_digit())
}

// Whether digits are written as one would: without a plus, a minus before zero or zeros in front.
fn is_as_written(part: &str) -> bool {
    match part.strip_prefix('-') {
        Some(digits) => !digits.starts_with('0'),
        None => part == "0" || !(part.starts_with('0') || part.starts_with('+')),
    }
}

// The step that a part between dots stands for, or none where it is digits that stand for no index.
fn step_of(part: &str) -> Option<PathElement<'_>> {
    if !is_integer(part) {
        return Some(PathElement::Key(part));
    }
    match part.parse::<isize>() {
        Ok(index) if is_as_written(part) => Some(PathElement::from(index)),
        _ => None,
    }
}

// The key in quotes at the front of a text, and what follows its dot, or none where there is no such.
fn quoted(text: &str) -> Option<(&str, Option<&str>)> {
    let (key, rest) = text.strip_prefix('"')?.split_once('"')?;
    if rest.is_empty() {
        Some((key, None))
    } else {
        Some((key, Some(rest.strip_prefix('.')?)))
    }
}

// The part at the front of a text, and what follows its dot.
fn plain(text: &str) -> (&str, Option<&str>) {
    match text.split_once('.') {
        Some((part, rest)) => (part, Some(rest)),
        None => (text, None),
    }
}

// The step at the front of a text, and what follows its dot, or none where there is no such.
fn split_step(text: &str) -> Option<(PathElement<'_>, Option<&str>)> {
    if text.starts_with('"') {
        let (key, rest) = quoted(text)?;
        Some((PathElement::Key(key), rest))
    } else {
        let (part, rest) = plain(text);
        Some((step_of(part)?, rest))
    }
}

// Adds the steps of a text that is not empty, and answers whether it is a path.
fn add_steps<'a>(text: &'a str, steps: &mut Vec<PathElement<'a>>) -> Result<bool, AllocError> {
    let mut left = Some(text);
    for _ in 0..=text.len() {
        let Some(here) = left else {
            return Ok(true);
        };
        let Some((step, rest)) = split_step(here) else {
            return Ok(false);
        };
        steps.push(step)?;
        left = rest;
    }
    Ok(true)
}

/// The steps of a path: parts between dots, as `subdivisions.0.names.en`. An integer is an index,
/// counted from the end if it is negative, and any other part a key; in quotes `"` a part is a key whatever
/// it holds, a dot or digits alone too. An empty text is the path to the whole record.
///
/// None where something else than a dot follows quotes, or quotes are not ended, and where an integer is not of 64 bits
/// or not as one writes it (`+1`, `-0`, `00`).
pub fn path_of<'a>(
    alloc: Global,
    text: &'a str,
) -> Result<Option<Vec<PathElement<'a>>>, AllocError> {
    let mut steps = Vec::new(alloc);
    if text.is_empty() || add_steps(text, &mut steps)? {
        Ok(Some(steps))
    } else {
        Ok(None)
    }
}

/// The path that a text spells. An `Err` where it is not a path.
pub fn wanted_path<'a>(alloc: Global, text: &'a str) -> Result<Vec<PathElement<'a>>, NoRequest> {
    match path_of(alloc, text)? {
        Some(path) => Ok(path),
        None => Err(NoRequest::bad_argument(alloc, text, "not a path")),
    }
}

/// The paths that texts spell. An `Err` where one is not a path.
pub fn paths_of<'a>(
    alloc: Global,
    texts: &[&'a str],
) -> Result<Vec<Vec<PathElement<'a>>>, NoRequest> {
    let mut paths = Vec::new(alloc);
    for text in texts {
        paths.push(wanted_path(alloc, *text)?)?;
    }
    Ok(paths)
}

// Whether a key stands for itself as a part between dots, and after a name and `=`.
fn is_plain(key: &str) -> bool {
    let mut has_sign = key.is_empty() || key.starts_with('"');
    for byte in key.as_bytes() {
        has_sign |= matches!(*byte, b'.' | b'=');
    }
    !has_sign && !is_integer(key)
}

// Whether a key can be written in quotes.
fn is_quotable(key: &str) -> bool {
    !key.as_bytes().iter().any(|byte| *byte == b'"')
}

// The path one step on, by the step's text.
fn path_with(alloc: Global, path: &str, step: &str) -> Result<String, AllocError> {
    if path.is_empty() {
        String::from_str(alloc, step)
    } else {
        format!(in alloc; "{path}.{step}")
    }
}

/// The text of a path with a key more, which `path_of` reads so. None where no text does: of a key with quotes that
/// begins with them or has a dot or an equals sign.
pub fn path_with_key(alloc: Global, path: &str, key: &str) -> Result<Option<String>, AllocError> {
    if is_plain(key) {
        return Ok(Some(path_with(alloc, path, key)?));
    }
    if !is_quotable(key) {
        return Ok(None);
    }
    let step: String = format!(in alloc; "\"{key}\"")?;
    Ok(Some(path_with(alloc, path, step.as_str())?))
}

/// The text of a path with an index more.
pub fn path_with_index(alloc: Global, path: &str, index: usize) -> Result<String, AllocError> {
    let step: String = format!(in alloc; "{index}")?;
    path_with(alloc, path, step.as_str())
}
