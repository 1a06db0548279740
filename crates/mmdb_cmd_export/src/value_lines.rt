//! Values of files: one a line, with comments.
use json::{Error, Scratch};
use std::alloc::{AllocError, Global};

// The place of the sign that begins the comment of a line: the first `#` of it, or after a blank.
fn place_of_comment(line: &str) -> Option<usize> {
    let mut is_after_blank = true;
    for (place, byte) in line.as_bytes().iter().enumerate() {
        if *byte == b'#' && is_after_blank {
            return Some(place);
        }
        is_after_blank = matches!(*byte, b' ' | b'\t');
    }
    None
}

// The text of a line without its comment and the blanks around it.
fn without_comment(line: &str) -> &str {
    match place_of_comment(line) {
        Some(place) => line.get(..place).unwrap_or("").trim(),
        None => line.trim(),
    }
}

// The place behind the text in double quotes at the front of a line.
fn end_of_quoted(line: &str) -> Option<usize> {
    let mut is_escaped = false;
    for (place, byte) in line.as_bytes().iter().enumerate() {
        match *byte {
            b'"' if place > 0 && !is_escaped => return Some(place.saturating_add(1)),
            byte => is_escaped = byte == b'\\' && !is_escaped,
        }
    }
    None
}

// The text that JSON writes so, if it is one.
fn text_of_json(alloc: Global, written: &str) -> Result<Option<String>, AllocError> {
    let mut scratch = Scratch::new(alloc);
    scratch.reserve(written.len())?;
    match json::Value::parse(alloc, written, &mut scratch) {
        Ok(json::Value::String(text)) => Ok(Some(String::from_str(alloc, text)?)),
        Err(Error::OutOfMemory) => Err(AllocError),
        _ => Ok(None),
    }
}

// The value in double quotes at the front of a line, behind which comes nothing but a comment.
fn quoted_value(alloc: Global, line: &str) -> Result<Option<String>, AllocError> {
    let Some(end) = end_of_quoted(line) else {
        return Ok(None);
    };
    let (Some(written), Some(rest)) = (line.get(..end), line.get(end..)) else {
        return Ok(None);
    };
    if !without_comment(rest).is_empty() {
        return Ok(None);
    }
    text_of_json(alloc, written)
}

/// The values of a text: one a line, without the blanks around it and a comment, or as JSON in double quotes. An `Err` has the
/// number of the first line in double quotes that is not so.
pub(crate) fn values_of_lines(
    alloc: Global,
    text: &str,
) -> Result<Result<Vec<String>, usize>, AllocError> {
    let mut values = Vec::new(alloc);
    for (index, line) in text.split('\n').enumerate() {
        let line = line.trim();
        if line.starts_with('"') {
            match quoted_value(alloc, line)? {
                Some(value) => values.push(value)?,
                None => return Ok(Err(index.saturating_add(1))),
            }
            continue;
        }
        let value = without_comment(line);
        if !value.is_empty() {
            values.push(String::from_str(alloc, value)?)?;
        }
    }
    Ok(Ok(values))
}
