//! Texts as people are shown them: none of their characters moves a cursor or begins another line.
use std::alloc::{AllocError, Global};

// Adds a control character as JSON writes it.
fn push_escaped(alloc: Global, control: char, out: &mut String) -> Result<(), AllocError> {
    match control {
        '\n' => out.push_str("\\n"),
        '\r' => out.push_str("\\r"),
        '\t' => out.push_str("\\t"),
        _ => {
            let code = u32::from(control);
            let escaped: String = format!(in alloc; "\\u{code:04x}")?;
            out.push_str(escaped.as_str())
        }
    }
}

// Adds a text with its control characters as JSON writes them.
fn push_shown(alloc: Global, text: &str, out: &mut String) -> Result<(), AllocError> {
    for c in text.chars() {
        if c.is_control() {
            push_escaped(alloc, c, out)?;
        } else {
            out.push(c)?;
        }
    }
    Ok(())
}

/// A text with its control characters (among them line breaks and what begins an escape sequence of a terminal) as
/// JSON writes them, so that a text of a hostile file or of an argument stays on its line.
pub fn shown_text(alloc: Global, text: &str) -> Result<String, AllocError> {
    let mut out = String::new(alloc);
    push_shown(alloc, text, &mut out)?;
    Ok(out)
}
