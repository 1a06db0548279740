//! Paths to values inside records.
ghost use Rattle.std.specs.Prelude.{◌≡◌, IfOk, IfErr, string_bytes};
ghost use Rattle.mmdb_format.specs.Error.{OfMemory, kind_of};
ghost use Rattle.mmdb_reader.specs.Selecting.{element_at};
ghost use Rattle.mmdb_reader.specs.PathText.{step_text, path_text};
ghost use Rattle.mmdb_reader.specs.declared.path.PathElement.TheVariants.{Key, Index};

use mmdb_format::error::MaxMindDbError;
use std::alloc::{AllocError, Global};

/// A step of a path: to the value of a key in a map, or to an element of an array.
///
/// An index counts from 0; `IndexFromEnd(0)` is the last element.
///
///     let code: Option<&str> = found.decode_path(rt.alloc(), &path!["country", "iso_code"])?;
#[derive(Clone, Debug, PartialEq, Eq, Drop)]
pub enum PathElement<'a> {
    Key(&'a str),
    Index(usize),
    IndexFromEnd(usize),
}

impl<'a> From<&'a str> for PathElement<'a> {
    ghost from_gives = { λ key e. e ≡ Key key };

    fn from(key: &'a str) -> PathElement<'a> {
        PathElement::Key(key)
    }
}

impl From<usize> for PathElement<'_> {
    ghost from_gives = { λ index e. e ≡ Index index };

    fn from(index: usize) -> Self {
        PathElement::Index(index)
    }
}

/// A negative number counts from the end: -1 is the last element.
impl From<i32> for PathElement<'_> {
    ghost from_gives = { λ index e. e ≡ element_at index };

    fn from(index: i32) -> Self {
        PathElement::from(index as isize)
    }
}

/// A negative number counts from the end: -1 is the last element. The least `isize` is
/// `IndexFromEnd(usize::MAX)`.
impl From<isize> for PathElement<'_> {
    ghost from_gives = { λ index e. e ≡ element_at index };

    fn from(index: isize) -> Self {
        if index >= 0 {
            PathElement::Index(index.unsigned_abs())
        } else if index == isize::MIN {
            PathElement::IndexFromEnd(usize::MAX)
        } else {
            PathElement::IndexFromEnd(index.unsigned_abs() - 1)
        }
    }
}

impl PathElement<'_> {
    // The step as `render_path` writes it.
    fn text(&self, alloc: Global) -> Result<String, AllocError>
        ensures { IfOk result (λ text. string_bytes text ≡ step_text self.now) }
    {
        match self {
            PathElement::Key(key) => format!(in alloc; "/{key}"),
            PathElement::Index(index) => format!(in alloc; "/{index}"),
            PathElement::IndexFromEnd(index) => {
                let distance = *index as u128 + 1;
                format!(in alloc; "/-{distance}")
            }
        }
    }
}

/// The text of a path: for each step `/` and the key, the index, or `-` and one more than the index from
/// the end. Fails only when out of memory.
pub fn render_path(alloc: Global, path: &[PathElement<'_>]) -> Result<String, MaxMindDbError>
    ensures text { IfOk result (λ text. string_bytes text ≡ path_text path.now) }
    ensures no_other { IfErr result (λ e. kind_of e ≡ OfMemory) }
{
    let mut text = String::new(alloc);
    for step in path {
        let one = step.text(alloc)?;
        text.push_str(one.as_str())?;
    }
    Ok(text)
}
