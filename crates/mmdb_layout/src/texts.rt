//! The texts that a condition compares values with.
ghost use Rattle.std.specs.Prelude.{◌≡◌, [], ◌∷◌, ◌++◌, IfOk, IfErr, map};
ghost use Rattle.mmdb_layout.specs.Numbers.{not_digits};

use crate::number::are_digits;
use std::alloc::{AllocError, Global};

/// Texts, those of them apart that are not digits alone: no others write a whole number in another way than its own.
#[derive(Drop)]
pub struct Texts<'a> {
    all: Vec<&'a str>,
    others: Vec<&'a str>,
    ghost parted: { map (λ t. t.now) others.items ≡ not_digits (map (λ t. t.now) all.items) },
}

// Adds a text to those that are not digits alone, if it is none.
fn push_other<'a>(others: &mut Vec<&'a str>, text: &'a str) -> Result<(), AllocError>
    ensures added { IfOk result (λ _. map (λ t. t.now) others.new.items
        ≡ map (λ t. t.now) others.old.items ++ not_digits (text.now ∷ [])) }
    ensures same { IfErr result (λ _. others.new.items ≡ others.old.items) }
{
    if are_digits(text.as_bytes()) {
        return Ok(());
    }
    Ok(others.push(text)?)
}

impl<'a> Texts<'a> {
    ghost use Rattle.mmdb_layout.specs.Texts.{texts_in};

    /// None.
    pub fn new(alloc: Global) -> Texts<'a>
        ensures { texts_in result ≡ [] }
    {
        Texts {
            all: Vec::new(alloc),
            others: Vec::new(alloc),
        }
    }

    /// Adds a text.
    pub fn push(&mut self, text: &'a str) -> Result<(), AllocError>
        ensures { IfOk result (λ _. texts_in self.new ≡ texts_in self.old ++ text.now ∷ []) }
    {
        let before = self.others.len();
        push_other(&mut self.others, text)?;
        if let Err(failed) = self.all.push(text) {
            self.others.truncate(before);
            return Err(AllocError::from(failed));
        }
        Ok(())
    }

    /// All of them.
    pub fn all(&self) -> &[&'a str]
        ensures { map (λ t. t.now) result.now ≡ texts_in self.now }
    {
        self.all.as_slice()
    }

    /// Those that are not digits alone.
    pub fn others(&self) -> &[&'a str]
        ensures { map (λ t. t.now) result.now ≡ not_digits (texts_in self.now) }
    {
        self.others.as_slice()
    }
}
