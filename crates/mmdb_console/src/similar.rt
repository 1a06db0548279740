//! What a person may have meant by a text that nothing has.
use std::alloc::{AllocError, Global};
use strsim::levenshtein;

/// Of texts that are offered one by one the one that is most like a text that was given: another one only in upper and
/// lower case, or else in one of three characters at most.
#[derive(Drop)]
pub struct Similar<'a> {
    alloc: Global,
    given: &'a str,
    lower: String,
    best: Option<String>,
    /// In how many characters the best one is another.
    distance: usize,
    /// Whether the text itself was offered.
    is_met: bool,
}

// A text with its letters of ASCII in lower case.
fn lower_of(alloc: Global, text: &str) -> Result<String, AllocError> {
    let mut lower = String::new(alloc);
    for c in text.chars() {
        lower.push(c.to_ascii_lowercase())?;
    }
    Ok(lower)
}

impl<'a> Similar<'a> {
    /// Nothing is offered yet. An `Err` is of memory.
    pub fn new(alloc: Global, given: &'a str) -> Result<Similar<'a>, AllocError> {
        let lower = lower_of(alloc, given)?;
        let distance = given.chars().count() / 3 + 1;
        Ok(Similar {
            alloc,
            given,
            lower,
            best: None,
            distance,
            is_met: false,
        })
    }

    // In how many characters a text is another one, whatever their case.
    fn distance_of(&self, text: &str) -> Result<usize, AllocError> {
        let lower = lower_of(self.alloc, text)?;
        levenshtein(self.alloc, self.lower.as_str(), lower.as_str())
    }

    /// Offers a text. A much longer one is passed, which is not like it. An `Err` is of memory.
    pub fn offer(&mut self, text: &str) -> Result<(), AllocError> {
        if text == self.given {
            self.is_met = true;
        }
        if self.is_met || text.len() > self.lower.len().saturating_mul(2).saturating_add(8) {
            return Ok(());
        }
        let distance = self.distance_of(text)?;
        if distance < self.distance {
            self.best = Some(String::from_str(self.alloc, text)?);
            self.distance = distance;
        }
        Ok(())
    }

    /// The one that is most like it, if one is and none is the text itself.
    pub fn best(&self) -> Option<&str> {
        match &self.best {
            Some(best) if !self.is_met => Some(best.as_str()),
            _ => None,
        }
    }
}
