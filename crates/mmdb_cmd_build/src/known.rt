//! Texts whose values are known.
use std::alloc::{AllocError, Global};
use std::collections::HashMap;

/// How many bytes are kept.
const MOST_KEPT: usize = 134_217_728;

/// How many bytes a text takes beside its own.
const BESIDE: usize = 64;

/// A text among those that are kept, and its value.
#[derive(Clone, Copy)]
struct KnownText {
    start: usize,
    len: usize,
    value: Option<usize>,
}

/// Texts with the indexes of their values, up to `MOST_KEPT` bytes. Where there would be more, all are forgotten. Of two texts
/// with one hash the later is kept.
#[derive(Drop)]
pub(crate) struct KnownTexts {
    texts: Vec<u8>,
    by_hash: HashMap<u64, KnownText>,
}

// A number that is mixed with eight bytes.
#[inline(always)]
fn mixed(hash: u64, word: u64) -> u64 {
    let mixed = (hash ^ word).wrapping_mul(0x9e37_79b9_7f4a_7c15);
    mixed ^ (mixed >> 29)
}

// A number that equal texts share, and few others. Every other eight bytes go into a hash of their own, so that the processor
// works at both at once.
fn hash_of(text: &[u8]) -> u64 {
    let (words, rest) = text.as_chunks::<8>();
    let (pairs, lone) = words.as_chunks::<2>();
    let mut hash = text.len() as u64;
    let mut other = 0;
    for pair in pairs {
        hash = mixed(hash, u64::from_le_bytes(pair[0]));
        other = mixed(other, u64::from_le_bytes(pair[1]));
    }
    for word in lone {
        hash = mixed(hash, u64::from_le_bytes(*word));
    }
    for byte in rest {
        hash = mixed(hash, u64::from(*byte));
    }
    mixed(hash, other)
}

impl KnownTexts {
    pub(crate) fn new(alloc: Global) -> KnownTexts {
        KnownTexts {
            texts: Vec::new(alloc),
            by_hash: HashMap::new(alloc),
        }
    }

    /// The value of a text, if it is known.
    pub(crate) fn get(&self, text: &[u8]) -> Option<Option<usize>> {
        let known = *self.by_hash.get(&hash_of(text))?;
        let (_, there) = self.texts.split_at_checked(known.start)?;
        if known.len == text.len() && there.starts_with(text) {
            Some(known.value)
        } else {
            None
        }
    }

    // Forgets all texts where this one would be too much.
    fn make_room(&mut self, text: &[u8]) {
        let beside = self.by_hash.len().saturating_mul(BESIDE);
        let all = self.texts.len().saturating_add(beside);
        if all.saturating_add(text.len()) > MOST_KEPT {
            self.texts.clear();
            self.by_hash.clear();
        }
    }

    /// Keeps a text and its value. Out of memory it is not kept.
    pub(crate) fn put(&mut self, text: &[u8], value: Option<usize>) -> Result<(), AllocError> {
        self.make_room(text);
        let known = KnownText {
            start: self.texts.len(),
            len: text.len(),
            value,
        };
        self.texts.extend_from_slice(text)?;
        self.by_hash.insert(hash_of(text), known)?;
        Ok(())
    }
}
