//! The arguments of a program.
use std::alloc::{AllocError, Global};

fn push_word(words: &mut Vec<String>, alloc: Global, text: &str) -> Result<(), AllocError> {
    words.push(String::from_str(alloc, text)?)?;
    Ok(())
}

/// The arguments that follow a program's name.
pub fn words_of(alloc: Global, texts: &[&str]) -> Result<Vec<String>, AllocError> {
    let mut words = Vec::new(alloc);
    for text in texts {
        push_word(&mut words, alloc, text)?;
    }
    Ok(words)
}
