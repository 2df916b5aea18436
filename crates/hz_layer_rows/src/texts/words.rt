//! Words, and the command that they are with its files.

use crate::written::text_of;
use hz_tool_words::order_of;
use std::alloc::{AllocError, Global};

/// The words of a line, each after a blank but the first: two blanks have an empty word between them. A line of one byte 0
/// has no word.
fn words_of(alloc: Global, line: &str) -> Result<Vec<String>, AllocError> {
    let mut words = Vec::new(alloc);
    if line == "\0" {
        return Ok(words);
    }
    for word in line.split(' ') {
        words.push(String::from_str(alloc, word)?)?;
    }
    Ok(words)
}

/// What a line asks for.
pub fn answer(alloc: Global, text: &[u8]) -> Result<String, AllocError> {
    let words = words_of(alloc, text_of(text))?;
    match order_of(alloc, words.as_slice())? {
        Some(order) => format!(in alloc; "{order:?}"),
        None => String::from_str(alloc, "none"),
    }
}
