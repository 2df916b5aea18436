//! Conditions of classes, and whether they hold.

use crate::texts::descriptions::description_of;
use crate::texts::forms::MOST_BYTES;
use crate::written::text_of;
use hz_mdread::Description;
use hz_regexp::Name;
use std::alloc::{AllocError, Global};

/// The pairs of names of a text of words `NAME=VALUE`.
fn pairs_of(alloc: Global, text: &str) -> Result<Vec<(Name, Name)>, AllocError> {
    let mut pairs = Vec::new(alloc);
    for word in text.split(' ') {
        let (name, value) = word.split_once('=').unwrap_or((word, ""));
        let name = Name::of(alloc, name.as_bytes())?;
        let value = Name::of(alloc, value.as_bytes())?;
        if let (Some(name), Some(value)) = (name, value) {
            pairs.push((name, value))?;
        }
    }
    Ok(pairs)
}

/// Whether the condition of the first class holds, where the attributes are given, and after a ` / ` have defaults.
fn holds(alloc: Global, d: &Description, beside: &str) -> Result<String, AllocError> {
    let (given, defaults) = beside.split_once(" / ").unwrap_or((beside, ""));
    let given = pairs_of(alloc, given)?;
    let defaults = pairs_of(alloc, defaults)?;
    match d.classes.first() {
        Some(class) => class.condition.holds(&given, &defaults).to_string(alloc),
        None => String::from_str(alloc, "no class"),
    }
}

/// Whether the condition of the first class of a description holds, by the attributes that stand beside.
pub fn answer(alloc: Global, text: &[u8], beside: &[u8]) -> Result<String, AllocError> {
    if text.len() > MOST_BYTES {
        return String::from_str(alloc, "too long");
    }
    match description_of(alloc, text) {
        Some(Ok(d)) => holds(alloc, &d, text_of(beside)),
        _ => String::from_str(alloc, "no description"),
    }
}
