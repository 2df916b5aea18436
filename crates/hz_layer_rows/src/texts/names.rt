//! Names, and lists of them.

use crate::written::text_of;
use hz_io::FileName;
use hz_regexp::{Name, parse_names};
use std::alloc::{AllocError, Global};
use std::collections::HashSet;
use std::fmt::Write;

/// Writes names with a mark between them.
pub fn write_names(out: &mut String, mark: &str, names: &[Name]) -> Result<(), AllocError> {
    let mut next = "";
    for name in names {
        out.push_str(next)?;
        out.push_str(text_of(name.bytes()))?;
        next = mark;
    }
    Ok(())
}

/// How many of the names are equal to their copies, and are in a set of the copies of all.
fn count_copies(alloc: Global, names: &[Name]) -> Result<usize, AllocError> {
    let mut seen = HashSet::new(alloc);
    for name in names {
        let copy = name.copy()?;
        if copy == *name {
            seen.insert(copy)?;
        }
    }
    Ok(names.iter().filter(|name| seen.contains(*name)).count())
}

/// The names of a text, the same in their order, and how many of them a set of their copies has.
pub fn answer_list(alloc: Global, text: &[u8]) -> Result<String, AllocError> {
    let mut names = match parse_names(alloc, text) {
        Ok(names) => names,
        Err(fault) => return fault.to_string(alloc),
    };
    let mut out = String::new(alloc);
    write_names(&mut out, " ", &names)?;
    out.push_str("; ")?;
    names.sort()?;
    write_names(&mut out, " ", &names)?;
    let copies = count_copies(alloc, &names)?;
    write!(out, "; {copies}")?;
    Ok(out)
}

/// The name that a text is, and the name of a file that it is.
pub fn answer_name(alloc: Global, text: &[u8]) -> Result<String, AllocError> {
    let mut out = String::new(alloc);
    match Name::of(alloc, text)? {
        Some(name) => out.push_str(text_of(name.bytes()))?,
        None => out.push_str("no name")?,
    }
    out.push_str("; ")?;
    match FileName::of(alloc, text)? {
        Some(name) => out.push_str(text_of(name.bytes()))?,
        None => out.push_str("no name")?,
    }
    Ok(out)
}
