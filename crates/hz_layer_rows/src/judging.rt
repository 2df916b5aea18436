//! Compares what the rows of a file want with what is answered.

use crate::reader::{Row, read_rows};
use crate::subject::{Subject, answer};
use std::alloc::{AllocError, Global};
use std::rt::Files;
use std::{fs, io};

/// How many rows there are, and how many of them differ.
#[derive(Drop)]
pub struct Counts {
    pub rows: u32,
    pub differ: u32,
}

/// What is answered in place of what a row wants, if anything.
fn difference(alloc: Global, subject: Subject, row: &Row) -> Result<Option<String>, AllocError> {
    let Some(case) = &row.case else {
        return Ok(Some(String::from_str(alloc, "not a row")?));
    };
    match answer(alloc, subject, &case.text, &case.beside) {
        Some(found) if found.as_bytes() == case.wanted.as_slice() => Ok(None),
        Some(found) => Ok(Some(found)),
        None => Ok(Some(String::from_str(alloc, "no answer")?)),
    }
}

/// Prints each row of a file that differs, with what is answered, and counts the rows.
pub fn judge_file(
    rt: &(impl Files + Print + AllocGlobal),
    file: &str,
    subject: Subject,
    counts: &mut Counts,
) -> io::Result<()> {
    let text = fs::read_to_string(rt, file)?;
    for row in &read_rows(rt.alloc(), text.as_str())? {
        counts.rows = counts.rows.saturating_add(1);
        if let Some(found) = difference(rt.alloc(), subject, row)? {
            counts.differ = counts.differ.saturating_add(1);
            println!(rt; "{file} line {}: {found}", row.line)?;
        }
    }
    Ok(())
}
