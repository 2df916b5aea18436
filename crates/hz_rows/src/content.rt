//! The texts of files and answers, put together from lines.

use super::faults::{number, small_number, unreadable};
use std::alloc::Global;
use std::{io, mem};

/// A text that lines name.
#[derive(Drop)]
struct Named {
    name: String,
    bytes: Vec<u8>,
}

/// The text that is put together, and those that its lines can name.
#[derive(Drop)]
pub struct Content {
    alloc: Global,
    named: Vec<Named>,
    marks: Vec<(u8, Vec<u8>)>,
    open: Vec<u8>,
}

impl Content {
    /// No text.
    pub fn new(alloc: Global) -> Content {
        Content {
            alloc,
            named: Vec::new(alloc),
            marks: Vec::new(alloc),
            open: Vec::new(alloc),
        }
    }

    /// The text that was put together. The next one begins.
    pub fn take(&mut self) -> Vec<u8> {
        mem::replace(&mut self.open, Vec::new(self.alloc))
    }

    /// Keeps a text under its name, in place of an earlier one.
    pub fn keep(&mut self, name: String, bytes: Vec<u8>) -> io::Result<()> {
        self.named.push(Named { name, bytes })?;
        Ok(())
    }

    /// Has a sign of lines stand for a text.
    pub fn mark(&mut self, sign: u8, bytes: Vec<u8>) -> io::Result<()> {
        self.marks.push((sign, bytes))?;
        Ok(())
    }

    /// Adds what a line of a text says, and answers whether it is one.
    pub fn add_line(&mut self, line: &str) -> io::Result<bool> {
        if let Some(rest) = line.strip_prefix("each ") {
            self.add_each(rest)?;
            return Ok(true);
        }
        if let Some(rest) = line.strip_prefix("fill ") {
            self.add_fill(rest)?;
            return Ok(true);
        }
        self.add_piece(line, None)
    }

    /// Adds a piece for each number from the first to the last: `FIRST LAST PIECE`.
    fn add_each(&mut self, rest: &str) -> io::Result<()> {
        let Some((first, rest)) = rest.split_once(' ') else {
            return Err(unreadable());
        };
        let Some((last, piece)) = rest.split_once(' ') else {
            return Err(unreadable());
        };
        let (first, last) = (number(first)?, number(last)?);
        if last < first {
            return Err(unreadable());
        }
        for count in first..last.saturating_add(1) {
            if !self.add_piece(piece, Some(count))? {
                return Err(unreadable());
            }
        }
        Ok(())
    }

    /// Adds a byte so many times: `COUNT BYTE`.
    fn add_fill(&mut self, rest: &str) -> io::Result<()> {
        let Some((count, byte)) = rest.split_once(' ') else {
            return Err(unreadable());
        };
        let byte = small_number(byte)?;
        for _ in 0..number(count)? {
            self.open.push(byte)?;
        }
        Ok(())
    }

    /// Adds a line, a part of one or a named text, and answers whether it is one.
    fn add_piece(&mut self, piece: &str, count: Option<u64>) -> io::Result<bool> {
        if let Some(name) = piece.strip_prefix("use ") {
            self.add_named(name)?;
            return Ok(true);
        }
        if let Some(part) = piece.strip_prefix(":") {
            self.add_part(part, count)?;
            return Ok(true);
        }
        let Some(line) = piece.strip_prefix("|") else {
            return Ok(false);
        };
        self.add_part(line, count)?;
        self.open.push(b'\n')?;
        Ok(true)
    }

    /// Adds the text of this name.
    fn add_named(&mut self, name: &str) -> io::Result<()> {
        for text in self.named.iter().rev() {
            if text.name.as_str() == name {
                self.open.extend_from_slice(text.bytes.as_slice())?;
                return Ok(());
            }
        }
        Err(unreadable())
    }

    /// Adds a part of a line, with what its signs stand for.
    fn add_part(&mut self, part: &str, count: Option<u64>) -> io::Result<()> {
        for byte in part.as_bytes() {
            match count {
                Some(count) if *byte == b'#' => self.add_number(count)?,
                Some(count) if *byte == b'~' => self.add_number(count.saturating_sub(1))?,
                _ => self.add_sign(*byte)?,
            }
        }
        Ok(())
    }

    /// Adds the digits of a number.
    fn add_number(&mut self, count: u64) -> io::Result<()> {
        let digits = format!(in self.alloc; "{count}")?;
        self.open.extend_from_slice(digits.as_bytes())?;
        Ok(())
    }

    /// Adds what a sign stands for: itself, where it is no mark.
    fn add_sign(&mut self, sign: u8) -> io::Result<()> {
        for mark in self.marks.iter() {
            if mark.0 == sign {
                self.open.extend_from_slice(mark.1.as_slice())?;
                return Ok(());
            }
        }
        self.open.push(sign)?;
        Ok(())
    }
}
