//! The lines of a file of rows.

use super::content::Content;
use super::faults::{is_unreadable, unreadable};
use super::row::Row;
use super::running::{Judge, Tally};
use super::ways::run_row;
use hz_io::MemSink;
use std::{io, mem};

/// What the lines of a text are of.
#[derive(Drop)]
enum Place {
    Nothing,
    Named(String),
    Mark(u8),
    File(String),
    Part(String),
    Answer(String),
}

/// A file of rows: the texts that its lines name, its present group, and the row that is read.
#[derive(Drop)]
pub struct Reader<'a> {
    rt: &'a HostRuntime,
    file: &'a str,
    content: Content,
    place: Place,
    group: Row,
    has_rows: bool,
    row: Option<Row>,
}

impl<'a> Reader<'a> {
    /// The beginning of the file.
    pub fn new(rt: &'a HostRuntime, file: &'a str) -> io::Result<Reader<'a>> {
        let alloc = rt.alloc();
        Ok(Reader {
            rt,
            file,
            content: Content::new(alloc),
            place: Place::Nothing,
            group: Row::new(alloc, "")?,
            has_rows: true,
            row: None,
        })
    }

    /// Reads a line. One that says nothing is printed, as a difference.
    pub fn read_line(&mut self, line: &str, number: usize, tally: &mut Tally) -> io::Result<()> {
        let file = self.file;
        match self.take_line(line, tally) {
            Err(error) if is_unreadable(&error) => {
                println!(self.rt; "{file}: line {number}: cannot be read")
            }
            outcome => outcome,
        }
    }

    /// Runs the last row.
    pub fn end(&mut self, tally: &mut Tally) -> io::Result<()> {
        self.read_line("group end", 0, tally)
    }

    /// Takes a line: of a text, or what a word of its own begins. Empty lines and those that begin with `;` say nothing.
    fn take_line(&mut self, line: &str, tally: &mut Tally) -> io::Result<()> {
        if line.is_empty() || line.starts_with(';') {
            return Ok(());
        }
        if self.content.add_line(line)? {
            return self.see_place();
        }
        self.close()?;
        let (word, rest) = line.split_once(' ').unwrap_or((line, ""));
        self.take_word(word, rest, tally)
    }

    /// A line of a text belongs to one.
    fn see_place(&self) -> io::Result<()> {
        match self.place {
            Place::Nothing => Err(unreadable()),
            _ => Ok(()),
        }
    }

    /// Takes a word that begins a text, a group or a row, or a setting.
    fn take_word(&mut self, word: &str, rest: &str, tally: &mut Tally) -> io::Result<()> {
        match word {
            "text" | "mark" | "group" | "row" => {
                let ended = self.end_row(tally);
                self.begin(word, rest)?;
                ended
            }
            "file" | "part" | "status" => self.begin_content(word, rest),
            _ => {
                let alloc = self.rt.alloc();
                self.present().set(alloc, word, rest)
            }
        }
    }

    /// The row that is read, or the group before its first row.
    fn present(&mut self) -> &mut Row {
        match &mut self.row {
            Some(row) => row,
            None => &mut self.group,
        }
    }

    /// Begins a named text, a mark, a group or a row.
    fn begin(&mut self, word: &str, rest: &str) -> io::Result<()> {
        let alloc = self.rt.alloc();
        match word {
            "text" => self.place = Place::Named(String::from_str(alloc, rest)?),
            "mark" => self.place = Place::Mark(sign_of(rest)?),
            "group" => return self.begin_group(rest),
            _ => {
                self.has_rows = true;
                self.row = Some(Row::within(&self.group, alloc, rest)?);
            }
        }
        Ok(())
    }

    /// Begins a group. The one before has a row.
    fn begin_group(&mut self, name: &str) -> io::Result<()> {
        self.group = Row::new(self.rt.alloc(), name)?;
        if !mem::replace(&mut self.has_rows, false) {
            return Err(unreadable());
        }
        Ok(())
    }

    /// Begins a file, a part or an answer of the row.
    fn begin_content(&mut self, word: &str, rest: &str) -> io::Result<()> {
        let rest = String::from_str(self.rt.alloc(), rest)?;
        self.place = match word {
            "file" => Place::File(rest),
            "part" => Place::Part(rest),
            _ => Place::Answer(rest),
        };
        Ok(())
    }

    /// Hands the text that was read to where it belongs.
    fn close(&mut self) -> io::Result<()> {
        let alloc = self.rt.alloc();
        let bytes = self.content.take();
        match mem::replace(&mut self.place, Place::Nothing) {
            Place::Nothing => Ok(()),
            Place::Named(name) => self.content.keep(name, bytes),
            Place::Mark(sign) => self.content.mark(sign, bytes),
            Place::File(name) => self.present().set_file(name, bytes),
            Place::Part(reported) => self.present().set_part(alloc, reported.as_str(), bytes),
            Place::Answer(status) => self.present().set_answer(status.as_str(), bytes),
        }
    }

    /// Runs the row that was read, if there is one.
    fn end_row(&mut self, tally: &mut Tally) -> io::Result<()> {
        let Some(row) = mem::replace(&mut self.row, None) else {
            return Ok(());
        };
        tally.rows = tally.rows.saturating_add(1);
        let alloc = self.rt.alloc();
        let mut judge = Judge {
            rt: self.rt,
            file: self.file,
            row: row.name.as_str(),
            tally,
            written: None,
        };
        run_row(alloc, &mut judge, &row)?;
        let written = judge.written;
        self.keep(&row, written)
    }

    /// Keeps what the last run of a row wrote, where it is to be named.
    fn keep(&mut self, row: &Row, written: Option<MemSink>) -> io::Result<()> {
        let (Some(name), Some(written)) = (&row.keep, &written) else {
            return Ok(());
        };
        let bytes = Vec::from_slice(self.rt.alloc(), written.bytes())?;
        self.content.keep(name.clone()?, bytes)
    }
}

/// The sign that a mark is.
fn sign_of(rest: &str) -> io::Result<u8> {
    match rest.as_bytes() {
        [sign] => Ok(*sign),
        _ => Err(unreadable()),
    }
}
