//! A row: what is run, and the answer that is wanted.

use super::faults::{number, small_number, unreadable};
use std::alloc::Global;
use std::io;

/// A file: its name and its bytes.
#[derive(Clone, Drop)]
pub struct Input {
    pub name: String,
    pub bytes: Vec<u8>,
}

/// Lines of a description, and what is reported of them: the status, the kind and the name.
#[derive(Clone, Drop)]
pub struct Part {
    pub bytes: Vec<u8>,
    pub status: u8,
    pub reported: String,
}

/// In which ways a row is run.
#[derive(Clone, Copy, Drop)]
pub struct Ways {
    /// With each room from none to what the answer needs.
    pub rooms: bool,
    /// With tables kept as plain rows too.
    pub unpacked: bool,
    /// By a walk on what is compiled too.
    pub walked: bool,
    /// Of two parts the one that stands first in the list is reported, and not the one that stands first in the file.
    pub lesser: bool,
    /// What is written only begins with the answer.
    pub front: bool,
}

/// A row.
#[derive(Clone, Drop)]
pub struct Row {
    pub name: String,
    pub words: Vec<String>,
    pub own_words: bool,
    pub files: Vec<Input>,
    pub parts: Vec<Part>,
    pub fails: Option<(u64, u64)>,
    pub reads: usize,
    pub room: u32,
    pub ways: Ways,
    pub status: Option<u8>,
    pub answer: Vec<u8>,
    pub keep: Option<String>,
}

impl Row {
    /// A row of this name that says nothing.
    pub fn new(alloc: Global, name: &str) -> io::Result<Row> {
        Ok(Row {
            name: String::from_str(alloc, name)?,
            words: Vec::new(alloc),
            own_words: true,
            files: Vec::new(alloc),
            parts: Vec::new(alloc),
            fails: None,
            reads: 64,
            room: 1000,
            ways: Ways {
                rooms: false,
                unpacked: false,
                walked: false,
                lesser: false,
                front: false,
            },
            status: None,
            answer: Vec::new(alloc),
            keep: None,
        })
    }

    /// A row of this group.
    pub fn within(group: &Row, alloc: Global, name: &str) -> io::Result<Row> {
        let mut row = group.clone()?;
        let front = group.name.as_str();
        row.name = format!(in alloc; "{front}: {name}")?;
        row.own_words = false;
        Ok(row)
    }

    /// Takes a setting by its word.
    pub fn set(&mut self, alloc: Global, word: &str, rest: &str) -> io::Result<()> {
        match word {
            "words" => self.set_words(alloc, rest),
            "reads" => self.set_reads(rest),
            "room" => self.set_room(rest),
            "fail" => self.set_fails(rest),
            "also" => self.set_way(rest),
            "keep" => self.set_keep(alloc, rest),
            _ => Err(unreadable()),
        }
    }

    /// Takes words, in place of those of the group.
    fn set_words(&mut self, alloc: Global, words: &str) -> io::Result<()> {
        if !self.own_words {
            self.words.clear();
            self.own_words = true;
        }
        self.words.push(String::from_str(alloc, words)?)?;
        Ok(())
    }

    /// Takes how many bytes a read gives at most.
    fn set_reads(&mut self, most: &str) -> io::Result<()> {
        self.reads = number(most)? as usize;
        Ok(())
    }

    /// Takes the room of the sink.
    fn set_room(&mut self, room: &str) -> io::Result<()> {
        let Ok(room) = room.parse::<u32>() else {
            return Err(unreadable());
        };
        self.room = room;
        Ok(())
    }

    /// Takes the calls that fail, each in turn: `FIRST LAST`, or one.
    fn set_fails(&mut self, calls: &str) -> io::Result<()> {
        let (first, last) = calls.split_once(' ').unwrap_or((calls, calls));
        let fails = (number(first)?, number(last)?);
        if fails.1 < fails.0 {
            return Err(unreadable());
        }
        self.fails = Some(fails);
        Ok(())
    }

    /// Takes a way to run the row.
    fn set_way(&mut self, way: &str) -> io::Result<()> {
        match way {
            "rooms" => self.ways.rooms = true,
            "unpacked" => self.ways.unpacked = true,
            "walked" => self.ways.walked = true,
            "lesser" => self.ways.lesser = true,
            "front" => self.ways.front = true,
            _ => return Err(unreadable()),
        }
        Ok(())
    }

    /// Takes the name that keeps what is written.
    fn set_keep(&mut self, alloc: Global, name: &str) -> io::Result<()> {
        self.keep = Some(String::from_str(alloc, name)?);
        Ok(())
    }

    /// Takes a file, in place of the group's of its name.
    pub fn set_file(&mut self, name: String, bytes: Vec<u8>) -> io::Result<()> {
        for file in self.files.iter_mut() {
            if file.name.as_str() == name.as_str() {
                file.bytes = bytes;
                return Ok(());
            }
        }
        self.files.push(Input { name, bytes })?;
        Ok(())
    }

    /// Takes lines of a description with what is reported of them: `STATUS KIND NAME`.
    pub fn set_part(&mut self, alloc: Global, reported: &str, bytes: Vec<u8>) -> io::Result<()> {
        let Some((status, reported)) = reported.split_once(' ') else {
            return Err(unreadable());
        };
        let status = small_number(status)?;
        let reported = String::from_str(alloc, reported)?;
        self.parts.push(Part {
            bytes,
            status,
            reported,
        })?;
        Ok(())
    }

    /// Takes the status and the text of the answer.
    pub fn set_answer(&mut self, status: &str, bytes: Vec<u8>) -> io::Result<()> {
        self.status = Some(small_number(status)?);
        self.answer = bytes;
        Ok(())
    }
}
