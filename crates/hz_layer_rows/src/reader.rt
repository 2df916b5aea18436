//! Reads the rows of a file.
//!
//! Each line of a file begins with a mark and a blank. What is after these is as it stands, but for `%` and two hexadecimal
//! digits, a byte, and `%@`, a name of 300 bytes.
//!
//! - `#` a comment, and so is an empty line
//! - `<` a text
//! - `>` the answer that is wanted of each text after the last answer
//! - `&` what stands beside the texts whose answers follow
//! - `|` a frame, in which texts stand at `%*`; of frames one after another each holds each text whose answer follows
//! - `=` a frame for frames: `%<` is what a frame has before its `%*`, and `%>` what it has after that
//!
//! A line of these is continued by others: `+` adds a line feed and a text, `~` a text alone, and `* 0..9 TEXT` adds the text
//! for each number from 0 to 8, with the number in place of `%#` and the next one in place of `%+`.

use crate::written::{add_repeated, bytes_of, framed};
use std::alloc::{AllocError, Global};

/// What a row asks, and the answer that is wanted.
#[derive(Drop)]
pub struct Case {
    pub text: Vec<u8>,
    pub beside: Vec<u8>,
    pub wanted: Vec<u8>,
}

/// A row at the line where its text begins, counted from 1; no case where it is written wrongly.
#[derive(Drop)]
pub struct Row {
    pub line: u32,
    pub case: Option<Case>,
}

/// A text as it is written, at its first line.
#[derive(Drop)]
struct Written {
    line: u32,
    text: String,
}

/// What is read so far: the frames and what stands beside the texts that follow, the texts whose answer isn't read, the
/// text that is read now with the mark of its first line, and the rows.
#[derive(Drop)]
struct Reader<'a> {
    outer: String,
    frames: Vec<String>,
    beside: String,
    asked: Vec<Written>,
    mark: &'a str,
    now: Written,
    rows: Vec<Row>,
}

impl<'a> Reader<'a> {
    /// Nothing is read.
    fn new(alloc: Global) -> Result<Reader<'a>, AllocError> {
        Ok(Reader {
            outer: String::from_str(alloc, "%<%*%>")?,
            frames: vec![in alloc; String::from_str(alloc, "%*")?]?,
            beside: String::new(alloc),
            asked: Vec::new(alloc),
            mark: "",
            now: Written {
                line: 0,
                text: String::new(alloc),
            },
            rows: Vec::new(alloc),
        })
    }

    /// Adds a row that is written wrongly.
    fn refuse(&mut self, line: u32) -> Result<(), AllocError> {
        self.rows.push(Row { line, case: None })?;
        Ok(())
    }

    /// The case of a text in a frame, where all are written rightly.
    fn case(
        &self,
        alloc: Global,
        frame: &str,
        text: &str,
        wanted: &str,
    ) -> Result<Option<Case>, AllocError> {
        let Some(text) = framed(alloc, self.outer.as_str(), frame, text)? else {
            return Ok(None);
        };
        let text = bytes_of(alloc, text.as_str())?;
        let beside = bytes_of(alloc, self.beside.as_str())?;
        let wanted = bytes_of(alloc, wanted)?;
        Ok(match (text, beside, wanted) {
            (Some(text), Some(beside), Some(wanted)) => Some(Case {
                text,
                beside,
                wanted,
            }),
            _ => None,
        })
    }

    /// Adds a row for each frame of a text.
    fn add_rows(&mut self, alloc: Global, asked: &Written, wanted: &str) -> Result<(), AllocError> {
        for place in 0..self.frames.len() {
            let case = self.case(
                alloc,
                self.frames[place].as_str(),
                asked.text.as_str(),
                wanted,
            )?;
            self.rows.push(Row {
                line: asked.line,
                case,
            })?;
        }
        Ok(())
    }

    /// Adds the rows of the texts whose answer is read now.
    fn answer(&mut self, alloc: Global, wanted: Written) -> Result<(), AllocError> {
        let asked = std::mem::replace(&mut self.asked, Vec::new(alloc));
        if asked.is_empty() {
            return self.refuse(wanted.line);
        }
        for one in &asked {
            self.add_rows(alloc, one, wanted.text.as_str())?;
        }
        Ok(())
    }

    /// Puts the text that was read where its mark says.
    fn close(&mut self, alloc: Global, next: Written) -> Result<(), AllocError> {
        let read = std::mem::replace(&mut self.now, next);
        match self.mark {
            "<" => Ok(self.asked.push(read)?),
            ">" => self.answer(alloc, read),
            "|" => Ok(self.frames.push(read.text)?),
            "&" => {
                self.beside = read.text;
                Ok(())
            }
            "=" => {
                self.outer = read.text;
                Ok(())
            }
            _ => Ok(()),
        }
    }

    /// Begins a text.
    fn begin(
        &mut self,
        alloc: Global,
        line: u32,
        mark: &'a str,
        text: &str,
    ) -> Result<(), AllocError> {
        let next = Written {
            line,
            text: String::from_str(alloc, text)?,
        };
        let before = self.mark;
        self.close(alloc, next)?;
        self.mark = mark;
        if mark == "|" && before != "|" {
            self.frames.clear();
        }
        Ok(())
    }

    /// Adds to the text that is read now what a line repeats.
    fn repeat(&mut self, line: u32, text: &str) -> Result<(), AllocError> {
        let (numbers, piece) = text.split_once(' ').unwrap_or((text, ""));
        if add_repeated(&mut self.now.text, numbers, piece)? {
            Ok(())
        } else {
            self.refuse(line)
        }
    }

    /// Reads a line.
    fn take(&mut self, alloc: Global, number: u32, line: &'a str) -> Result<(), AllocError> {
        let (mark, text) = line.split_once(' ').unwrap_or((line, ""));
        match mark {
            "" | "#" => Ok(()),
            "<" | ">" | "|" | "&" | "=" => self.begin(alloc, number, mark, text),
            "+" => {
                self.now.text.push('\n')?;
                self.now.text.push_str(text)
            }
            "~" => self.now.text.push_str(text),
            "*" => self.repeat(number, text),
            _ => self.refuse(number),
        }
    }
}

/// The rows of a text.
pub fn read_rows(alloc: Global, text: &str) -> Result<Vec<Row>, AllocError> {
    let mut reader = Reader::new(alloc)?;
    let mut number = 0u32;
    for line in text.lines() {
        number = number.saturating_add(1);
        reader.take(alloc, number, line)?;
    }
    reader.begin(alloc, number, "", "")?;
    if !reader.asked.is_empty() {
        reader.refuse(number)?;
    }
    let Reader { rows, .. } = reader;
    Ok(rows)
}
