//! The rows: what `run` answers, over files and a sink in memory, that of `hz` or of `hz_same`. The arguments name the files of rows, which stand in
//! `data`. Each row whose answer differs is printed, and each line that cannot be read; the last line counts rows and runs.
//!
//! An empty line says nothing, nor does one that begins with `;`. Rows are said by these lines:
//!
//! ```text
//! group NAME         what is said before its first row holds for each of its rows
//! row NAME           a row: what it says replaces what its group says
//! words WORD WORD .. what `run` is given; `""` is a word without a letter. Several lines: each of them in turn. If the first is
//!                    `hz_same`, it is for that program, and the others are what its `run` is given
//! file NAME          a file, whose text follows. There are three at most
//! reads COUNT        the most bytes that a read gives, 64 if it is not said
//! fail CALL CALL     each call from the first number to the last fails, in a run of its own
//! room COUNT         the room of the sink, 1000 if it is not said
//! status NUMBER      the status. The text that is written follows: what has no room of it is cut
//! part NUMBER KIND NAME   lines of the first file, and the status, the kind and the name that are reported of them.
//!                    Each part of a row stands alone and before each other one, and it is reported
//! keep NAME          what the last run writes is kept as a text of this name
//! also rooms         with each room up to the text's length: a smaller one has status 7 and the front of the text
//! also unpacked      with tables kept as plain rows too, where the status is 0 or 1
//! also walked        by `walk` on what `compile` writes too; where that tells a fault, it is the row's
//! also lesser        of two parts the one that the row says first is reported, whichever stands first in the file
//! also front         what is written only begins with the text
//! text NAME          a text that later lines can use
//! mark SIGN          a text that the sign stands for in later lines
//! ```
//!
//! And texts by these:
//!
//! ```text
//! |LINE              the line, with a line feed
//! :PART              a part of a line, without one
//! use NAME           a text
//! fill COUNT BYTE    so many bytes of this number
//! each FIRST LAST PIECE   one of the first three for each number from the first to the last: `#` is the number, `~` the one before
//! ```
#![tactic(auto)]

mod content;
mod faults;
mod reader;
mod row;
mod running;
mod ways;

use reader::Reader;
use running::Tally;
use std::{env, fs, io};

/// Reads a file of rows and runs them.
fn run_file(rt: &HostRuntime, name: &str, tally: &mut Tally) -> io::Result<()> {
    let text = fs::read_to_string(rt, name)?;
    let mut reader = Reader::new(rt, name)?;
    for (place, line) in text.lines().enumerate() {
        reader.read_line(line, place.saturating_add(1), tally)?;
    }
    reader.end(tally)
}

fn main(rt: HostRuntime) -> io::Result<()> {
    let mut tally = Tally { rows: 0, runs: 0 };
    let names: Vec<String> = env::args(&rt)?.collect(rt.alloc())?;
    for name in names.iter().skip(1) {
        run_file(&rt, name.as_str(), &mut tally)?;
    }
    println!(rt; "{} rows, {} runs", tally.rows, tally.runs)
}
