//! The ways in which a row is run.

use super::faults::unreadable;
use super::row::{Input, Part, Row};
use super::running::{Judge, Run, Wanted};
use std::alloc::Global;
use std::io;

/// How many bytes a read gives, and the room, where tables are compiled for a walk.
const READS: usize = 65_536;

const ROOM: u32 = 100_000;

/// Runs a row in each of its ways.
pub fn run_row(alloc: Global, judge: &mut Judge<'_>, row: &Row) -> io::Result<()> {
    let Some(status) = row.status else {
        return run_parts(alloc, judge, row);
    };
    if !row.parts.is_empty() {
        return Err(unreadable());
    }
    run_words(judge, row, row.files.as_slice(), status)?;
    if row.ways.unpacked && status <= 1 {
        let files = unpacked(alloc, row)?;
        run_words(judge, row, files.as_slice(), status)?;
    }
    if row.ways.walked {
        run_walk(alloc, judge, row, status)?;
    }
    Ok(())
}

/// Runs each of the words of a row over these files.
fn run_words(judge: &mut Judge<'_>, row: &Row, files: &[Input], status: u8) -> io::Result<()> {
    if row.words.is_empty() {
        return Err(unreadable());
    }
    for words in row.words.iter() {
        let run = Run {
            words: words.as_str(),
            files,
            fail: None,
            reads: row.reads,
            room: row.room,
        };
        run_fails(judge, row, run, status)?;
    }
    Ok(())
}

/// Runs with each of the calls of a row that fail.
fn run_fails(judge: &mut Judge<'_>, row: &Row, mut run: Run<'_>, status: u8) -> io::Result<()> {
    let Some((first, last)) = row.fails else {
        return run_rooms(judge, row, run, status);
    };
    for call in first..last.saturating_add(1) {
        run.fail = Some(call);
        run_rooms(judge, row, run, status)?;
    }
    Ok(())
}

/// Room for so many bytes.
fn room_of(count: usize) -> io::Result<u32> {
    let Ok(room) = u32::try_from(count) else {
        return Err(unreadable());
    };
    Ok(room)
}

/// Runs with the room of a row, or with each room: a sink without room keeps the front of the text, with status 7.
fn run_rooms(judge: &mut Judge<'_>, row: &Row, mut run: Run<'_>, status: u8) -> io::Result<()> {
    let text = row.answer.as_slice();
    if row.ways.rooms {
        for room in 0..text.len() {
            run.room = room_of(room)?;
            let front = &text[..room];
            judge.compare(
                &run,
                &Wanted {
                    status: 7,
                    text: front,
                    front: false,
                },
            )?;
        }
        run.room = room_of(text.len())?;
    }
    let fits = text.len().min(run.room as usize);
    let text = &text[..fits];
    judge.compare(
        &run,
        &Wanted {
            status,
            text,
            front: row.ways.front,
        },
    )
}

/// The files of a row, the first with its tables kept as plain rows: after all that it has, so that no line is another.
fn unpacked(alloc: Global, row: &Row) -> io::Result<Vec<Input>> {
    let mut files = row.files.clone()?;
    let Some(first) = files.first_mut() else {
        return Err(unreadable());
    };
    first
        .bytes
        .extend_from_slice(b"\n(automata_option \"no-comb-vect\")")?;
    Ok(files)
}

/// Walks the second file on what is compiled of the first; where it has a fault, `compile` answers as the row.
fn run_walk(alloc: Global, judge: &mut Judge<'_>, row: &Row, status: u8) -> io::Result<()> {
    let [description, trace] = row.files.as_slice() else {
        return Err(unreadable());
    };
    let name = description.name.as_str();
    let words = format!(in alloc; "compile {name}")?;
    let compile = Run {
        words: words.as_str(),
        files: row.files.as_slice(),
        fail: None,
        reads: READS,
        room: ROOM,
    };
    let text = row.answer.as_slice();
    let wanted = Wanted {
        status,
        text,
        front: false,
    };
    let (compiled, tables) = compile.answer(alloc)?;
    if compiled != 0 {
        return judge.compare(&compile, &wanted);
    }
    let tables = Input {
        name: String::from_str(alloc, "k")?,
        bytes: Vec::from_slice(alloc, tables.bytes())?,
    };
    let trace_name = trace.name.as_str();
    let words = format!(in alloc; "walk k {trace_name}")?;
    let files = vec![in alloc; tables, trace.clone()?]?;
    let walk = Run {
        words: words.as_str(),
        files: files.as_slice(),
        fail: None,
        reads: READS,
        room: row.room,
    };
    judge.compare(&walk, &wanted)
}

/// Runs each part of a row alone and before each other one, on a line of its own after the lines of the first file.
fn run_parts(alloc: Global, judge: &mut Judge<'_>, row: &Row) -> io::Result<()> {
    if row.parts.is_empty() {
        return Err(unreadable());
    }
    for (place, part) in row.parts.iter().enumerate() {
        run_lines(alloc, judge, row, part.bytes.as_slice(), 2, part)?;
        for (other_place, other) in row.parts.iter().enumerate() {
            if other_place != place {
                let lines = lines_of(alloc, part, other)?;
                if row.ways.lesser && other_place < place {
                    run_lines(alloc, judge, row, lines.as_slice(), 3, other)?;
                } else {
                    run_lines(alloc, judge, row, lines.as_slice(), 2, part)?;
                }
            }
        }
    }
    Ok(())
}

/// Two parts on a line each.
fn lines_of(alloc: Global, part: &Part, other: &Part) -> io::Result<Vec<u8>> {
    let mut lines = part.bytes.clone()?;
    lines.push(b'\n')?;
    lines.extend_from_slice(other.bytes.as_slice())?;
    Ok(lines)
}

/// Runs with these lines after those of the first file: this part is reported, on this line.
fn run_lines(
    alloc: Global,
    judge: &mut Judge<'_>,
    row: &Row,
    lines: &[u8],
    line: u32,
    reported: &Part,
) -> io::Result<()> {
    let mut whole = row.clone()?;
    let Some(first) = whole.files.first_mut() else {
        return Err(unreadable());
    };
    first.bytes.extend_from_slice(lines)?;
    first.bytes.push(b'\n')?;
    let kind = if reported.status == 3 {
        "limit"
    } else {
        "fault"
    };
    let file = first.name.as_str();
    let name = reported.reported.as_str();
    let text = format!(in alloc; "{kind} {file} line {line} {name}\n")?;
    whole.answer = Vec::from_slice(alloc, text.as_bytes())?;
    run_words(judge, &whole, whole.files.as_slice(), reported.status)
}
