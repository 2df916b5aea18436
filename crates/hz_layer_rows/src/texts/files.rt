//! A file of six bytes in memory, read four bytes at a time, a file that counts how it is read, and sinks in memory.

ghost use Rattle.std.specs.Prelude.{◌≡◌, ◌^◌, ◌<◌, IfOk, IfSome};

use crate::written::text_of;
use hz_io::{Failed, FileName, Files, MemFiles, MemSink, Sink, SlurpFault, slurp};
use std::alloc::{AllocError, Global};

/// One file `d` with the bytes `abcdef`, of which a read gives at most four; the call with this number fails.
fn six_bytes(alloc: Global, fail: u64) -> Result<Option<MemFiles>, AllocError>
    ensures { IfOk result (λ files. IfSome files (λ files. files.faults ≡ 0)) }
{
    let Some(name) = FileName::of(alloc, b"d")? else {
        return Ok(None);
    };
    let mut files = Vec::new(alloc);
    files.push((name, Vec::from_slice(alloc, b"abcdef")?))?;
    let fail = vec![in alloc; fail]?;
    Ok(Some(MemFiles::new(files, fail, 4)))
}

/// What was read, or why nothing was.
fn read_text(alloc: Global, read: Result<Vec<u8>, SlurpFault>) -> Result<String, AllocError> {
    match read {
        Ok(bytes) => String::from_str(alloc, text_of(&bytes)),
        Err(fault) => fault.to_string(alloc),
    }
}

/// What is read of the file of a name, where so many bytes are allowed and the call of a number fails: `NAME MOST FAIL`.
pub fn answer_reading(alloc: Global, text: &[u8]) -> Result<String, AllocError> {
    let (name, numbers) = text_of(text).split_once(' ').unwrap_or(("", ""));
    let (most, fail) = numbers.split_once(' ').unwrap_or(("", ""));
    let (Ok(most), Ok(fail)) = (most.parse::<u32>(), fail.parse::<u64>()) else {
        return String::from_str(alloc, "no numbers");
    };
    match six_bytes(alloc, fail)? {
        Some(mut files) => read_text(alloc, slurp(alloc, &mut files, name, u64::from(most))),
        None => String::from_str(alloc, "no file"),
    }
}

/// A file of two bytes `a`, one at a time, which counts what it is asked for: after a second opening, and after its end,
/// it reads `z`.
#[derive(Drop)]
struct Once {
    openings: u32,
    ends: u32,
    reads: u32,
}

impl Files for Once {
    ghost use Rattle.std.specs.Prelude.{None};

    ghost held = { λ _. None };

    ghost rest = { λ _. None };

    ghost steady = { λ _. Unit {0} };

    ghost faults = { λ _. 0 };

    fn open(&mut self, name: &str) -> Result<(), Failed> {
        let _name = name;
        self.openings = self.openings.saturating_add(1);
        Ok(())
    }

    fn read(&mut self, into: &mut [u8]) -> Result<usize, Failed> {
        self.reads = self.reads.saturating_add(1);
        if self.reads == 3 || self.reads > 5 {
            self.ends = self.ends.saturating_add(1);
            return Ok(0);
        }
        let byte = if self.openings == 1 && self.ends == 0 {
            b'a'
        } else {
            b'z'
        };
        into[..1].copy_from_slice(&[byte]);
        Ok(1)
    }
}

/// What is read of the file of a name that counts, and how often it was opened, read, and read at its end.
pub fn answer_openings(alloc: Global, text: &[u8]) -> Result<String, AllocError> {
    let mut files = Once {
        openings: 0,
        ends: 0,
        reads: 0,
    };
    let read = slurp(alloc, &mut files, text_of(text), 9);
    let read = read_text(alloc, read)?;
    let Once {
        openings,
        ends,
        reads,
    } = files;
    format!(in alloc; "{read}, opened {openings}, read {reads}, at the end {ends}")
}

/// What a sink with so much room answers to `abc` and then to `def`, and what it holds then.
pub fn answer_sink(alloc: Global, text: &[u8]) -> Result<String, AllocError> {
    let Ok(room) = text_of(text).parse::<u32>() else {
        return String::from_str(alloc, "no number");
    };
    let mut sink = MemSink::new(alloc, room)?;
    let first = sink.put(b"abc");
    let second = sink.put(b"def");
    format!(in alloc; "{first:?} {second:?} {}", text_of(sink.bytes()))
}
