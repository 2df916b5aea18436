//! One run, and its comparison with what is wanted.

ghost use Rattle.std.specs.Prelude.{◌≡◌, ◌<◌, IfOk, [], ◌∷◌};
ghost use Rattle.hz_io.specs.Drive.{are_distinct};

use super::faults::unreadable;
use super::row::Input;
use hz_io::{FileName, MemFiles, MemSink};
use hz_tool::run;
use std::alloc::Global;
use std::io;

/// How many rows and runs there were.
#[derive(Drop)]
pub struct Tally {
    pub rows: u64,
    pub runs: u64,
}

/// What is run: the words, the files, the call that fails, the most bytes of a read and the room of the sink.
#[derive(Clone, Copy, Drop)]
pub struct Run<'a> {
    pub words: &'a str,
    pub files: &'a [Input],
    pub fail: Option<u64>,
    pub reads: usize,
    pub room: u32,
}

/// The words of a line: `""` is one without a letter.
fn words_of(alloc: Global, line: &str) -> io::Result<Vec<String>> {
    let mut words = Vec::new(alloc);
    for piece in line.split_whitespace() {
        let word = if piece == "\"\"" { "" } else { piece };
        words.push(String::from_str(alloc, word)?)?;
    }
    Ok(words)
}

/// The name of a file.
fn name_of(alloc: Global, file: &Input) -> io::Result<FileName> {
    let name = FileName::of(alloc, file.name.as_bytes())?;
    name.ok_or(unreadable())
}

/// Whether three names differ.
fn are_apart(one: &FileName, other: &FileName, last: &FileName) -> bool
    ensures { result ≡ are_distinct (one.now ∷ other.now ∷ last.now ∷ []) }
{
    one.bytes() != other.bytes() && one.bytes() != last.bytes() && other.bytes() != last.bytes()
}

/// Three files of different names at most, of which a read gives at most so many bytes and this call fails.
fn files_of(alloc: Global, files: &[Input], fail: Option<u64>, reads: usize) -> io::Result<MemFiles>
    requires { 0 < reads }
    ensures { IfOk result (λ files. files.faults ≡ 0) }
{
    let mut fails = Vec::new(alloc);
    if let Some(call) = fail {
        fails.push(call)?;
    }
    match files {
        [] => Ok(MemFiles::new(Vec::new(alloc), fails, reads)),
        [only] => {
            let name = name_of(alloc, only)?;
            let held = vec![in alloc; (name, only.bytes.clone()?)]?;
            Ok(MemFiles::new(held, fails, reads))
        }
        [first, second] => {
            let one = name_of(alloc, first)?;
            let other = name_of(alloc, second)?;
            if one.bytes() == other.bytes() {
                return Err(unreadable());
            }
            let held = vec![in alloc; (one, first.bytes.clone()?), (other, second.bytes.clone()?)]?;
            Ok(MemFiles::new(held, fails, reads))
        }
        [first, second, third] => {
            let one = name_of(alloc, first)?;
            let other = name_of(alloc, second)?;
            let last = name_of(alloc, third)?;
            if !are_apart(&one, &other, &last) {
                return Err(unreadable());
            }
            let held = vec![in alloc;
                (one, first.bytes.clone()?),
                (other, second.bytes.clone()?),
                (last, third.bytes.clone()?),
            ]?;
            Ok(MemFiles::new(held, fails, reads))
        }
        _ => Err(unreadable()),
    }
}

impl Run<'_> {
    /// The status, and the sink with what was written: by `hz_same` if the first word is that, else by `hz`.
    pub fn answer(&self, alloc: Global) -> io::Result<(u8, MemSink)> {
        if self.reads == 0 {
            return Err(unreadable());
        }
        let words = words_of(alloc, self.words)?;
        let mut files = files_of(alloc, self.files, self.fail, self.reads)?;
        let mut out = MemSink::new(alloc, self.room)?;
        let status = if words.is_empty() || words[0].as_str() != "hz_same" {
            run(alloc, words.as_slice(), &mut files, &mut out)
        } else {
            hz_same_top::run(alloc, &words[1..], &mut files, &mut out)
        };
        Ok((status, out))
    }
}

/// The answer that is wanted: the status, and the text or its front.
#[derive(Clone, Copy, Drop)]
pub struct Wanted<'a> {
    pub status: u8,
    pub text: &'a [u8],
    pub front: bool,
}

impl Wanted<'_> {
    /// Whether an answer is this one.
    fn is_met(&self, status: u8, text: &[u8]) -> bool {
        let is_text = if self.front {
            text.starts_with(self.text)
        } else {
            text == self.text
        };
        is_text && status == self.status
    }
}

/// The most bytes of an answer that are printed.
const SHOWN: usize = 200;

/// Where differences are printed: the file of rows and the row.
#[derive(Drop)]
pub struct Judge<'a> {
    pub rt: &'a HostRuntime,
    pub file: &'a str,
    pub row: &'a str,
    pub tally: &'a mut Tally,
    /// What the last run wrote.
    pub written: Option<MemSink>,
}

impl Judge<'_> {
    /// Runs, and prints a line where the answer differs.
    pub fn compare(&mut self, run: &Run<'_>, wanted: &Wanted<'_>) -> io::Result<()> {
        self.tally.runs = self.tally.runs.saturating_add(1);
        let (status, out) = run.answer(self.rt.alloc())?;
        if !wanted.is_met(status, out.bytes()) {
            self.print(run, status, out.bytes())?;
        }
        self.written = Some(out);
        Ok(())
    }

    /// Prints what came of a run.
    fn print(&self, run: &Run<'_>, status: u8, text: &[u8]) -> io::Result<()> {
        let rt = self.rt;
        let file = self.file;
        let row = self.row;
        let words = run.words;
        let fail = run.fail;
        let room = run.room;
        let shown = &text[..text.len().min(SHOWN)];
        let text = str::from_utf8(shown).unwrap_or("no text");
        println!(rt; "{file}: {row}: {words}: fail {fail:?} room {room}: came {status} {text:?}")
    }
}
