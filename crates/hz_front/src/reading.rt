//! Files read whole, within their limits: all files of an order, before anything is judged.

ghost use Rattle.std.specs.Prelude.{◌≡◌, ◌⊎◌, ◌-◌, ◌^◌, ◌<◌, ◌≤◌, IfErr, IfOk, Contains, None, All, length, map, vec_len};
ghost use Rattle.std.specs.Option.{ForSome};
ghost use Rattle.hz_pipeline_model.specs.Traces.TraceLimits.{trace_limit};
ghost use Rattle.hz_description_model.specs.Reading.Limits.{description_limit};
ghost use Rattle.hz_front.specs.Refusals.{Agrees, NamesFile};
ghost use Rattle.hz_front.specs.Reading.{AreRead, CountsRead, IsReadRefusal, IsUnread, TellsFile, texts_in, wanted_in, word_of};

use crate::refusal::Refusal;
use crate::refusing::refuse_slurp;
use hz_io::{Files, slurp};
use std::alloc::Global;

/// Bytes of a description, at most.
const DESCRIPTION_LIMIT: u64 = 4_194_304;

/// Bytes of a trace, at most.
const TRACE_LIMIT: u64 = 67_108_864;

/// A file that is read: the word that names it, and how many bytes it has at most.
#[derive(Clone, Copy)]
pub struct FileWord<'a> {
    pub name: &'a str,
    pub most: u64,
}

/// The file of a description.
pub fn description_file<'a>(name: &'a str) -> FileWord<'a>
    ensures { result ≡ word_of name.entry description_limit }
{
    FileWord {
        name,
        most: DESCRIPTION_LIMIT,
    }
}

/// The file of a trace.
pub fn trace_file<'a>(name: &'a str) -> FileWord<'a>
    ensures { result ≡ word_of name.entry trace_limit }
{
    FileWord {
        name,
        most: TRACE_LIMIT,
    }
}

/// The bytes of the file of this name, at most `most`, or what is refused if it was not read.
fn read_file<'a, F: Files>(
    alloc: Global,
    files: &mut F,
    name: &'a str,
    most: u64,
) -> Result<Vec<u8>, Refusal<'a>>
    requires most { most < 2 ^ 32 }
    requires below { F.faults files.old < 2 ^ 64 - 1 }
    ensures counts { CountsRead (F.faults files.old) (F.faults files.new) result }
    ensures held { F.held files.new ≡ F.held files.old }
    ensures steady { F.steady files.old → F.steady files.new }
    ensures length { IfOk result (λ bytes. vec_len bytes ≤ most) }
    ensures kind { IfErr result (IsReadRefusal (λ other. other ≡ name.entry.now)) }
    ensures tells { ForSome (F.held files.old) (λ held. (F.faults files.new ≡ F.faults files.old) ⊎ F.steady files.old → TellsFile held name.entry.now most result) }
{
    match slurp(alloc, files, name, most) {
        Ok(bytes) => Ok(bytes),
        Err(fault) => Err(refuse_slurp(name, fault)),
    }
}

/// The bytes of all files, each within its limit, or what is refused if one was not read, after which no other is opened.
pub fn read_all<'a, F: Files>(
    alloc: Global,
    files: &mut F,
    wanted: &[FileWord<'a>],
) -> Result<Vec<Vec<u8>>, Refusal<'a>>
    requires low { All (λ file. file.most < 2 ^ 32) wanted.now }
    requires below { F.faults files.old < 2 ^ 64 - 1 }
    ensures counts { CountsRead (F.faults files.old) (F.faults files.new) result }
    ensures long { IfOk result (λ texts. length texts.items ≡ length wanted.now) }
    ensures short { IfOk result (λ texts. All (λ text. length text.items < 2 ^ 32) texts.items) }
    ensures kind { IfErr result (IsReadRefusal (Contains (map (λ file. file.name) (wanted_in wanted.now)))) }
    ensures lacks { ForSome (F.held files.old) (λ held. F.steady files.old → IfErr result (NamesFile (λ name. held name ≡ None))) }
    ensures read { ForSome (F.held files.old) (λ held. IfOk result (λ texts. AreRead held (wanted_in wanted.now) (texts_in texts.items))) }
    ensures refused { ForSome (F.held files.old) (λ held. (F.faults files.new ≡ F.faults files.old) ⊎ F.steady files.old → IfErr result (Agrees (IsUnread held (wanted_in wanted.now)))) }
{
    let mut texts = Vec::new(alloc);
    for file in wanted {
        let text = match read_file(alloc, files, file.name, file.most) {
            Ok(text) => text,
            Err(refusal) => return Err(refusal),
        };
        match texts.push(text) {
            Ok(()) => {}
            Err(_) => return Err(Refusal::Memory),
        }
    }
    Ok(texts)
}
