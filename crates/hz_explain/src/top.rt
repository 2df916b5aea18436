//! The top call: the words, the files, the texts, and then the answer.

ghost use Rattle.std.specs.Prelude.{◌≡◌, ◌⊎◌, ◌↔◌, ℕ, List, ◌-◌, ◌^◌, ◌<◌, ◌≤◌, IfOk, IfErr, None, Some, All, length};
ghost use Rattle.std.specs.Option.{ForSome};
ghost use Rattle.hz_front_model.specs.Texts.{memory_line};
ghost use Rattle.hz_front.specs.Endings.{AppendsFile, Completes, DecidesWords, HasAll, HasRoom, IsAppended, IsCutShort, IsOrdered};
ghost use Rattle.hz_front.specs.Reading.{texts_in};
ghost use Rattle.hz_front.specs.Refusals.{CountsDecided, IsJudged, NamesIn};
ghost use Rattle.hz_tool_words.specs.Shape.{words_in};
ghost use Rattle.hz_why_model.specs.Answers.{AnswersFiles, JudgesTexts, WhyAnswer, why_files, why_usage};
ghost use Rattle.hz_explain.specs.Deciding.{Answers, IsFileWord, IsOneOf, decided_in};

use crate::judging::explain_texts;
use crate::whole::Explained;
use crate::words::files_named;
use hz_front::ending::finish;
use hz_front::reading::{description_file, read_all, trace_file};
use hz_front::refusal::Refusal;
use hz_io::{Files, Sink};
use std::alloc::Global;

/// The line that answers words that are not two names of files.
const USAGE: &str = "usage: hz_why DESC TRACE\n";

/// What is reported of a trace by the bytes of the two files.
fn explain_read<'a>(
    alloc: Global,
    file: &'a str,
    trace: &'a str,
    texts: &[Vec<u8>],
) -> Result<Explained, Refusal<'a>>
    requires count { length texts.now ≡ 2 }
    requires short { All (λ text. length text.items < 2 ^ 32) texts.now }
    ensures low { IfOk result (λ whole. whole.status ≤ 1) }
    ensures kind { IfErr result IsJudged }
    ensures answer { Answers (JudgesTexts file.entry.now trace.entry.now (texts_in texts.now)) result }
{
    explain_texts(alloc, file, texts[0].as_slice(), trace, texts[1].as_slice())
}

/// What is reported of a trace by the two files: both are read before any is judged.
fn explain_files<'a, F: Files>(
    alloc: Global,
    file: &'a str,
    trace: &'a str,
    files: &mut F,
) -> Result<Explained, Refusal<'a>>
    requires { F.faults files.old < 2 ^ 64 - 1 }
    ensures counts { CountsDecided (F.faults files.old) (F.faults files.new) (decided_in result) }
    ensures order { IsOrdered (decided_in result) }
    ensures low { IfOk result (λ whole. whole.status ≤ 1) }
    ensures file { NamesIn (IsOneOf (file.entry.now, trace.entry.now)) (decided_in result) }
    ensures lacks { ForSome (F.held files.old) (λ held. F.steady files.old → NamesIn (λ name. held name ≡ None) (decided_in result)) }
    ensures answer { ForSome (F.held files.old) (λ held. (F.faults files.new ≡ F.faults files.old) ⊎ F.steady files.old → Answers (AnswersFiles held (file.entry.now, trace.entry.now)) result) }
{
    let wanted = [description_file(file), trace_file(trace)];
    match read_all(alloc, files, &wanted) {
        Ok(texts) => explain_read(alloc, file, trace, texts.as_slice()),
        Err(refusal) => Err(refusal),
    }
}

/// What is decided of the words.
fn decide<'a, F: Files>(
    alloc: Global,
    words: &'a [String],
    files: &mut F,
) -> Result<Explained, Refusal<'a>>
    requires { F.faults files.old < 2 ^ 64 - 1 }
    ensures counts { CountsDecided (F.faults files.old) (F.faults files.new) (decided_in result) }
    ensures words { DecidesWords ⊥ why_usage (why_files (words_in words.entry.now)) (decided_in result) }
    ensures low { IfOk result (λ whole. whole.status ≤ 1) }
    ensures file { NamesIn (IsFileWord (words_in words.entry.now)) (decided_in result) }
    ensures lacks { ForSome (F.held files.old) (λ held. F.steady files.old → NamesIn (λ name. held name ≡ None) (decided_in result)) }
    ensures answer { ForSome (F.held files.old) (λ held. (F.faults files.new ≡ F.faults files.old) ⊎ F.steady files.old → Answers (WhyAnswer (words_in words.entry.now) held) result) }
{
    match files_named(words) {
        Some((file, trace)) => explain_files(alloc, file, trace, files),
        None => Err(Refusal::Usage { line: USAGE }),
    }
}

/// Answers to the words, which do not hold the program's own name: reads the two files that they name, writes what `replay` answers and
/// after it why, and gives the status. Statuses: 0 all accepted, 1 refused, 2 fault, 3 limit of a text, 4 words, 5 memory, 6 file,
/// 7 sink. No limit of states stands in the way: where `replay` would answer one, the trace is explained.
pub fn run<F: Files, S: Sink>(alloc: Global, words: &[String], files: &mut F, out: &mut S) -> u8
    requires files { F.faults files.old < 2 ^ 64 - 1 }
    requires out { S.faults out.old < 2 ^ 64 - 1 }

    // When each status comes.
    ensures range { result ≤ 7 }
    ensures sink { (result ≡ 7) ↔ (S.faults out.old < S.faults out.new) }
    ensures file { (result ≡ 6) ↔ ((F.faults files.old < F.faults files.new) × (S.faults out.new ≡ S.faults out.old)) }
    ensures lacks { ForSome (F.held files.old) (λ held. F.steady files.old → F.faults files.old < F.faults files.new → (text : List ℕ) × WhyAnswer (words_in words.now) held 6 text) }
    ensures rises { F.faults files.old ≤ F.faults files.new }
    ensures fails { S.faults out.old ≤ S.faults out.new }
    ensures words { result ≡ 4 → why_files (words_in words.now) ≡ None }
    ensures no_files { why_files (words_in words.now) ≡ None → S.faults out.new ≡ S.faults out.old → result ≡ 4 }

    // What is written.
    ensures usage { result ≡ 4 → IsAppended (S.written out.old) (S.written out.new) why_usage }
    ensures memory { result ≡ 5 → IsAppended (S.written out.old) (S.written out.new) memory_line }
    ensures file_line { result ≡ 6 → AppendsFile (IsFileWord (words_in words.now)) (S.written out.old) (S.written out.new) }

    // Where the files tell what they hold, the status and the text are the answer, unless memory ran out.
    ensures complete { ForSome (F.held files.old) (λ held. S.faults out.new ≡ S.faults out.old → (F.faults files.new ≡ F.faults files.old) ⊎ F.steady files.old → Completes (WhyAnswer (words_in words.now) held) result (S.written out.old) (S.written out.new)) }
    ensures exact { ForSome (F.held files.old) (λ held. S.faults out.new ≡ S.faults out.old → (F.faults files.new ≡ F.faults files.old) ⊎ F.steady files.old → (status : ℕ) (text : List ℕ) → WhyAnswer (words_in words.now) held status text → (result ≡ status) ⊎ (result ≡ 5)) }
    ensures cut { ForSome (F.held files.old) (λ held. result ≡ 7 → IsCutShort (WhyAnswer (words_in words.now) held) (IsFileWord (words_in words.now)) (F.faults files.old < F.faults files.new) (S.written out.old) (S.written out.new) (S.room out.old)) }

    // Over steady files that hold both that the words name, and a sink with room for the answer and for the line of memory, neither a
    // file nor the sink fails.
    ensures neither { ForSome (F.held files.old) (λ held. F.steady files.old → HasAll (IsFileWord (words_in words.now)) held → ForSome (S.room out.old) (λ room. HasRoom (WhyAnswer (words_in words.now) held) room → result ≤ 5)) }
{
    let decided = decide(alloc, words, files);
    let status = finish(&decided, out);
    drop(decided);
    status
}
