//! The top call: the words, the files, the texts, and then the answer.

ghost use Rattle.std.specs.Prelude.{◌≡◌, ◌⊎◌, ◌↔◌, ℕ, List, ◌-◌, ◌^◌, ◌<◌, ◌≤◌, IfOk, IfErr, None, Some, All, length};
ghost use Rattle.std.specs.Option.{ForSome};
ghost use Rattle.hz_pipeline_model.specs.Tables.Machines.{Machine};
ghost use Rattle.hz_front_model.specs.Texts.{memory_line};
ghost use Rattle.hz_answer_model.specs.TableAnswers.{tables_limit};
ghost use Rattle.hz_front.specs.Endings.{AppendsFile, Completes, DecidesWords, HasAll, HasRoom, IsAppended, IsCutShort, IsOrdered};
ghost use Rattle.hz_front.specs.Reading.{texts_in, word_of};
ghost use Rattle.hz_front.specs.Refusals.{CountsDecided, IsJudged, NamesIn};
ghost use Rattle.hz_tool_words.specs.Shape.{words_in};
ghost use Rattle.hz_same_model.specs.Answers.{AreCompared, Decides, MayAnswer, PassesPairs, SameAnswer, same_files, same_usage};
ghost use Rattle.hz_same_top.specs.Deciding.{Answers, IsFileWord, IsOneOf, MayCompareFiles, MayJudgeAll, decided_in};

use crate::judging::compare_texts;
use crate::telling::Compared;
use crate::words::files_named;
use hz_front::ending::finish;
use hz_front::reading::{FileWord, read_all};
use hz_front::refusal::Refusal;
use hz_io::{Files, Sink};
use std::alloc::Global;

/// The line that answers words that are not two names of files.
const USAGE: &str = "usage: hz_same TABLES TABLES\n";

/// Bytes of a tables text, at most.
const TABLES_LIMIT: u64 = 536_870_912;

/// The file of a tables text.
fn tables_file<'a>(name: &'a str) -> FileWord<'a>
    ensures { result ≡ word_of name.entry tables_limit }
{
    FileWord {
        name,
        most: TABLES_LIMIT,
    }
}

/// What is found by the bytes of the two files.
fn compare_read<'a>(
    alloc: Global,
    file: &'a str,
    other_file: &'a str,
    texts: &[Vec<u8>],
) -> Result<Compared, Refusal<'a>>
    requires count { length texts.now ≡ 2 }
    requires short { All (λ text. length text.items < 2 ^ 32) texts.now }
    ensures low { IfOk result (λ compared. compared.status ≤ 3) }
    ensures kind { IfErr result IsJudged }
    ensures answer { Answers (MayJudgeAll file.entry.now other_file.entry.now (texts_in texts.now)) result }
{
    compare_texts(
        alloc,
        file,
        texts[0].as_slice(),
        other_file,
        texts[1].as_slice(),
    )
}

/// What is found by the two files: both are read before any is judged.
fn compare_files<'a, F: Files>(
    alloc: Global,
    file: &'a str,
    other_file: &'a str,
    files: &mut F,
) -> Result<Compared, Refusal<'a>>
    requires { F.faults files.old < 2 ^ 64 - 1 }
    ensures counts { CountsDecided (F.faults files.old) (F.faults files.new) (decided_in result) }
    ensures order { IsOrdered (decided_in result) }
    ensures low { IfOk result (λ compared. compared.status ≤ 3) }
    ensures file { NamesIn (IsOneOf (file.entry.now, other_file.entry.now)) (decided_in result) }
    ensures lacks { ForSome (F.held files.old) (λ held. F.steady files.old → NamesIn (λ name. held name ≡ None) (decided_in result)) }
    ensures answer { ForSome (F.held files.old) (λ held. (F.faults files.new ≡ F.faults files.old) ⊎ F.steady files.old → Answers (MayCompareFiles held (file.entry.now, other_file.entry.now)) result) }
{
    let wanted = [tables_file(file), tables_file(other_file)];
    match read_all(alloc, files, &wanted) {
        Ok(texts) => compare_read(alloc, file, other_file, texts.as_slice()),
        Err(refusal) => Err(refusal),
    }
}

/// What is decided of the words.
fn decide<'a, F: Files>(
    alloc: Global,
    words: &'a [String],
    files: &mut F,
) -> Result<Compared, Refusal<'a>>
    requires { F.faults files.old < 2 ^ 64 - 1 }
    ensures counts { CountsDecided (F.faults files.old) (F.faults files.new) (decided_in result) }
    ensures words { DecidesWords ⊥ same_usage (same_files (words_in words.entry.now)) (decided_in result) }
    ensures low { IfOk result (λ compared. compared.status ≤ 3) }
    ensures file { NamesIn (IsFileWord (words_in words.entry.now)) (decided_in result) }
    ensures lacks { ForSome (F.held files.old) (λ held. F.steady files.old → NamesIn (λ name. held name ≡ None) (decided_in result)) }
    ensures answer { ForSome (F.held files.old) (λ held. (F.faults files.new ≡ F.faults files.old) ⊎ F.steady files.old → Answers (MayAnswer (words_in words.entry.now) held) result) }
{
    match files_named(words) {
        Some((file, other_file)) => compare_files(alloc, file, other_file, files),
        None => Err(Refusal::Usage { line: USAGE }),
    }
}

/// Answers to the words, which do not hold the program's own name: reads the two tables texts that they name, writes whether their machines
/// are the same, or the least trace that tells them apart, and gives the status. Statuses: 0 the same, 1 not the same, 2 fault, 3 limit of a
/// text or of pairs, 4 words, 5 memory, 6 file, 7 sink.
pub fn run<F: Files, S: Sink>(alloc: Global, words: &[String], files: &mut F, out: &mut S) -> u8
    requires files { F.faults files.old < 2 ^ 64 - 1 }
    requires out { S.faults out.old < 2 ^ 64 - 1 }

    // When each status comes.
    ensures range { result ≤ 7 }
    ensures sink { (result ≡ 7) ↔ (S.faults out.old < S.faults out.new) }
    ensures file { (result ≡ 6) ↔ ((F.faults files.old < F.faults files.new) × (S.faults out.new ≡ S.faults out.old)) }
    ensures lacks { ForSome (F.held files.old) (λ held. F.steady files.old → F.faults files.old < F.faults files.new → (text : List ℕ) × MayAnswer (words_in words.now) held 6 text) }
    ensures rises { F.faults files.old ≤ F.faults files.new }
    ensures fails { S.faults out.old ≤ S.faults out.new }
    ensures words { result ≡ 4 → same_files (words_in words.now) ≡ None }
    ensures no_files { same_files (words_in words.now) ≡ None → S.faults out.new ≡ S.faults out.old → result ≡ 4 }

    // What is written.
    ensures usage { result ≡ 4 → IsAppended (S.written out.old) (S.written out.new) same_usage }
    ensures memory { result ≡ 5 → IsAppended (S.written out.old) (S.written out.new) memory_line }
    ensures file_line { result ≡ 6 → AppendsFile (IsFileWord (words_in words.now)) (S.written out.old) (S.written out.new) }

    // Where the files tell what they hold, the status and the text are the answer, unless pairs pass their limit or memory ran out.
    ensures complete { ForSome (F.held files.old) (λ held. S.faults out.new ≡ S.faults out.old → (F.faults files.new ≡ F.faults files.old) ⊎ F.steady files.old → Completes (MayAnswer (words_in words.now) held) result (S.written out.old) (S.written out.new)) }
    ensures exact { ForSome (F.held files.old) (λ held. S.faults out.new ≡ S.faults out.old → (F.faults files.new ≡ F.faults files.old) ⊎ F.steady files.old → (status : ℕ) (text : List ℕ) → SameAnswer (words_in words.now) held status text → (result ≡ status) ⊎ ((result ≡ 3) × PassesPairs (words_in words.now) held) ⊎ (result ≡ 5)) }
    ensures cut { ForSome (F.held files.old) (λ held. result ≡ 7 → IsCutShort (MayAnswer (words_in words.now) held) (IsFileWord (words_in words.now)) (F.faults files.old < F.faults files.new) (S.written out.old) (S.written out.new) (S.room out.old)) }

    // Of the machines of two texts: 0 where they are the same, 1 where they are not, but for the limit of pairs and for want of memory.
    ensures decides { ForSome (F.held files.old) (λ held. S.faults out.new ≡ S.faults out.old → (F.faults files.new ≡ F.faults files.old) ⊎ F.steady files.old → (first second : Machine) → AreCompared (words_in words.now) held first second → Decides first second result) }

    // Over steady files that hold both that the words name, and a sink with room for the answer and for the line of memory, neither a
    // file nor the sink fails.
    ensures neither { ForSome (F.held files.old) (λ held. F.steady files.old → HasAll (IsFileWord (words_in words.now)) held → ForSome (S.room out.old) (λ room. HasRoom (MayAnswer (words_in words.now) held) room → result ≤ 5)) }
{
    let decided = decide(alloc, words, files);
    let status = finish(&decided, out);
    drop(decided);
    status
}
