//! The top call: the words, the files, the texts, and then the answer.

ghost use Rattle.std.specs.Prelude.{◌≡◌, ◌⊎◌, ◌↔◌, ℕ, List, ◌-◌, ◌^◌, ◌<◌, ◌≤◌, ◌∷◌, [], ⊤, IfOk, None, Some, All, length};
ghost use Rattle.std.specs.Option.{ForSome};
ghost use Rattle.hz_answer_model.specs.Answers.{Answer, AnswersOrder, JudgesOrder, files_of};
ghost use Rattle.hz_answer_model.specs.BlockAnswers.{block_limit};
ghost use Rattle.hz_front_model.specs.Texts.{memory_line};
ghost use Rattle.hz_description_model.specs.Reading.Limits.{description_limit};
ghost use Rattle.hz_words_model.specs.Words as model;
ghost use Rattle.hz_words_model.specs.Words.{usage_line};
ghost use Rattle.hz_front.specs.Endings.{AppendsFile, Completes, DecidesWords, HasAll, HasRoom, IsAppended, IsCutShort, IsOrdered};
ghost use Rattle.hz_front.specs.Reading.{texts_in, wanted_in, word_of};
ghost use Rattle.hz_front.specs.Refusals.{Answers, CountsDecided, NamesIn};
ghost use Rattle.hz_tool.specs.Deciding.{AppendsPromised, CanTell, Decides, IsFileOf, IsFileWord, decided_in};
ghost use Rattle.hz_tool_words.specs.Shape.{words_in, order_in};

use crate::commands::bound::judge_bound;
use crate::commands::compile::judge_compile;
use crate::commands::drill::judge_drill;
use crate::commands::duo::judge_duo;
use crate::commands::eval::judge_eval;
use crate::commands::modulo::judge_modulo;
use crate::commands::replay::judge_replay;
use crate::commands::schedule::judge_schedule;
use crate::commands::timed::judge_timed;
use crate::commands::walk::judge_walk;
use crate::done::Done;
use crate::phases::reading::{block_file, state_file, tables_file};
use hz_front::ending::finish;
use hz_front::reading::{FileWord, description_file, read_all, trace_file};
use hz_front::refusal::Refusal;
use hz_io::{Files, Sink};
use hz_tool_words::order::Order;
use hz_tool_words::{order_of, usage};
use std::alloc::{AllocError, Global};

/// The file of a description alone.
fn description_alone<'a>(
    alloc: Global,
    description: &'a str,
) -> Result<Vec<FileWord<'a>>, AllocError>
    ensures { IfOk result (λ files. files.items ≡ word_of description.entry description_limit ∷ []) }
{
    Ok(vec![in alloc; description_file(description)]?)
}

/// Two files.
fn two_files<'a>(
    alloc: Global,
    first: FileWord<'a>,
    second: FileWord<'a>,
) -> Result<Vec<FileWord<'a>>, AllocError>
    ensures { IfOk result (λ files. files.items ≡ first.entry ∷ second.entry ∷ []) }
{
    Ok(vec![in alloc; first, second]?)
}

/// The files of a description and of a block.
fn description_and_block<'a>(
    alloc: Global,
    description: &'a str,
    block: &'a str,
) -> Result<Vec<FileWord<'a>>, AllocError>
    ensures { IfOk result (λ files. files.items ≡ word_of description.entry description_limit ∷ word_of block.entry block_limit ∷ []) }
{
    two_files(alloc, description_file(description), block_file(block))
}

/// Three files.
fn three_files<'a>(
    alloc: Global,
    first: FileWord<'a>,
    second: FileWord<'a>,
    third: FileWord<'a>,
) -> Result<Vec<FileWord<'a>>, AllocError>
    ensures { IfOk result (λ files. files.items ≡ first.entry ∷ second.entry ∷ third.entry ∷ []) }
{
    Ok(vec![in alloc; first, second, third]?)
}

/// The file words of an order with their limits, in the order in which they are read.
fn files_of<'a>(alloc: Global, order: &Order<'a>) -> Result<Vec<FileWord<'a>>, AllocError>
    ensures words { IfOk result (λ files. wanted_in files.items ≡ files_of (order_in order.now)) }
    ensures low { IfOk result (λ files. All (λ file. file.most < 2 ^ 32) files.items) }
{
    match order {
        Order::Compile(order) => description_alone(alloc, order.description),
        Order::Replay(order) => two_files(
            alloc,
            description_file(order.description),
            trace_file(order.trace),
        ),
        Order::Walk(order) => two_files(alloc, tables_file(order.tables), trace_file(order.trace)),
        Order::Schedule(order) => description_and_block(alloc, order.description, order.block),
        Order::Eval(order) => two_files(alloc, block_file(order.block), state_file(order.state)),
        Order::Drill(order) => description_alone(alloc, order.description),
        Order::Timed(order) => three_files(
            alloc,
            description_file(order.description),
            block_file(order.block),
            state_file(order.state),
        ),
        Order::Bound(order) => description_and_block(alloc, order.description, order.block),
        Order::Duo(order) => three_files(
            alloc,
            description_file(order.description),
            block_file(order.first),
            block_file(order.second),
        ),
        Order::Modulo(order) => description_and_block(alloc, order.description, order.block),
    }
}

/// What an order does by the bytes of its files, or a refusal.
fn judge_order<'a>(alloc: Global, order: &Order<'a>, texts: &[Vec<u8>]) -> Result<Done, Refusal<'a>>
    requires count { length texts.now ≡ length (files_of (order_in order.now)) }
    requires short { All (λ text. length text.items < 2 ^ 32) texts.now }
    ensures { Decides (JudgesOrder (order_in order.now) (texts_in texts.now)) result }
{
    match order {
        Order::Compile(order) => judge_compile(alloc, order, texts[0].as_slice()),
        Order::Replay(order) => {
            judge_replay(alloc, order, texts[0].as_slice(), texts[1].as_slice())
        }
        Order::Walk(order) => judge_walk(alloc, order, texts[0].as_slice(), texts[1].as_slice()),
        Order::Schedule(order) => {
            judge_schedule(alloc, order, texts[0].as_slice(), texts[1].as_slice())
        }
        Order::Eval(order) => judge_eval(alloc, order, texts[0].as_slice(), texts[1].as_slice()),
        Order::Drill(order) => judge_drill(alloc, order, texts[0].as_slice()),
        Order::Timed(order) => judge_timed(
            alloc,
            order,
            texts[0].as_slice(),
            texts[1].as_slice(),
            texts[2].as_slice(),
        ),
        Order::Bound(order) => judge_bound(alloc, order, texts[0].as_slice(), texts[1].as_slice()),
        Order::Duo(order) => judge_duo(
            alloc,
            order,
            texts[0].as_slice(),
            texts[1].as_slice(),
            texts[2].as_slice(),
        ),
        Order::Modulo(order) => {
            judge_modulo(alloc, order, texts[0].as_slice(), texts[1].as_slice())
        }
    }
}

/// What an order does, or a refusal: all its files are read before any is judged.
fn answer_order<'a, F: Files>(
    alloc: Global,
    order: &Order<'a>,
    files: &mut F,
) -> Result<Done, Refusal<'a>>
    requires { F.faults files.old < 2 ^ 64 - 1 }
    ensures counts { CountsDecided (F.faults files.old) (F.faults files.new) (decided_in result) }
    ensures order { IsOrdered (decided_in result) }
    ensures tells { IfOk result CanTell }
    ensures file { NamesIn (IsFileOf (order_in order.now)) (decided_in result) }
    ensures lacks { ForSome (F.held files.old) (λ held. F.steady files.old → NamesIn (λ name. held name ≡ None) (decided_in result)) }
    ensures answer { ForSome (F.held files.old) (λ held. (F.faults files.new ≡ F.faults files.old) ⊎ F.steady files.old → Answers (AnswersOrder held (order_in order.now)) (decided_in result)) }
{
    let Ok(wanted) = files_of(alloc, order) else {
        return Err(Refusal::Memory);
    };
    match read_all(alloc, files, wanted.as_slice()) {
        Ok(texts) => judge_order(alloc, order, texts.as_slice()),
        Err(refusal) => Err(refusal),
    }
}

/// What the words do, or a refusal.
fn decide<'a, F: Files>(
    alloc: Global,
    words: &'a [String],
    files: &mut F,
) -> Result<Done, Refusal<'a>>
    requires { F.faults files.old < 2 ^ 64 - 1 }
    ensures counts { CountsDecided (F.faults files.old) (F.faults files.new) (decided_in result) }
    ensures words { DecidesWords ⊤ usage_line (model.order_of (words_in words.entry.now)) (decided_in result) }
    ensures tells { IfOk result CanTell }
    ensures file { NamesIn (IsFileWord (words_in words.entry.now)) (decided_in result) }
    ensures lacks { ForSome (F.held files.old) (λ held. F.steady files.old → NamesIn (λ name. held name ≡ None) (decided_in result)) }
    ensures answer { ForSome (F.held files.old) (λ held. (F.faults files.new ≡ F.faults files.old) ⊎ F.steady files.old → Answers (Answer (words_in words.entry.now) held) (decided_in result)) }
{
    match order_of(alloc, words) {
        Ok(Some(order)) => answer_order(alloc, &order, files),
        Ok(None) => Err(Refusal::Usage { line: usage() }),
        Err(_) => Err(Refusal::Memory),
    }
}

/// Answers to the words, which do not hold the program's own name: reads the files that they name, writes the text of
/// the answer and gives its status. Statuses: 0 done, 1 refused, 2 fault, 3 limit, 4 words, 5 memory, 6 file, 7 sink.
pub fn run<F: Files, S: Sink>(alloc: Global, words: &[String], files: &mut F, out: &mut S) -> u8
    requires files { F.faults files.old < 2 ^ 64 - 1 }
    requires out { S.faults out.old < 2 ^ 64 - 1 }

    // When each status comes.
    ensures range { result ≤ 7 }
    ensures sink { (result ≡ 7) ↔ (S.faults out.old < S.faults out.new) }
    ensures file { (result ≡ 6) ↔ ((F.faults files.old < F.faults files.new) × (S.faults out.new ≡ S.faults out.old)) }
    ensures lacks { ForSome (F.held files.old) (λ held. F.steady files.old → F.faults files.old < F.faults files.new → (text : List ℕ) × Answer (words_in words.now) held 6 text) }
    ensures rises { F.faults files.old ≤ F.faults files.new }
    ensures fails { S.faults out.old ≤ S.faults out.new }
    ensures words { result ≡ 4 → model.order_of (words_in words.now) ≡ None }
    ensures usage_or_memory { model.order_of (words_in words.now) ≡ None → S.faults out.new ≡ S.faults out.old → (result ≡ 4) ⊎ (result ≡ 5) }

    // What is written.
    ensures usage { result ≡ 4 → IsAppended (S.written out.old) (S.written out.new) usage_line }
    ensures memory { result ≡ 5 → IsAppended (S.written out.old) (S.written out.new) memory_line }
    ensures file_line { result ≡ 6 → AppendsFile (IsFileWord (words_in words.now)) (S.written out.old) (S.written out.new) }

    // Where the files tell what they hold, the status and the text are an answer, unless memory ran out.
    ensures complete { ForSome (F.held files.old) (λ held. S.faults out.new ≡ S.faults out.old → (F.faults files.new ≡ F.faults files.old) ⊎ F.steady files.old → Completes (Answer (words_in words.now) held) result (S.written out.old) (S.written out.new)) }
    ensures exact { ForSome (F.held files.old) (λ held. S.faults out.new ≡ S.faults out.old → (F.faults files.new ≡ F.faults files.old) ⊎ F.steady files.old → (status : ℕ) (text : List ℕ) → Answer (words_in words.now) held status text → (result ≡ status) ⊎ (result ≡ 5)) }
    ensures cut { ForSome (F.held files.old) (λ held. result ≡ 7 → IsCutShort (Answer (words_in words.now) held) (IsFileWord (words_in words.now)) (F.faults files.old < F.faults files.new) (S.written out.old) (S.written out.new) (S.room out.old)) }

    // Over steady files that hold all that the words name, and a sink with room for the answer and for the line of memory, neither a
    // file nor the sink fails.
    ensures neither { ForSome (F.held files.old) (λ held. F.steady files.old → HasAll (IsFileWord (words_in words.now)) held → ForSome (S.room out.old) (λ room. HasRoom (Answer (words_in words.now) held) room → result ≤ 5)) }

    // Status 0 keeps what is promised of the command (`Promised`): what tables, schedules, drills, what an exposed pipeline reads,
    // bounds, schedules of two blocks and kernels are.
    ensures promised { ForSome (F.held files.old) (λ held. result ≡ 0 → (order : model.Order) → model.order_of (words_in words.now) ≡ Some order → AppendsPromised held order (S.written out.old) (S.written out.new)) }
{
    let decided = decide(alloc, words, files);
    let status = finish(&decided, out);
    drop(decided);
    status
}
