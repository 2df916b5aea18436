//! Both texts judged, the first before the second, and then their machines compared. The first that refuses decides.

ghost use Rattle.std.specs.Prelude.{◌≤◌, ◌<◌, ◌^◌, IfOk, IfErr, length};
ghost use Rattle.hz_answer_model.specs.TableAnswers.{TablesFaultAt};
ghost use Rattle.hz_front_model.specs.Phases.{TellsFault};
ghost use Rattle.hz_tables.specs.Machines.{machine_of};
ghost use Rattle.hz_tabtext_model.specs.Judging.{tables_word};
ghost use Rattle.hz_tabtext_model.specs.Texts.{TableText};
ghost use Rattle.hz_front.specs.Refusals as refusals;
ghost use Rattle.hz_front.specs.Refusals.{IsJudged};
ghost use Rattle.hz_same_top.specs.Deciding.{Answers, MayCompareWith, MayJudge};
ghost use Rattle.hz_same_top.specs.Telling.{MayCompare};

use crate::telling::{Compared, compare_machines};
use hz_front::refusal::Refusal;
use hz_front::refusing::refuse_fault;
use hz_tabfile::read_tables;
use hz_tables::Machine;
use std::alloc::Global;

/// The machine of a tables text, or the refusal of its first fault.
fn judge_tables<'a>(alloc: Global, file: &'a str, text: &[u8]) -> Result<Machine, Refusal<'a>>
    requires { length text.now < 2 ^ 32 }
    ensures ok { IfOk result (λ machine. TableText text.now (machine_of machine)) }
    ensures kind { IfErr result IsJudged }
    ensures err { IfErr result (refusals.Agrees (TellsFault tables_word (TablesFaultAt text.now) file.entry.now)) }
{
    match read_tables(alloc, text) {
        Ok(machine) => Ok(machine),
        Err(fault) => Err(refuse_fault(file, fault.reported(), None)),
    }
}

/// What is found of two machines.
fn compare_judged<'a>(
    alloc: Global,
    file: &'a str,
    first: &Machine,
    other_file: &'a str,
    second: &Machine,
) -> Result<Compared, Refusal<'a>>
    ensures low { IfOk result (λ compared. compared.status ≤ 3) }
    ensures kind { IfErr result IsJudged }
    ensures answer { Answers (MayCompare file.entry.now other_file.entry.now (machine_of first.now) (machine_of second.now)) result }
{
    match compare_machines(alloc, file, first, other_file, second) {
        Ok(compared) => Ok(compared),
        Err(_) => Err(Refusal::Memory),
    }
}

/// What is found of a machine and the text of another.
fn compare_with<'a>(
    alloc: Global,
    file: &'a str,
    first: &Machine,
    other_file: &'a str,
    other: &[u8],
) -> Result<Compared, Refusal<'a>>
    requires { length other.now < 2 ^ 32 }
    ensures low { IfOk result (λ compared. compared.status ≤ 3) }
    ensures kind { IfErr result IsJudged }
    ensures answer { Answers (MayCompareWith file.entry.now other_file.entry.now other.now (machine_of first.now)) result }
{
    match judge_tables(alloc, other_file, other) {
        Ok(second) => compare_judged(alloc, file, first, other_file, &second),
        Err(refusal) => Err(refusal),
    }
}

/// What is found of both texts.
pub(crate) fn compare_texts<'a>(
    alloc: Global,
    file: &'a str,
    text: &[u8],
    other_file: &'a str,
    other: &[u8],
) -> Result<Compared, Refusal<'a>>
    requires text { length text.now < 2 ^ 32 }
    requires other { length other.now < 2 ^ 32 }
    ensures low { IfOk result (λ compared. compared.status ≤ 3) }
    ensures kind { IfErr result IsJudged }
    ensures answer { Answers (MayJudge file.entry.now other_file.entry.now text.now other.now) result }
{
    match judge_tables(alloc, file, text) {
        Ok(first) => compare_with(alloc, file, &first, other_file, other),
        Err(refusal) => Err(refusal),
    }
}
