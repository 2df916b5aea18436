//! The phases of `walk`, in their order: the tables, the trace and its walk.

ghost use Rattle.std.specs.Prelude.{◌<◌, ◌^◌, IfOk, IfErr, length};
ghost use Rattle.hz_answer_model.specs.TableAnswers.{TablesFaultAt, HasTables, WalksTrace};
ghost use Rattle.hz_tables.specs.Machines.{machine_of};
ghost use Rattle.hz_front_model.specs.Phases.{TellsFault};
ghost use Rattle.hz_tabtext_model.specs.Judging.{tables_word};
ghost use Rattle.hz_tabtext_model.specs.Texts.{TableText};
ghost use Rattle.hz_front.specs.Refusals.{Agrees, IsJudged};
ghost use Rattle.hz_tool.specs.Deciding.{Decides};

use crate::commands::replay::walk_trace;
use crate::done::Done;
use hz_front::refusal::Refusal;
use hz_front::refusing::refuse_fault;
use hz_tabfile::read_tables;
use hz_tables::Machine;
use hz_tool_words::order::WalkOrder;
use std::alloc::Global;

/// The machine of a tables text, or the refusal of its first fault.
fn judge_tables<'a>(alloc: Global, file: &'a str, text: &[u8]) -> Result<Machine, Refusal<'a>>
    requires { length text.now < 2 ^ 32 }
    ensures ok { IfOk result (λ machine. TableText text.now (machine_of machine)) }
    ensures kind { IfErr result IsJudged }
    ensures err { IfErr result (Agrees (TellsFault tables_word (TablesFaultAt text.now) file.entry.now)) }
{
    match read_tables(alloc, text) {
        Ok(machine) => Ok(machine),
        Err(fault) => Err(refuse_fault(file, fault.reported(), None)),
    }
}

/// The walk of a trace by both texts, the tables judged first, or a refusal.
pub fn judge_walk<'a>(
    alloc: Global,
    order: &WalkOrder<'a>,
    tabled: &[u8],
    trace: &[u8],
) -> Result<Done, Refusal<'a>>
    requires tabled { length tabled.now < 2 ^ 32 }
    requires trace { length trace.now < 2 ^ 32 }
    ensures { Decides (HasTables order.now.tables.now tabled.now (WalksTrace order.now.trace.now trace.now)) result }
{
    let machine = judge_tables(alloc, order.tables, tabled)?;
    walk_trace(alloc, order.trace, machine, trace)
}
