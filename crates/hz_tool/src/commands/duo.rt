//! The phases of `duo`, in their order: the description, its machine, both blocks and how many instructions they have together, their
//! classes, and their schedule.

ghost use Rattle.std.specs.Prelude.{◌≡◌, ◌<◌, ◌≤◌, ◌+◌, ◌^◌, IfOk, length, map, nat_lt};
ghost use Rattle.hz_answer_model.specs.Answers.{SchedulesTwoByDescription};
ghost use Rattle.hz_front_model.specs.Descriptions.{HasDescription};
ghost use Rattle.hz_answer_model.specs.DuoAnswers.{StartsTwo};
ghost use Rattle.hz_block_model.specs.Running.Limits.{instruction_limit};
ghost use Rattle.hz_block_model.specs.Scheduled.BlockGraphs.{IsGraphOf};
ghost use Rattle.hz_block_model.specs.Scheduling.Machines.{Settles};
ghost use Rattle.hz_depend.specs.GraphShape.{IsSchedulable};
ghost use Rattle.hz_description_model.specs.Check.Places.{Known};
ghost use Rattle.hz_description_model.specs.Reading.Descriptions.{Description};
ghost use Rattle.hz_rtl.specs.Shape.{instructions};
ghost use Rattle.hz_sched.specs.Shape.{graph_of};
ghost use Rattle.hz_tables.specs.Machines.{machine_of};
ghost use Rattle.hz_front.specs.Refusals.{IsJudged};
ghost use Rattle.hz_tool.specs.Deciding.{Decides};
ghost use Rattle.hz_tool.specs.Machines.{IsMachineFor};
ghost use Rattle.hz_tool.specs.Pairs.{IsLastOf, IsStuckOfTwo, TellsStuckOfTwo};

use crate::done::Done;
use crate::phases::blocks::{judge_block_text, judge_graph, refuse_stuck};
use crate::phases::compiling::judge_compiled;
use hz_depend::Graph;
use hz_duo::{DuoFault, duo};
use hz_front::refusal::Refusal;
use hz_rtl::Block;
use hz_sched::{SchedFault, schedule};
use hz_tables::Machine;
use hz_tool_words::order::DuoOrder;
use std::alloc::Global;

/// The instructions of two blocks together, at most.
const INSTRUCTION_LIMIT: usize = 4096;

/// Whether two blocks have too many instructions together.
fn are_many(one: &Block, other: &Block) -> bool
    requires first { length one.now.insns.items ≤ instruction_limit }
    requires second { length other.now.insns.items ≤ instruction_limit }
    ensures { result ≡ nat_lt instruction_limit (length one.now.insns.items + length other.now.insns.items) }
{
    INSTRUCTION_LIMIT < one.insns.len() + other.insns.len()
}

/// The last cycle of a block's own schedule.
fn cycles_alone(alloc: Global, machine: &Machine, graph: &Graph) -> Result<u32, SchedFault>
    requires settles { Settles (machine_of machine.now) }
    requires schedulable { IsSchedulable (length machine.now.classes.items) graph.now }
    ensures { IfOk result (IsLastOf (machine_of machine.now) (graph_of graph.now)) }
{
    let made = schedule(alloc, machine, graph)?;
    Ok(made.last_cycle())
}

/// The refusal of two blocks that have no schedule.
fn refuse_pair<'a>(order: &DuoOrder<'a>, one: &Block, other: &Block, fault: DuoFault) -> Refusal<'a>
    requires { IsStuckOfTwo (length one.now.insns.items) (length other.now.insns.items) fault }
    ensures kind { IsJudged result }
    ensures answer { TellsStuckOfTwo order.now.first order.now.second one.now.insns.items other.now.insns.items fault result }
{
    match fault {
        DuoFault::CannotStartAlone { context, place } => {
            let fault = SchedFault::CannotStartAlone { place };
            if context == 1 {
                refuse_stuck(order.first, one, fault)
            } else {
                refuse_stuck(order.second, other, fault)
            }
        }
        DuoFault::NoMemory => Refusal::Memory,
    }
}

/// The schedule of two blocks with their graphs, over the machine of the description, or a refusal.
fn schedule_pair<'a>(
    alloc: Global,
    order: &DuoOrder<'a>,
    machine: Machine,
    one: &Block,
    other: &Block,
    first: Graph,
    second: Graph,
) -> Result<Done, Refusal<'a>>
    requires settles { Settles (machine_of machine) }
    requires first { IsSchedulable (length machine.classes.items) first }
    requires second { IsSchedulable (length machine.classes.items) second }
    requires few { length one.now.insns.items + length other.now.insns.items ≤ instruction_limit }
    requires size_of_first { length first.insns.items ≡ length one.now.insns.items }
    requires size_of_second { length second.insns.items ≡ length other.now.insns.items }
    ensures { (d : Description) (known : Known) → IsMachineFor d known (machine_of machine) → IsGraphOf d (instructions one.now) (graph_of first) → IsGraphOf d (instructions other.now) (graph_of second) → map (λ i. i.number) first.insns.items ≡ map (λ i. i.number) one.now.insns.items → map (λ i. i.number) second.insns.items ≡ map (λ i. i.number) other.now.insns.items → Decides (StartsTwo order.now.first.now order.now.second.now d known (instructions one.now) (instructions other.now)) result }
{
    let slots = match duo(alloc, &machine, &first, &second) {
        Ok(slots) => slots,
        Err(fault) => return Err(refuse_pair(order, one, other, fault)),
    };
    let Ok(first_alone) = cycles_alone(alloc, &machine, &first) else {
        return Err(Refusal::Memory);
    };
    match cycles_alone(alloc, &machine, &second) {
        Ok(second_alone) => Ok(Done::Paired {
            machine,
            first,
            second,
            slots,
            alone: (first_alone, second_alone),
        }),
        Err(_) => Err(Refusal::Memory),
    }
}

/// The schedule of two blocks by the three texts, the description judged first, then the blocks in their order; or a refusal.
pub fn judge_duo<'a>(
    alloc: Global,
    order: &DuoOrder<'a>,
    described: &[u8],
    first: &[u8],
    second: &[u8],
) -> Result<Done, Refusal<'a>>
    requires described { length described.now < 2 ^ 32 }
    requires first { length first.now < 2 ^ 32 }
    requires second { length second.now < 2 ^ 32 }
    ensures { Decides (HasDescription order.now.description.now described.now (SchedulesTwoByDescription order.now.description.now order.now.first.now first.now order.now.second.now second.now)) result }
{
    let front = judge_compiled(alloc, order.description, described)?;
    let one = judge_block_text(alloc, order.first, first)?;
    let other = judge_block_text(alloc, order.second, second)?;
    if are_many(&one, &other) {
        return Err(Refusal::Insns { file: order.second });
    }
    let checked = &front.checked;
    let machine = &front.compiled.machine;
    let mine = judge_graph(alloc, order.first, checked, machine, &one)?;
    let yours = judge_graph(alloc, order.second, checked, machine, &other)?;
    let compiled = front.compiled;
    schedule_pair(alloc, order, compiled.machine, &one, &other, mine, yours)
}
