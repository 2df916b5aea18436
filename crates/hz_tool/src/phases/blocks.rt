//! Blocks: their texts judged, their graphs by a checked description, and their schedules; the refusals of instructions that are wrong.

ghost use Rattle.std.specs.Prelude.{◌≡◌, ◌<◌, ◌≤◌, ◌^◌, [], IfOk, IfErr, length, slice_get, slice_index_or};
ghost use Rattle.hz_answer_model.specs.BlockAnswers.{HasBlock};
ghost use Rattle.hz_answer_model.specs.FaultTexts.{class_line};
ghost use Rattle.hz_answer_model.specs.Headline.{IsBlockIn};
ghost use Rattle.hz_answer_model.specs.ScheduleAnswers.{HasClasses, Starts};
ghost use Rattle.hz_block_model.specs.Running.Limits.{instruction_limit};
ghost use Rattle.hz_block_model.specs.Scheduling.Machines.{Settles};
ghost use Rattle.hz_block_model.specs.Texts.BlockForms as blocks;
ghost use Rattle.hz_block_model.specs.Texts.Operands.{rtl_word};
ghost use Rattle.hz_check.specs.Checked.{IsCheckedOf};
ghost use Rattle.hz_depend.specs.Faults.{fault as fault_of};
ghost use Rattle.hz_depend.specs.GraphShape.{IsGraphOf, IsSchedulable};
ghost use Rattle.hz_description_model.specs.Check.Places.{class_names};
ghost use Rattle.hz_description_model.specs.Reading.Descriptions.{Description};
ghost use Rattle.hz_front.specs.Refusals.{Agrees, IsJudged};
ghost use Rattle.hz_front_model.specs.Phases.{Says, TellsFault};
ghost use Rattle.hz_rtl.specs.Shape.{instruction, instructions};
ghost use Rattle.hz_sexp.specs.Shape.{trees};
ghost use Rattle.hz_tables.specs.Machines.{machine_of};
ghost use Rattle.hz_tool.specs.Blocks.{IsFaultIn, IsWrongIn, IsStuckIn};
ghost use Rattle.hz_tool.specs.Deciding.{Nothing, Refuses};
ghost use Rattle.hz_tool.specs.Machines.{IsMachineFor};
ghost use Rattle.hz_tool.specs.Refusing.{TellsDepend, TellsStuck};
ghost use Rattle.hz_tool.specs.Scheduled.{IsScheduledBy};

use crate::phases::refusing::{refuse_ambiguous, refuse_insn};
use hz_checked::Checked;
use hz_depend::{ClassFault, DependFault, Graph, graph};
use hz_front::judging::judge_forms;
use hz_front::refusal::Refusal;
use hz_front::refusing::refuse_fault;
use hz_regexp::{Name, NoMemory};
use hz_rtl::{Block, Insn, read_block};
use hz_sched::{SchedFault, Schedule, schedule};
use hz_sexp::Form;
use hz_tables::Machine;
use std::alloc::Global;

/// The dependence graph of a block, and its schedule.
#[derive(Drop)]
pub struct ScheduledBlock {
    pub graph: Graph,
    pub schedule: Schedule,
}

/// The names of two classes.
fn two_names(machine: &Machine, a: u32, b: u32) -> Result<(Name, Name), NoMemory>
    requires first { a < length machine.now.classes.items }
    requires second { b < length machine.now.classes.items }
    ensures { IfOk result (λ names. (names.0 ≡ slice_index_or machine.now.classes.items a []) × (names.1 ≡ slice_index_or machine.now.classes.items b [])) }
{
    let first = machine.classes[a as usize].copy()?;
    let second = machine.classes[b as usize].copy()?;
    Ok((first, second))
}

/// The refusal of an instruction whose class is wrong.
fn refuse_class<'a>(file: &'a str, machine: &Machine, insn: &Insn, fault: ClassFault) -> Refusal<'a>
    requires { IsFaultIn (length machine.now.classes.items) (fault_of fault) }
    ensures kind { IsJudged result }
    ensures answer { Agrees (Says 2 (class_line file.entry.now machine.now.classes.items (instruction insn.now) (fault_of fault))) result }
{
    match fault.classes() {
        Some((a, b)) => refuse_ambiguous(file, insn, fault.word(), two_names(machine, a, b)),
        None => refuse_insn(file, insn, fault.word(), None, None),
    }
}

/// The instruction at a place.
fn insn_at(block: &Block, place: u32) -> &Insn
    requires { place < length block.now.insns.items }
    ensures { slice_get block.now.insns.items place ≡ Some result.now }
{
    &block.insns[place as usize]
}

/// The refusal of a block that has no graph.
fn refuse_depend<'a>(
    file: &'a str,
    machine: &Machine,
    block: &Block,
    fault: DependFault,
) -> Refusal<'a>
    requires { IsWrongIn (length machine.now.classes.items) (length block.now.insns.items) fault }
    ensures kind { IsJudged result }
    ensures answer { TellsDepend file.entry machine.now.classes.items block.now.insns.items fault result }
{
    match fault {
        DependFault::Class { place, fault } => {
            refuse_class(file, machine, insn_at(block, place), fault)
        }
        DependFault::NoMemory => Refusal::Memory,
    }
}

/// The refusal of a block that has no schedule.
pub fn refuse_stuck<'a>(file: &'a str, block: &Block, fault: SchedFault) -> Refusal<'a>
    requires { IsStuckIn (length block.now.insns.items) fault }
    ensures kind { IsJudged result }
    ensures answer { TellsStuck file.entry block.now.insns.items fault result }
{
    match fault.reported() {
        Some((word, place)) => refuse_insn(file, insn_at(block, place), word, None, None),
        None => Refusal::Memory,
    }
}

/// The block that forms are, or the refusal of the first that is wrong.
fn judge_block<'a>(alloc: Global, file: &'a str, read: &[Form]) -> Result<Block, Refusal<'a>>
    ensures ok { IfOk result (λ block. blocks.Reads (trees read.now) (instructions block)) }
    ensures few { IfOk result (λ block. length block.insns.items ≤ instruction_limit) }
    ensures kind { IfErr result IsJudged }
    ensures err { IfErr result (Agrees (TellsFault rtl_word (blocks.FaultAt (trees read.now)) file.entry.now)) }
{
    match read_block(alloc, read) {
        Ok(block) => Ok(block),
        Err(fault) => Err(refuse_fault(file, fault.reported(), None)),
    }
}

/// The block of a text, or the refusal of the first form that is wrong.
pub fn judge_block_text<'a>(alloc: Global, file: &'a str, text: &[u8]) -> Result<Block, Refusal<'a>>
    requires { length text.now < 2 ^ 32 }
    ensures ok { IfOk result (λ block. IsBlockIn text.now (instructions block)) }
    ensures few { IfOk result (λ block. length block.insns.items ≤ instruction_limit) }
    ensures kind { IfErr result IsJudged }
    ensures err { IfErr result (Agrees (HasBlock file.entry.now text.now (λ insns. Nothing))) }
{
    let read = judge_forms(alloc, file, text)?;
    judge_block(alloc, file, &read)
}

/// The graph of a block by a checked description, whose classes the machine has, or the refusal of the first instruction whose class is
/// wrong.
pub fn judge_graph<'a>(
    alloc: Global,
    file: &'a str,
    checked: &Checked,
    machine: &Machine,
    block: &Block,
) -> Result<Graph, Refusal<'a>>
    requires few { length block.now.insns.items ≤ instruction_limit }
    requires classes { length machine.now.classes.items ≡ length checked.now.classes.items }
    ensures ok { IfOk result (IsGraphOf checked.now block.now) }
    ensures schedulable { IfOk result (IsSchedulable (length machine.now.classes.items)) }
    ensures kind { IfErr result IsJudged }
    ensures err { IfErr result (λ reported. (d : Description) (is : IsCheckedOf d checked.now) → machine.now.classes.items ≡ class_names d → Agrees (HasClasses file.entry.now d (instructions block.now) Nothing) reported) }
{
    match graph(alloc, checked, block) {
        Ok(graph) => Ok(graph),
        Err(fault) => Err(refuse_depend(file, machine, block, fault)),
    }
}

/// The schedule of a block over the machine of a checked description, with its graph; or the refusal of the first instruction whose class is
/// wrong, or else of the first that can't be issued from the start.
pub fn schedule_block<'a>(
    alloc: Global,
    file: &'a str,
    checked: &Checked,
    machine: &Machine,
    block: &Block,
) -> Result<ScheduledBlock, Refusal<'a>>
    requires few { length block.now.insns.items ≤ instruction_limit }
    requires classes { length machine.now.classes.items ≡ length checked.now.classes.items }
    requires settles { Settles (machine_of machine.now) }
    ensures ok { IfOk result (λ made. IsScheduledBy checked.now machine.now block.now made.graph made.schedule) }
    ensures err { IfErr result (λ refusal. (d : Description) (is : IsCheckedOf d checked.now) → IsMachineFor d is.known (machine_of machine.now) → Refuses (HasClasses file.entry.now d (instructions block.now) (Starts file.entry.now d is.known (instructions block.now) Nothing)) refusal) }
{
    let graph = judge_graph(alloc, file, checked, machine, block)?;
    match schedule(alloc, machine, &graph) {
        Ok(schedule) => Ok(ScheduledBlock { graph, schedule }),
        Err(fault) => Err(refuse_stuck(file, block, fault)),
    }
}
