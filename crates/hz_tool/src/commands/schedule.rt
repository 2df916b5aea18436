//! The phases of `schedule`, in their order: the description, its machine, the block, its classes, and its schedule.

ghost use Rattle.std.specs.Prelude.{◌<◌, ◌^◌, length};
ghost use Rattle.hz_answer_model.specs.Answers.{SchedulesByDescription};
ghost use Rattle.hz_front_model.specs.Descriptions.{HasDescription};
ghost use Rattle.hz_tool.specs.Deciding.{Decides};

use crate::done::Done;
use crate::phases::blocks::{judge_block_text, schedule_block};
use crate::phases::compiling::judge_compiled;
use hz_front::refusal::Refusal;
use hz_tool_words::order::ScheduleOrder;
use std::alloc::Global;

/// The schedule of a block by both texts, the description judged first, or a refusal.
pub fn judge_schedule<'a>(
    alloc: Global,
    order: &ScheduleOrder<'a>,
    described: &[u8],
    blocked: &[u8],
) -> Result<Done, Refusal<'a>>
    requires described { length described.now < 2 ^ 32 }
    requires block { length blocked.now < 2 ^ 32 }
    ensures { Decides (HasDescription order.now.description.now described.now (SchedulesByDescription order.now.description.now order.now.block.now blocked.now)) result }
{
    let front = judge_compiled(alloc, order.description, described)?;
    let block = judge_block_text(alloc, order.block, blocked)?;
    let machine = &front.compiled.machine;
    let made = schedule_block(alloc, order.block, &front.checked, machine, &block)?;
    let compiled = front.compiled;
    Ok(Done::Scheduled {
        machine: compiled.machine,
        graph: made.graph,
        schedule: made.schedule,
    })
}
