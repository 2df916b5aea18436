//! The phases of `timed`, in their order: the description, its machine, the block, the state, the classes of the block, and what its
//! schedule reads and leaves on an exposed pipeline.

ghost use Rattle.std.specs.Prelude.{◌<◌, ◌^◌, length};
ghost use Rattle.hz_answer_model.specs.Answers.{TimesByDescription};
ghost use Rattle.hz_front_model.specs.Descriptions.{HasDescription};
ghost use Rattle.hz_tool.specs.Deciding.{Decides};

use crate::done::Done;
use crate::phases::blocks::{judge_block_text, schedule_block};
use crate::phases::compiling::judge_compiled;
use crate::phases::states::judge_state_text;
use hz_front::refusal::Refusal;
use hz_timed::exposed;
use hz_tool_words::order::TimedOrder;
use std::alloc::Global;

/// What the schedule of a block reads and leaves by the three texts, the description judged first, then the block, then the state; or a
/// refusal.
pub fn judge_timed<'a>(
    alloc: Global,
    order: &TimedOrder<'a>,
    described: &[u8],
    blocked: &[u8],
    stated: &[u8],
) -> Result<Done, Refusal<'a>>
    requires described { length described.now < 2 ^ 32 }
    requires block { length blocked.now < 2 ^ 32 }
    requires state { length stated.now < 2 ^ 32 }
    ensures { Decides (HasDescription order.now.description.now described.now (TimesByDescription order.now.description.now order.now.block.now blocked.now order.now.state.now stated.now)) result }
{
    let front = judge_compiled(alloc, order.description, described)?;
    let block = judge_block_text(alloc, order.block, blocked)?;
    let state = judge_state_text(alloc, order.state, stated)?;
    let checked = &front.checked;
    let machine = &front.compiled.machine;
    let made = schedule_block(alloc, order.block, checked, machine, &block)?;
    let Ok(timed) = exposed(alloc, checked, &block, &made.graph, &made.schedule, &state) else {
        return Err(Refusal::Memory);
    };
    Ok(Done::Timed {
        block,
        schedule: made.schedule,
        timed,
    })
}
