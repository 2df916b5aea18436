//! The phases of `modulo`, in their order: the description, its machine, the block and how many instructions it has, its classes, and
//! the kernel of its schedule.

ghost use Rattle.std.specs.Prelude.{◌≡◌, ◌<◌, ◌^◌, length, nat_lt};
ghost use Rattle.hz_answer_model.specs.Answers.{OverlapsByDescription};
ghost use Rattle.hz_front_model.specs.Descriptions.{HasDescription};
ghost use Rattle.hz_measure_model.specs.Kernels.Repeats.{body_limit};
ghost use Rattle.hz_tool.specs.Deciding.{Decides};

use crate::done::Done;
use crate::phases::blocks::{judge_block_text, schedule_block};
use crate::phases::compiling::judge_compiled;
use hz_front::refusal::Refusal;
use hz_modulo::kernel;
use hz_rtl::Block;
use hz_tool_words::order::ModuloOrder;
use std::alloc::Global;

/// The instructions of a loop's body, at most.
const BODY_LIMIT: usize = 256;

/// Whether a loop's body has too many instructions.
fn is_long(block: &Block) -> bool
    ensures { result ≡ nat_lt body_limit (length block.now.insns.items) }
{
    BODY_LIMIT < block.insns.len()
}

/// The kernel of a loop by both texts, the description judged first, or a refusal.
pub fn judge_modulo<'a>(
    alloc: Global,
    order: &ModuloOrder<'a>,
    described: &[u8],
    blocked: &[u8],
) -> Result<Done, Refusal<'a>>
    requires described { length described.now < 2 ^ 32 }
    requires block { length blocked.now < 2 ^ 32 }
    ensures { Decides (HasDescription order.now.description.now described.now (OverlapsByDescription order.now.description.now order.now.block.now blocked.now)) result }
{
    let front = judge_compiled(alloc, order.description, described)?;
    let block = judge_block_text(alloc, order.block, blocked)?;
    if is_long(&block) {
        return Err(Refusal::Insns { file: order.block });
    }
    let checked = &front.checked;
    let machine = &front.compiled.machine;
    let made = schedule_block(alloc, order.block, checked, machine, &block)?;
    let Ok(kernel) = kernel(alloc, machine, checked, &block, &made.graph, &made.schedule) else {
        return Err(Refusal::Memory);
    };
    let compiled = front.compiled;
    Ok(Done::Overlapped {
        machine: compiled.machine,
        graph: made.graph,
        schedule: made.schedule,
        kernel,
    })
}
