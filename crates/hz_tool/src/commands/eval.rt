//! The phases of `eval`, in their order: the block, the state, and what the block leaves of it.

ghost use Rattle.std.specs.Prelude.{◌≡◌, ◌<◌, ◌≤◌, ◌^◌, IfOk, length};
ghost use Rattle.std.specs.List.{range_with_len};
ghost use Rattle.hz_answer_model.specs.BlockAnswers.{JudgesBlock};
ghost use Rattle.hz_rtl.specs.Shape.{instructions};
ghost use Rattle.hz_rtl.specs.States.{words};
ghost use Rattle.hz_block_model.specs.Running.States.{run};
ghost use Rattle.hz_block_model.specs.Running.Limits.{instruction_limit};
ghost use Rattle.hz_tool.specs.Deciding.{Decides};

use crate::done::Done;
use crate::phases::blocks::judge_block_text;
use crate::phases::states::judge_state_text;
use hz_front::refusal::Refusal;
use hz_regexp::NoMemory;
use hz_rtl::{Block, State, eval};
use hz_tool_words::order::EvalOrder;
use std::alloc::Global;

/// The state that a block leaves, in the order of its source.
fn state_after(alloc: Global, block: &Block, state: &State) -> Result<State, NoMemory>
    requires { length block.now.insns.items ≤ instruction_limit }
    ensures { IfOk result (λ after. words after ≡ run (instructions block.now) (range_with_len 0 (length (instructions block.now))) (words state.now)) }
{
    let order = block.source_order(alloc)?;
    eval(alloc, block, &order, state)
}

/// The state that a block leaves by both texts, the block judged first, or a refusal.
pub fn judge_eval<'a>(
    alloc: Global,
    order: &EvalOrder<'a>,
    blocked: &[u8],
    stated: &[u8],
) -> Result<Done, Refusal<'a>>
    requires block { length blocked.now < 2 ^ 32 }
    requires state { length stated.now < 2 ^ 32 }
    ensures { Decides (JudgesBlock order.now.block.now blocked.now order.now.state.now stated.now) result }
{
    let block = judge_block_text(alloc, order.block, blocked)?;
    let state = judge_state_text(alloc, order.state, stated)?;
    match state_after(alloc, &block, &state) {
        Ok(state) => Ok(Done::After { state }),
        Err(_) => Err(Refusal::Memory),
    }
}
