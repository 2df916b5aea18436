//! The phases of `compile`, in their order: the description, its machine, and its tables.

ghost use Rattle.std.specs.Prelude.{◌<◌, ◌^◌, length};
ghost use Rattle.hz_answer_model.specs.Answers.{CompilesDescription};
ghost use Rattle.hz_front_model.specs.Descriptions.{HasDescription};
ghost use Rattle.hz_tool.specs.Deciding.{Decides};

use crate::done::Done;
use crate::phases::compiling::judge_compiled;
use hz_front::refusal::Refusal;
use hz_tabfile::text_stands;
use hz_tool_words::order::CompileOrder;
use std::alloc::Global;

/// The tables of the text of a description, or a refusal.
pub fn judge_compile<'a>(
    alloc: Global,
    order: &CompileOrder<'a>,
    described: &[u8],
) -> Result<Done, Refusal<'a>>
    requires { length described.now < 2 ^ 32 }
    ensures { Decides (HasDescription order.now.description.now described.now (CompilesDescription order.now.description.now)) result }
{
    let front = judge_compiled(alloc, order.description, described)?;
    text_stands(&front.compiled, &front.checked);
    Ok(Done::Tables {
        compiled: front.compiled,
        checked: front.checked,
    })
}
