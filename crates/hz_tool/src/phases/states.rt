//! States: their texts judged.

ghost use Rattle.std.specs.Prelude.{◌<◌, ◌^◌, IfOk, IfErr, length};
ghost use Rattle.hz_answer_model.specs.BlockAnswers.{HasState};
ghost use Rattle.hz_answer_model.specs.Headline.{IsStateIn};
ghost use Rattle.hz_block_model.specs.Texts.Operands.{rtl_word};
ghost use Rattle.hz_block_model.specs.Texts.StateForms as states;
ghost use Rattle.hz_front.specs.Refusals.{Agrees, IsJudged};
ghost use Rattle.hz_front_model.specs.Phases.{TellsFault};
ghost use Rattle.hz_rtl.specs.States.{words};
ghost use Rattle.hz_sexp.specs.Shape.{trees};
ghost use Rattle.hz_tool.specs.Deciding.{Nothing};

use hz_front::judging::judge_forms;
use hz_front::refusal::Refusal;
use hz_front::refusing::refuse_fault;
use hz_rtl::{State, read_state};
use hz_sexp::Form;
use std::alloc::Global;

/// The state that forms give, or the refusal of the first that is wrong.
fn judge_state<'a>(alloc: Global, file: &'a str, read: &[Form]) -> Result<State, Refusal<'a>>
    ensures ok { IfOk result (λ state. states.Reads (trees read.now) (words state)) }
    ensures kind { IfErr result IsJudged }
    ensures err { IfErr result (Agrees (TellsFault rtl_word (states.FaultAt (trees read.now)) file.entry.now)) }
{
    match read_state(alloc, read) {
        Ok(state) => Ok(state),
        Err(fault) => Err(refuse_fault(file, fault.reported(), None)),
    }
}

/// The state of a text, or the refusal of the first form that is wrong.
pub fn judge_state_text<'a>(alloc: Global, file: &'a str, text: &[u8]) -> Result<State, Refusal<'a>>
    requires { length text.now < 2 ^ 32 }
    ensures ok { IfOk result (λ state. IsStateIn text.now (words state)) }
    ensures kind { IfErr result IsJudged }
    ensures err { IfErr result (Agrees (HasState file.entry.now text.now (λ state. Nothing))) }
{
    let read = judge_forms(alloc, file, text)?;
    judge_state(alloc, file, &read)
}
