//! What every command on a description begins with: its text judged and checked, and its automata compiled.

ghost use Rattle.std.specs.Prelude.{◌≡◌, ◌<◌, ◌^◌, IfOk, [], length, map, slice_index_or};
ghost use Rattle.hz_answer_model.specs.Answers.{TellsLimit};
ghost use Rattle.hz_auto.specs.Machines.{IsFaultOf};
ghost use Rattle.hz_check.specs.Checked.{IsCheckedOf};
ghost use Rattle.hz_description_model.specs.Reading.Descriptions.{Description};
ghost use Rattle.hz_front.specs.Refusals.{Agrees, IsJudged};
ghost use Rattle.hz_tool.specs.Deciding.{Gives};
ghost use Rattle.hz_tool.specs.Fronts.{Compiling, IsFrontOf};

use crate::phases::refusing::{limited, refuse_states};
use hz_auto::{AutoFault, Compiled, compile};
use hz_checked::Checked;
use hz_front::describing::judge_described;
use hz_front::refusal::Refusal;
use hz_regexp::{Name, NoMemory};
use std::alloc::Global;

/// A description without a fault, and what is compiled of it.
#[derive(Drop)]
pub struct Front {
    pub checked: Checked,
    pub compiled: Compiled,
}

/// The name of an automaton.
fn name_of(checked: &Checked, automaton: u32) -> Result<Name, NoMemory>
    requires { automaton < length checked.now.automata.items }
    ensures { IfOk result (λ name. name ≡ slice_index_or (map (λ a. a.name) checked.now.automata.items) automaton []) }
{
    checked.automata[automaton as usize].name.copy()
}

/// The refusal of a description that is not compiled.
fn refuse_limit<'a>(file: &'a str, checked: &Checked, fault: AutoFault) -> Refusal<'a>
    requires { IsFaultOf checked.now fault }
    ensures kind { IsJudged result }
    ensures reported { (d : Description) (is : IsCheckedOf d checked.now) → Agrees (TellsLimit file.entry.now d is.known) result }
{
    match limited(fault) {
        Some(automaton) => refuse_states(file, name_of(checked, automaton)),
        None => Refusal::Memory,
    }
}

/// What is compiled of the text of a description, or the refusal of what is wrong first: a form, what forms say, the check, or an automaton
/// that has too many states.
pub fn judge_compiled<'a>(alloc: Global, file: &'a str, text: &[u8]) -> Result<Front, Refusal<'a>>
    requires { length text.now < 2 ^ 32 }
    ensures { Gives (IsFrontOf text.now) (Compiling file.entry.now text.now) result }
{
    let checked = judge_described(alloc, file, text)?;
    match compile(alloc, &checked) {
        Ok(compiled) => Ok(Front { checked, compiled }),
        Err(fault) => Err(refuse_limit(file, &checked, fault)),
    }
}
