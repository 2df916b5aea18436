//! The texts judged, one phase after the other; the first that refuses decides.

ghost use Rattle.std.specs.Prelude.{◌≡◌, ◌^◌, ◌<◌, IfOk, IfErr, IsTrue, length};
ghost use Rattle.std.specs.List.{AllPairs};
ghost use Rattle.hz_description_model.specs.Reading.DescriptionForms as description_forms;
ghost use Rattle.hz_description_model.specs.Reading.DescriptionShape.{IsWellFormed, IsCheckable, SharesAutomaton};
ghost use Rattle.hz_base_model.specs.Forms.Forms as forms;
ghost use Rattle.hz_base_model.specs.Lines.{lines_of};
ghost use Rattle.hz_pipeline_model.specs.Traces.Traces.{Trace, event_lines, TraceFaultAt, trace_word};
ghost use Rattle.hz_check.specs.Checked.{IsCheckedOf};
ghost use Rattle.hz_check.specs.Parts.{IsPartsOf};
ghost use Rattle.hz_mdread.specs.Shape.{description};
ghost use Rattle.hz_sexp.specs.Shape.{trees};
ghost use Rattle.hz_front_model.specs.Descriptions.{TellsDescription, TellsCheck};
ghost use Rattle.hz_front_model.specs.Phases.{TellsFault};
ghost use Rattle.hz_base_model.specs.Forms.Forms.{form_word};
ghost use Rattle.hz_front.specs.Refusals.{Agrees, IsJudged};
ghost use Rattle.hz_replay.specs.Traces.{events_in, lines_in};

use crate::refusal::Refusal;
use crate::refusing::{refuse_check, refuse_fault};
use hz_check::{Parts, check, parts_of};
use hz_checked::Checked;
use hz_mdread::{Description, read_description};
use hz_replay::{Event, Names, read_events};
use hz_sexp::{Form, read_forms};
use std::alloc::Global;

/// The forms of a text, or the refusal of its first fault.
pub fn judge_forms<'a>(alloc: Global, file: &'a str, text: &[u8]) -> Result<Vec<Form>, Refusal<'a>>
    requires { length text.now < 2 ^ 32 }
    ensures ok { IfOk result (λ read. forms.Reads text.now (trees read.items)) }
    ensures kind { IfErr result IsJudged }
    ensures err { IfErr result (Agrees (TellsFault form_word (forms.FaultAt text.now) file.entry.now)) }
{
    match read_forms(alloc, text) {
        Ok(read) => Ok(read),
        Err(fault) => Err(refuse_fault(file, fault.reported(), None)),
    }
}

/// The description that forms say, or the refusal of the first fault of a form.
pub fn judge_description<'a>(
    alloc: Global,
    file: &'a str,
    read: &[Form],
) -> Result<Description, Refusal<'a>>
    requires count { description_forms.form_count (trees read.now) < 2 ^ 32 }
    requires strings { IsTrue (description_forms.strings_below (2 ^ 32) (trees read.now)) }
    ensures ok { IfOk result (λ d. description_forms.Reads (trees read.now) (description d)) }
    ensures formed { IfOk result (λ d. IsWellFormed (description d)) }
    ensures kind { IfErr result IsJudged }
    ensures err { IfErr result (Agrees (TellsDescription file.entry.now (trees read.now))) }
{
    match read_description(alloc, read) {
        Ok(description) => Ok(description),
        Err(fault) => Err(refuse_fault(file, fault.reported(), fault.at())),
    }
}

/// The description without a fault, or the refusal of the fault that is reported.
pub fn judge_check<'a>(
    alloc: Global,
    file: &'a str,
    described: Description,
) -> Result<Checked, Refusal<'a>>
    requires formed { IsCheckable (description described) }
    requires shared { AllPairs SharesAutomaton (description described).units }
    ensures ok { IfOk result (IsCheckedOf (description described)) }
    ensures kind { IfErr result IsJudged }
    ensures err { IfErr result (Agrees (TellsCheck file.entry.now (description described))) }
{
    match check(alloc, described) {
        Ok(checked) => Ok(checked),
        Err(fault) => Err(refuse_check(file, fault)),
    }
}

/// What is made of a description without a fault while it stays whole, or the refusal of the fault that is reported.
pub fn judge_parts<'a>(
    alloc: Global,
    file: &'a str,
    described: &Description,
) -> Result<Parts, Refusal<'a>>
    requires formed { IsCheckable (description described.now) }
    requires shared { AllPairs SharesAutomaton (description described.now).units }
    ensures ok { IfOk result (IsPartsOf (description described.now)) }
    ensures kind { IfErr result IsJudged }
    ensures err { IfErr result (Agrees (TellsCheck file.entry.now (description described.now))) }
{
    match parts_of(alloc, described) {
        Ok(parts) => Ok(parts),
        Err(fault) => Err(refuse_check(file, fault)),
    }
}

/// The events of a trace over these names, or the refusal of its first wrong line.
pub fn judge_events<'a>(
    alloc: Global,
    file: &'a str,
    names: &Names,
    text: &[u8],
) -> Result<Vec<Event>, Refusal<'a>>
    requires { length text.now < 2 ^ 32 }
    ensures ok { IfOk result (λ events. Trace names.now text.now (events_in events.items)) }
    ensures lines { IfOk result (λ events. lines_in events.items ≡ event_lines names.now 1 (lines_of text.now)) }
    ensures kind { IfErr result IsJudged }
    ensures err { IfErr result (Agrees (TellsFault trace_word (TraceFaultAt names.now text.now) file.entry.now)) }
{
    match read_events(alloc, names, text) {
        Ok(events) => Ok(events),
        Err(fault) => Err(refuse_fault(file, fault.reported(), None)),
    }
}
