//! The texts judged, one phase after the other: the description, the trace, and what is reported of it. The first that refuses decides.

ghost use Rattle.std.specs.Prelude.{◌≡◌, ◌≤◌, ◌<◌, ◌^◌, ◌∷◌, [], IfOk, IfErr, IsTrue, length};
ghost use Rattle.std.specs.List.{AllPairs};
ghost use Rattle.hz_front_model.specs.Asks.{trace_names};
ghost use Rattle.hz_front_model.specs.Descriptions.{Checks, Describes, HasDescription};
ghost use Rattle.hz_base_model.specs.Lines.{lines_of};
ghost use Rattle.hz_check.specs.Parts.{IsPartsOf};
ghost use Rattle.hz_description_model.specs.Reading.DescriptionForms as description_forms;
ghost use Rattle.hz_description_model.specs.Reading.DescriptionShape.{IsCheckable, SharesAutomaton};
ghost use Rattle.hz_mdread.specs.Shape.{description};
ghost use Rattle.hz_pipeline_model.specs.Traces.Traces.{Trace, event_lines};
ghost use Rattle.hz_replay.specs.Traces.{events_in, lines_in};
ghost use Rattle.hz_sexp.specs.Shape.{trees};
ghost use Rattle.hz_front.specs.Refusals.{IsJudged};
ghost use Rattle.hz_why_model.specs.Answers.{ExplainsTrace, JudgesTexts, ReplaysAndExplains};
ghost use Rattle.hz_explain.specs.Deciding.{Answers};

use crate::naming::trace_names;
use crate::whole::{Explained, explain};
use hz_check::Parts;
use hz_front::judging::{judge_description, judge_events, judge_forms, judge_parts};
use hz_front::refusal::Refusal;
use hz_mdread::Description;
use hz_replay::Event;
use hz_sexp::Form;
use std::alloc::Global;

/// What is reported of the events of a trace.
fn explain_events<'a>(
    alloc: Global,
    desc: &Description,
    parts: &Parts,
    trace: &[u8],
    events: &[Event],
) -> Result<Explained, Refusal<'a>>
    requires formed { IsCheckable (description desc.now) }
    requires parts { IsPartsOf (description desc.now) parts.now }
    requires read { Trace (trace_names (description desc.now)) trace.now (events_in events.now) }
    requires lines { lines_in events.now ≡ event_lines (trace_names (description desc.now)) 1 (lines_of trace.now) }
    ensures low { IfOk result (λ whole. whole.status ≤ 1) }
    ensures kind { IfErr result IsJudged }
    ensures answer { (is : IsPartsOf (description desc.now) parts.now) → Answers (ReplaysAndExplains (description desc.now) is.known (event_lines (trace_names (description desc.now)) 1 (lines_of trace.now)) (events_in events.now)) result }
{
    let _bytes = trace.len();
    match explain(alloc, desc, parts, events) {
        Ok(explained) => Ok(explained),
        Err(_) => Err(Refusal::Memory),
    }
}

/// What is reported of the text of a trace, over a description without a fault.
fn explain_text<'a>(
    alloc: Global,
    desc: &Description,
    parts: &Parts,
    trace: &'a str,
    traced: &[u8],
) -> Result<Explained, Refusal<'a>>
    requires short { length traced.now < 2 ^ 32 }
    requires formed { IsCheckable (description desc.now) }
    requires parts { IsPartsOf (description desc.now) parts.now }
    ensures low { IfOk result (λ whole. whole.status ≤ 1) }
    ensures kind { IfErr result IsJudged }
    ensures answer { (is : IsPartsOf (description desc.now) parts.now) → Answers (ExplainsTrace trace.entry.now traced.now (description desc.now) is.known) result }
{
    let Ok(names) = trace_names(alloc, desc, parts) else {
        return Err(Refusal::Memory);
    };
    match judge_events(alloc, trace, &names, traced) {
        Ok(events) => explain_events(alloc, desc, parts, traced, &events),
        Err(refusal) => Err(refusal),
    }
}

/// The same, once the description is checked.
fn explain_checked<'a>(
    alloc: Global,
    file: &'a str,
    desc: &Description,
    trace: &'a str,
    traced: &[u8],
) -> Result<Explained, Refusal<'a>>
    requires short { length traced.now < 2 ^ 32 }
    requires formed { IsCheckable (description desc.now) }
    requires shared { AllPairs SharesAutomaton (description desc.now).units }
    ensures low { IfOk result (λ whole. whole.status ≤ 1) }
    ensures kind { IfErr result IsJudged }
    ensures answer { Answers (Checks file.entry.now (description desc.now) (ExplainsTrace trace.entry.now traced.now (description desc.now))) result }
{
    match judge_parts(alloc, file, desc) {
        Ok(parts) => explain_text(alloc, desc, &parts, trace, traced),
        Err(refusal) => Err(refusal),
    }
}

/// The same, once the forms of the description are read.
fn explain_said<'a>(
    alloc: Global,
    file: &'a str,
    read: &[Form],
    trace: &'a str,
    traced: &[u8],
) -> Result<Explained, Refusal<'a>>
    requires short { length traced.now < 2 ^ 32 }
    requires count { description_forms.form_count (trees read.now) < 2 ^ 32 }
    requires strings { IsTrue (description_forms.strings_below (2 ^ 32) (trees read.now)) }
    ensures low { IfOk result (λ whole. whole.status ≤ 1) }
    ensures kind { IfErr result IsJudged }
    ensures answer { Answers (Describes file.entry.now (trees read.now) (λ d. Checks file.entry.now d (ExplainsTrace trace.entry.now traced.now d))) result }
{
    match judge_description(alloc, file, read) {
        Ok(desc) => explain_checked(alloc, file, &desc, trace, traced),
        Err(refusal) => Err(refusal),
    }
}

/// What is reported of a trace by the texts of both files, the description judged first.
pub(crate) fn explain_texts<'a>(
    alloc: Global,
    file: &'a str,
    described: &[u8],
    trace: &'a str,
    traced: &[u8],
) -> Result<Explained, Refusal<'a>>
    requires described { length described.now < 2 ^ 32 }
    requires traced { length traced.now < 2 ^ 32 }
    ensures low { IfOk result (λ whole. whole.status ≤ 1) }
    ensures kind { IfErr result IsJudged }
    ensures answer { Answers (HasDescription file.entry.now described.now (ExplainsTrace trace.entry.now traced.now)) result }
{
    match judge_forms(alloc, file, described) {
        Ok(read) => explain_said(alloc, file, &read, trace, traced),
        Err(refusal) => Err(refusal),
    }
}
