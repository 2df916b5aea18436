//! The whole answer on a trace: what `replay` answers, and after it why.

ghost use Rattle.std.specs.Prelude.{◌≡◌, ◌<◌, ◌≤◌, [], All, IfOk, IfSome, Some, length, slice_get, vec_len};
ghost use Rattle.hz_front_model.specs.Replays.{Replays};
ghost use Rattle.hz_front_model.specs.Asks.{held_in, trace_names};
ghost use Rattle.hz_check.specs.Parts.{IsPartsOf};
ghost use Rattle.hz_description_model.specs.Reading.DescriptionShape.{IsCheckable};
ghost use Rattle.hz_description_model.specs.Reservations.Automata.{UnitPlace};
ghost use Rattle.hz_mdread.specs.Shape.{description};
ghost use Rattle.hz_pipeline_model.specs.Accepting.Asking.{IsOfQuery};
ghost use Rattle.hz_pipeline_model.specs.Accepting.Events.{issue, IsOfClass, cycles_of};
ghost use Rattle.hz_pipeline_model.specs.Accepting.Replay.{Pipeline};
ghost use Rattle.hz_pipeline_model.specs.Pipelines.Pipelines.{pipeline_with};
ghost use Rattle.hz_pipeline_model.specs.Traces.TraceLimits.{advance_limit};
ghost use Rattle.hz_replay.specs.Traces.{events_in, lines_in};
ghost use Rattle.hz_why_model.specs.Answers.{wording_of, Explains, ReplaysAndExplains};
ghost use Rattle.hz_why_model.specs.Choices.{IsFirstChoice};
ghost use Rattle.hz_why_model.specs.Explanations.{TellsLeft, TellsRefusal};
ghost use Rattle.hz_reasons.specs.Frontiers.{AreEntriesOf, IsFrontier, first_of};
ghost use Rattle.hz_reasons.specs.Holding.{AreHolders};
ghost use Rattle.hz_reasons.specs.Plans.{IsPlanOf, IsWide};
ghost use Rattle.hz_reasons.specs.Walking.{taken, AreAsked, ChoosesAll, IsIssueAt, StopsAll};
ghost use Rattle.hz_reasons.specs.declared.plan.Plan.{Plan};
ghost use Rattle.hz_explain.specs.Answering.{status_of};
ghost use Rattle.hz_explain.specs.Naming.{queries_held};

use crate::answering::{answer_replay, status};
use crate::drawing::add;
use crate::explaining::{tell_left, tell_refusal};
use crate::naming::{class_names, query_names, query_numbers};
use hz_check::Parts;
use hz_front::ending::Ending;
use hz_grid::NoMemory;
use hz_io::{Failed, Sink};
use hz_mdread::Description;
use hz_reasons::{Frontier, Holders, Plan, Walked, hold, walk};
use hz_replay::{Event, What};
use std::alloc::Global;

/// What is reported of a trace.
#[derive(Drop)]
pub struct Explained {
    /// 0 if all events are accepted, 1 if one is refused.
    pub status: u8,
    /// What `replay` answers; and after it what the events leave, or why one is refused.
    pub text: Vec<u8>,
}

impl Ending for Explained {
    ghost use Rattle.std.specs.Prelude.{◌≤◌};

    ghost status_of = { λ explained. explained.status };

    ghost text_of = { λ explained. explained.text.items };

    ghost can_tell = { λ explained. explained.status ≤ 1 };

    fn status(&self) -> u8 {
        self.status
    }

    fn write<S: Sink>(&self, out: &mut S) -> Result<(), Failed> {
        out.put(&self.text)
    }
}

/// The events are issued into all choices of a plan of the parts.
fn walk_parts(
    alloc: Global,
    parts: &Parts,
    plan: &Plan,
    events: &[Event],
) -> Result<Walked, NoMemory>
    requires rules { vec_len plan.now.rules ≡ vec_len parts.now.automata }
    requires wide { IsWide plan.now }
    requires classes { All (IsOfClass (vec_len plan.now.classes)) (events_in events.now) }
    requires asks { All (IsOfQuery (queries_held parts.now)) (events_in events.now) }
    ensures entries { IfOk result (λ walked. AreEntriesOf plan.now walked.frontier) }
    ensures issue { IfOk result (λ walked. IfSome walked.refused (IsIssueAt (events_in events.now))) }
    ensures chooses { IfOk result (λ walked. (m : Pipeline UnitPlace) → IsPlanOf m plan.now → ChoosesAll m (events_in events.now) walked.frontier walked.refused) }
    ensures asked { IfOk result (λ walked. (m : Pipeline UnitPlace) → IsPlanOf m plan.now → AreAsked m (queries_held parts.now) [] (lines_in (taken walked.refused events.now)) (events_in (taken walked.refused events.now)) walked.asked.items) }
{
    let queries = query_numbers(alloc, &parts.automata)?;
    walk(alloc, plan, &queries, events)
}

/// What `replay` answers of the events that were walked.
fn answer(
    alloc: Global,
    desc: &Description,
    parts: &Parts,
    events: &[Event],
    walked: &Walked,
) -> Result<Vec<u8>, NoMemory>
    requires formed { IsCheckable (description desc.now) }
    requires parts { IsPartsOf (description desc.now) parts.now }
    requires classes { All (IsOfClass (length (description desc.now).classes)) (events_in events.now) }
    requires asks { All (IsOfQuery (queries_held parts.now)) (events_in events.now) }
    requires short { cycles_of (events_in events.now) ≤ advance_limit }
    ensures { IfOk result (λ text. (is : IsPartsOf (description desc.now) parts.now) (plan : Plan) → AreEntriesOf plan walked.now.frontier → ChoosesAll (pipeline_with (description desc.now) is.known) (events_in events.now) walked.now.frontier walked.now.refused → AreAsked (pipeline_with (description desc.now) is.known) (queries_held parts.now) [] (lines_in (taken walked.now.refused events.now)) (events_in (taken walked.now.refused events.now)) walked.now.asked.items → Replays (pipeline_with (description desc.now) is.known) (held_in (description desc.now) is.known) (trace_names (description desc.now)) (lines_in events.now) (events_in events.now) (status_of walked.now.refused) text.items) }
{
    let classes = class_names(alloc, desc)?;
    let units = query_names(alloc, &parts.automata)?;
    answer_replay(alloc, &classes, &units, events, walked)
}

/// Who holds what accepted events leave, by the first choices.
fn first_holders(
    alloc: Global,
    plan: &Plan,
    events: &[Event],
    frontier: &Frontier,
) -> Result<Holders, NoMemory>
    requires classes { All (IsOfClass (vec_len plan.now.classes)) (events_in events.now) }
    requires entries { AreEntriesOf plan.now frontier.now }
    ensures first { IfOk result (λ holders. (m : Pipeline UnitPlace) → IsPlanOf m plan.now → IsFrontier m (events_in events.now) frontier.now → IsFirstChoice m (events_in events.now) (first_of frontier.now).choices) }
    ensures holders { IfOk result (λ holders. (m : Pipeline UnitPlace) → IsPlanOf m plan.now → IsFrontier m (events_in events.now) frontier.now → AreHolders m (events_in events.now) (lines_in events.now) (first_of frontier.now).choices holders.issues.items) }
{
    let choices = frontier.choices(alloc)?;
    hold(alloc, plan, events, &choices)
}

/// What accepted events leave, by the first choices.
fn left(
    alloc: Global,
    desc: &Description,
    parts: &Parts,
    plan: &Plan,
    events: &[Event],
    frontier: &Frontier,
) -> Result<Vec<u8>, NoMemory>
    requires parts { IsPartsOf (description desc.now) parts.now }
    requires classes { All (IsOfClass (vec_len plan.now.classes)) (events_in events.now) }
    requires entries { AreEntriesOf plan.now frontier.now }
    ensures { IfOk result (λ text. (m : Pipeline UnitPlace) → IsPlanOf m plan.now → IsFrontier m (events_in events.now) frontier.now → TellsLeft (wording_of (description desc.now)) m (events_in events.now) (lines_in events.now) text.items) }
{
    let holders = first_holders(alloc, plan, events, frontier)?;
    tell_left(alloc, desc, parts, plan, &holders)
}

/// Why an issue of the class is refused after accepted events.
fn refusal(
    alloc: Global,
    desc: &Description,
    parts: &Parts,
    plan: &Plan,
    events: &[Event],
    frontier: Frontier,
    class: u32,
) -> Result<Vec<u8>, NoMemory>
    requires parts { IsPartsOf (description desc.now) parts.now }
    requires class { class < vec_len plan.now.classes }
    requires classes { All (IsOfClass (vec_len plan.now.classes)) (events_in events.now) }
    requires wide { IsWide plan.now }
    requires entries { AreEntriesOf plan.now frontier }
    ensures { IfOk result (λ text. (m : Pipeline UnitPlace) → IsPlanOf m plan.now → IsFrontier m (events_in events.now) frontier → TellsRefusal (wording_of (description desc.now)) m (events_in events.now) (lines_in events.now) class text.items) }
{
    let holders = first_holders(alloc, plan, events, &frontier)?;
    tell_refusal(alloc, desc, parts, plan, frontier, &holders, class)
}

/// The class of the issue at a place.
fn class_at(events: &[Event], place: usize) -> u32
    requires { IsIssueAt (events_in events.now) place }
    ensures { slice_get (events_in events.now) place ≡ Some (issue result) }
{
    match events[place].what {
        What::Issue(class) => class,
        What::Advance(_) => unreachable!(),
        What::Ask { part: _, ask: _ } => unreachable!(),
    }
}

/// Why the issue at a place is refused, the first that is.
fn refusal_at(
    alloc: Global,
    desc: &Description,
    parts: &Parts,
    plan: &Plan,
    events: &[Event],
    frontier: Frontier,
    place: usize,
) -> Result<Vec<u8>, NoMemory>
    requires parts { IsPartsOf (description desc.now) parts.now }
    requires classes { All (IsOfClass (vec_len plan.now.classes)) (events_in events.now) }
    requires wide { IsWide plan.now }
    requires entries { AreEntriesOf plan.now frontier }
    requires issue { IsIssueAt (events_in events.now) place }
    ensures { IfOk result (λ text. (m : Pipeline UnitPlace) → IsPlanOf m plan.now → StopsAll m (events_in events.now) frontier place → Explains (wording_of (description desc.now)) m (events_in events.now) (lines_in events.now) text.items) }
{
    let class = class_at(events, place);
    refusal(alloc, desc, parts, plan, &events[..place], frontier, class)
}

/// What the events leave that were walked, or why one is refused.
fn why(
    alloc: Global,
    desc: &Description,
    parts: &Parts,
    plan: &Plan,
    events: &[Event],
    walked: Walked,
) -> Result<Vec<u8>, NoMemory>
    requires parts { IsPartsOf (description desc.now) parts.now }
    requires classes { All (IsOfClass (vec_len plan.now.classes)) (events_in events.now) }
    requires wide { IsWide plan.now }
    requires entries { AreEntriesOf plan.now walked.frontier }
    requires issue { IfSome walked.refused (IsIssueAt (events_in events.now)) }
    ensures { IfOk result (λ text. (m : Pipeline UnitPlace) → IsPlanOf m plan.now → ChoosesAll m (events_in events.now) walked.frontier walked.refused → Explains (wording_of (description desc.now)) m (events_in events.now) (lines_in events.now) text.items) }
{
    let Walked {
        frontier,
        refused,
        asked: _,
    } = walked;
    match refused {
        Some(place) => refusal_at(alloc, desc, parts, plan, events, frontier, place),
        None => left(alloc, desc, parts, plan, events, &frontier),
    }
}

/// The same as `explain`, with the plan of the parts.
fn explain_by(
    alloc: Global,
    desc: &Description,
    parts: &Parts,
    plan: &Plan,
    events: &[Event],
) -> Result<Explained, NoMemory>
    requires formed { IsCheckable (description desc.now) }
    requires parts { IsPartsOf (description desc.now) parts.now }
    requires rules { vec_len plan.now.rules ≡ vec_len parts.now.automata }
    requires lists { vec_len plan.now.classes ≡ vec_len parts.now.lists }
    requires wide { IsWide plan.now }
    requires classes { All (IsOfClass (length (trace_names (description desc.now)).classes)) (events_in events.now) }
    requires asks { All (IsOfQuery (trace_names (description desc.now)).queries) (events_in events.now) }
    requires short { cycles_of (events_in events.now) ≤ advance_limit }
    ensures low { IfOk result (λ explained. explained.status ≤ 1) }
    ensures explains { IfOk result (λ explained. (is : IsPartsOf (description desc.now) parts.now) → IsPlanOf (pipeline_with (description desc.now) is.known) plan.now → ReplaysAndExplains (description desc.now) is.known (lines_in events.now) (events_in events.now) explained.status explained.text.items) }
{
    let walked = walk_parts(alloc, parts, plan, events)?;
    let status = status(walked.refused);
    let mut text = answer(alloc, desc, parts, events, &walked)?;
    let why = why(alloc, desc, parts, plan, events, walked)?;
    add(&mut text, &why)?;
    Ok(Explained { status, text })
}

/// What is reported of the events of a trace, on a description without a fault and its parts: what `replay` answers, and after it what
/// the events leave, or why one is refused. The events are of classes and query units of the description. No limit of states stands in
/// the way. `NoMemory` where there was none.
pub fn explain(
    alloc: Global,
    desc: &Description,
    parts: &Parts,
    events: &[Event],
) -> Result<Explained, NoMemory>
    requires formed { IsCheckable (description desc.now) }
    requires parts { IsPartsOf (description desc.now) parts.now }
    requires classes { All (IsOfClass (length (trace_names (description desc.now)).classes)) (events_in events.now) }
    requires asks { All (IsOfQuery (trace_names (description desc.now)).queries) (events_in events.now) }
    requires short { cycles_of (events_in events.now) ≤ advance_limit }
    ensures low { IfOk result (λ explained. explained.status ≤ 1) }
    ensures explains { IfOk result (λ explained. (is : IsPartsOf (description desc.now) parts.now) → ReplaysAndExplains (description desc.now) is.known (lines_in events.now) (events_in events.now) explained.status explained.text.items) }
{
    let plan = Plan::of(alloc, parts, desc.options.ndfa)?;
    explain_by(alloc, desc, parts, &plan, events)
}
