//! The last stretch of a trace: what is issued before it holds nothing after the trace.

ghost use Rattle.std.specs.Prelude.{◌≡◌, ◌⊎◌, ◌<◌, ◌≤◌, ◌∷◌, [], ℕ, Contains, drop, length};
ghost use Rattle.hz_pipeline_model.specs.Accepting.Events.{issues_of, cycles_of};
ghost use Rattle.hz_replay.specs.Lines.{event_of};
ghost use Rattle.hz_replay.specs.Traces.{events_in};
ghost use Rattle.hz_reasons.specs.Holding.{last_of_choices, last_of_classes};
ghost use Rattle.hz_reasons.specs.Plans.{choices_at, pairs_at};

use crate::holders::last_cycle;
use crate::plan::{Choice, Place, Plan};
use hz_replay::{Event, What};

/// The last events of a trace.
#[derive(Clone, Copy, Debug, PartialEq, Eq)]
pub struct Stretch {
    /// The place of the first of them, from 0.
    pub start: usize,
    /// How many issues there are among them.
    pub issues: usize,
}

/// The last cycle of these alternatives; 0 if there is none.
fn last_of_class(choices: &[Choice]) -> u16
    ensures { result ≡ last_of_choices choices.now }
{
    let mut last = 0;
    for choice in choices {
        last = last_cycle(&choice.pairs).max(last);
    }
    last
}

/// The last cycle of the alternatives of these classes; 0 if there is none.
fn last_of_all(classes: &[Vec<Choice>]) -> u16
    ensures { result ≡ last_of_classes classes.now }
{
    let mut last = 0;
    for choices in classes {
        last = last_of_class(choices).max(last);
    }
    last
}

/// For how many cycles, with its own, an issue holds something at most.
pub fn span(plan: &Plan) -> u32
    ensures { (k i : ℕ) (p : Place) → Contains (pairs_at (choices_at plan.now k) i) p → p.cycle < result }
{
    u32::from(last_of_all(&plan.classes)) + 1
}

/// How many issues an event is.
fn issues_in(what: What) -> usize
    ensures { result ≡ issues_of (event_of what ∷ []) }
{
    match what {
        What::Issue(_) => 1,
        What::Advance(_) => 0,
        What::Ask { part: _, ask: _ } => 0,
    }
}

/// How many cycles an event advances.
fn cycles_in(what: What) -> u32
    ensures { result ≡ cycles_of (event_of what ∷ []) }
{
    match what {
        What::Issue(_) => 0,
        What::Advance(cycles) => cycles,
        What::Ask { part: _, ask: _ } => 0,
    }
}

/// The fewest last events that advance so many cycles; all events if there are no such.
pub fn last_stretch(events: &[Event], cycles: u32) -> Stretch
    ensures start { result.start ≤ length events.now }
    ensures issues { result.issues ≡ issues_of (events_in (drop result.start events.now)) }
    ensures cycles { (result.start ≡ 0) ⊎ (cycles ≤ cycles_of (events_in (drop result.start events.now))) }
{
    let mut start = events.len();
    let mut issues = 0;
    let mut left = cycles;
    while start > 0 && left > 0 {
        start -= 1;
        let what = events[start].what;
        issues += issues_in(what);
        left = left.saturating_sub(cycles_in(what));
    }
    Stretch { start, issues }
}
