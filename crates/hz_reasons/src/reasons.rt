//! What forbids an alternative.

ghost use Rattle.std.specs.Prelude.{◌≡◌, ◌<◌, ℕ, length, vec_len, map, slice_get, Some, IfSome};
ghost use Rattle.std.specs.List.{find};
ghost use Rattle.std.specs.Option.{option_map};
ghost use Rattle.hz_base_model.specs.Pairs.{later};
ghost use Rattle.hz_description_model.specs.Reservations.Alternatives.{Alternative};
ghost use Rattle.hz_description_model.specs.Reservations.Automata.{UnitPlace, place_cmp};
ghost use Rattle.hz_pipeline_model.specs.Accepting.Replay.{Pipeline, State, alternatives_at};
ghost use Rattle.hz_why_model.specs.Reasons.{same_place, reason_of, or_else, taken};
ghost use Rattle.hz_reasons.specs.Breaking.{reason_at, first_broken_by, is_held_with, IsNumbered};
ghost use Rattle.hz_reasons.specs.Calendars.{parts_at};
ghost use Rattle.hz_reasons.specs.Plans.{place_of, statement_of, choices_at, AreFuture, IsPlanOf};
ghost use Rattle.hz_reasons.specs.Taken.{is_held, is_reserved};

use crate::calendar::Calendar;
use crate::plan::{AutomatonUnit, Choice, Place, Plan, SetStatement};
use crate::statements::{first_broken, stands};
use hz_grid::Grid;

/// How a set statement is broken.
#[derive(Clone, Copy, Debug, PartialEq, Eq)]
pub struct Break {
    /// The number of the statement, in the order of the file.
    pub statement: usize,
    /// The cycle in which it is broken, counted from the present one.
    pub cycle: u16,
    /// The unit of its first string by which it is broken.
    pub unit: AutomatonUnit,
    /// The number of the first pattern by which it is broken; None where a pattern is missed.
    pub pattern: Option<usize>,
}

/// What forbids an alternative.
#[derive(Clone, Copy, Debug, PartialEq, Eq)]
pub enum Reason {
    /// A pair of it that stands reserved, with its cycle counted from the present one.
    Taken(Place),
    /// A set statement that is broken.
    Broken(Break),
}

/// Whether the pair stands reserved. It takes no memory.
fn is_taken(grids: &[Grid], pair: Place) -> bool
    ensures { result ≡ is_reserved grids.now pair }
{
    let unit = AutomatonUnit {
        automaton: pair.automaton,
        unit: pair.unit,
    };
    stands(grids, unit, pair.cycle)
}

/// The first of these pairs that stands reserved; None if none does. It takes no memory.
fn first_taken(grids: &[Grid], pairs: &[Place]) -> Option<Place>
    ensures { result ≡ find (is_reserved grids.now) pairs.now }
{
    pairs.iter().copied().find(|pair| is_taken(grids, *pair))
}

/// The first pair of an alternative that stands reserved, or else how the first of the statements is broken that is, in a cycle of its
/// pairs; None if there is neither. It takes no memory.
fn first_reason(grids: &[Grid], sets: &[SetStatement], choice: &Choice) -> Option<Reason>
    ensures pattern { IfSome result (IsNumbered (map statement_of sets.now) grids.now choice.now.parts.items) }
    ensures reason { (now : ℕ) → option_map (reason_at (map statement_of sets.now) now) result ≡ or_else (option_map (λ p. taken (later now (place_of p))) (find (is_reserved grids.now) choice.now.pairs.items)) (first_broken_by (is_held grids.now) (is_held choice.now.parts.items) (is_held_with grids.now choice.now.parts.items) now 0 (map statement_of sets.now) choice.now.pairs.items) }
{
    match first_taken(grids, &choice.pairs) {
        Some(pair) => Some(Reason::Taken(pair)),
        None => match first_broken(sets, grids, &choice.parts, &choice.pairs) {
            Some(broken) => Some(Reason::Broken(broken)),
            None => None,
        },
    }
}

impl Calendar {
    /// What forbids the alternative of this number of a class: the first of its pairs that stands reserved, or else the first statement
    /// that is broken in a cycle of its pairs: in the first such cycle, by the first unit and the first pattern that break it there.
    /// None if there is neither; where what stands reserved breaks no exclusion, that is exactly if the alternative fits. It takes no
    /// memory.
    pub fn reason(&self, plan: &Plan, class: u32, number: usize) -> Option<Reason>
        requires class { class < vec_len plan.now.classes }
        requires number { number < length (choices_at plan.now class) }
        requires each { vec_len self.now.grids ≡ vec_len plan.now.rules }
        ensures pattern { IfSome result (IsNumbered (map statement_of plan.now.sets.items) self.now.grids.items (parts_at (choices_at plan.now class) number)) }
        ensures reason { (m : Pipeline UnitPlace) (s : State UnitPlace) (a : Alternative UnitPlace) → IsPlanOf m plan.now → AreFuture self.now.grids.items s → slice_get (alternatives_at m class) number ≡ Some a → option_map (reason_at m.statements s.now) result ≡ reason_of same_place place_cmp m.statements s.reserved s.now a }
    {
        let choices = &plan.classes[class as usize];
        first_reason(&self.grids, &plan.sets, &choices[number])
    }
}
