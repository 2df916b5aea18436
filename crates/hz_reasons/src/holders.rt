//! Which issues hold what stands reserved.

ghost use Rattle.std.specs.Prelude.{◌≡◌, ◌+◌, ◌<◌, ◌++◌, ◌∷◌, [], ℕ, List, decimal, IfOk, OnErr, filter, length, map, nat_le, slice_index, vec_len};
ghost use Rattle.std.specs.List.{find};
ghost use Rattle.hz_description_model.specs.Reservations.Automata.{UnitPlace};
ghost use Rattle.hz_pipeline_model.specs.Accepting.Events.{Event, issue, advance, issues_of, cycles_of};
ghost use Rattle.hz_pipeline_model.specs.Accepting.Replay.{Pipeline};
ghost use Rattle.hz_why_model.specs.Holders.{entries, entries_from};
ghost use Rattle.hz_why_model.specs.Pictures.{longest};
ghost use Rattle.hz_reasons.specs.Holding.{AreHolders, last_of, most, older, is_holder_of};
ghost use Rattle.hz_reasons.specs.Plans.{choices_at, unit_of, IsPlanOf};

use crate::plan::{AutomatonUnit, Place, Plan};
use crate::statements::adds;
use hz_grid::NoMemory;
use std::alloc::Global;

/// An issue that still holds something.
#[derive(Clone, Copy, Debug, PartialEq, Eq)]
pub struct Holder {
    /// The line of the issue.
    pub line: u32,
    /// The class that was issued.
    pub class: u32,
    /// The number of the alternative that it took.
    pub number: usize,
    /// The last cycle of the alternative, counted from the issue.
    pub last: u16,
    /// The same cycle, counted from the present one.
    pub left: u16,
}

/// The issues of a trace that still hold something, in their order.
#[derive(Drop)]
pub struct Holders {
    pub issues: Vec<Holder>,
}

impl Holders {
    /// No issue. It takes no memory.
    pub fn start(alloc: Global) -> Holders
        ensures { (m : Pipeline UnitPlace) (lines : List ℕ) → AreHolders m [] lines [] result.issues.items }
    {
        Holders {
            issues: Vec::new(alloc),
        }
    }

    /// An issue of a class on a line, which takes the alternative of this number. `NoMemory` where there was none: the issues stay as
    /// they were.
    pub fn issue(
        &mut self,
        plan: &Plan,
        line: u32,
        class: u32,
        number: usize,
    ) -> Result<(), NoMemory>
        requires class { class < vec_len plan.now.classes }
        requires number { number < length (choices_at plan.now class) }
        ensures holds { IfOk result (λ _. (m : Pipeline UnitPlace) (t : List Event) (lines choices : List ℕ) → IsPlanOf m plan.now → length choices ≡ issues_of t → slice_index lines (length t) ≡ line → AreHolders m t lines choices self.old.issues.items → AreHolders m (t ++ issue class ∷ []) lines (choices ++ number ∷ []) self.new.issues.items) }
        ensures kept { OnErr result (self.new.issues.items ≡ self.old.issues.items) }
    {
        let choices = &plan.classes[class as usize];
        let pairs = &choices[number].pairs;
        if pairs.is_empty() {
            return Ok(());
        }
        let last = last_cycle(pairs);
        self.issues.push(Holder {
            line,
            class,
            number,
            last,
            left: last,
        })?;
        Ok(())
    }

    /// So many cycles: the issues whose last cycle is past hold nothing more. It takes no memory.
    pub fn advance(&mut self, cycles: u32)
        ensures { (m : Pipeline UnitPlace) (t : List Event) (lines choices : List ℕ) → AreHolders m t lines choices self.old.issues.items → AreHolders m (t ++ advance cycles ∷ []) lines choices self.new.issues.items }
    {
        keep(&mut self.issues, cycles);
        pass(self.issues.as_mut_slice(), cycles);
    }
}

/// How many cycles there are up to the last in which one of the issues holds something. It takes no memory.
pub fn cycles_left(issues: &[Holder]) -> u32
    ensures { result ≡ most (λ holder. holder.left + 1) issues.now }
{
    let mut cycles = 0;
    for holder in issues {
        cycles = (u32::from(holder.left) + 1).max(cycles);
    }
    cycles
}

/// The last cycle of the pairs; 0 if there is none.
pub fn last_cycle(pairs: &[Place]) -> u16
    ensures { result ≡ last_of pairs.now }
{
    let mut last = 0;
    for pair in pairs {
        last = pair.cycle.max(last);
    }
    last
}

/// Whether the issue's last cycle is not past so many cycles later.
fn stays(holder: &Holder, cycles: u32) -> bool
    ensures { result ≡ nat_le cycles holder.now.left }
{
    cycles <= u32::from(holder.left)
}

/// Lets those issues go whose last cycle is past so many cycles later.
fn keep(issues: &mut Vec<Holder>, cycles: u32)
    ensures { issues.new.items ≡ filter (λ holder. nat_le cycles holder.left) issues.old.items }
{
    issues.retain(|holder| stays(holder, cycles));
}

/// The issue so many cycles later.
fn passed(holder: Holder, cycles: u32) -> Holder
    ensures { result ≡ older cycles holder }
{
    Holder {
        line: holder.line,
        class: holder.class,
        number: holder.number,
        last: holder.last,
        left: u32::from(holder.left).saturating_sub(cycles) as u16,
    }
}

/// Goes so many cycles on with each issue.
fn pass(issues: &mut [Holder], cycles: u32)
    ensures { issues.new ≡ map (older cycles) issues.old }
{
    for place in 0..issues.len() {
        let holder = issues[place];
        issues[place] = passed(holder, cycles);
    }
}

/// Whether the issue holds the unit in a cycle, which is counted from the present one. It takes no memory.
fn is_holder(plan: &Plan, holder: Holder, unit: AutomatonUnit, cycle: u16) -> bool
    ensures { result ≡ is_holder_of plan.now (unit_of unit) cycle holder }
{
    if holder.left < cycle {
        return false;
    }
    match plan.classes.get(holder.class as usize) {
        Some(choices) => match choices.get(holder.number) {
            Some(choice) => adds(
                &choice.parts,
                unit,
                holder.last.saturating_sub(holder.left - cycle),
            ),
            None => false,
        },
        None => false,
    }
}

/// The first of the issues that holds the unit in a cycle, which is counted from the present one. It takes no memory.
pub fn first_holder(
    plan: &Plan,
    issues: &[Holder],
    unit: AutomatonUnit,
    cycle: u16,
) -> Option<Holder>
    ensures { result ≡ find (is_holder_of plan.now (unit_of unit) cycle) issues.now }
{
    issues
        .iter()
        .copied()
        .find(|holder| is_holder(plan, *holder, unit, cycle))
}

/// A law of what issues hold: its lines are those of the issues, so the longest of these is the longest of all.
pub fn lines_are_those_of_issues()
    ensures { (m : Pipeline UnitPlace) (t : List Event) (lines choices : List ℕ) (issues : List Holder) → AreHolders m t lines choices issues → longest (map (λ e. decimal e.line) (entries_from (cycles_of t) (entries m 0 t lines choices))) ≡ longest (map (λ h. decimal h.line) issues) }
{}
