//! Why an issue is refused, and what accepted events leave, as texts.

ghost use Rattle.std.specs.Prelude.{◌≡◌, ◌<◌, ◌++◌, ℕ, List, Option, IfOk, OnOk, vec_len};
ghost use Rattle.hz_check.specs.Parts.{IsPartsOf};
ghost use Rattle.hz_description_model.specs.Reservations.Automata.{UnitPlace};
ghost use Rattle.hz_mdread.specs.Shape.{description};
ghost use Rattle.hz_pipeline_model.specs.Accepting.Events.{Event};
ghost use Rattle.hz_pipeline_model.specs.Accepting.Replay.{Pipeline, left_by};
ghost use Rattle.hz_why_model.specs.Answers.{wording_of};
ghost use Rattle.hz_why_model.specs.Explanations.{left_text, refusal_text};
ghost use Rattle.hz_why_model.specs.Waits.{IsLeastWait};
ghost use Rattle.hz_reasons.specs.Frontiers.{AreEntriesOf, IsFrontier, first_of};
ghost use Rattle.hz_reasons.specs.Holding.{AreHolders};
ghost use Rattle.hz_reasons.specs.Plans.{IsPlanOf, IsWide};
ghost use Rattle.hz_explain.specs.Telling.{AreReasons};

use crate::groups::add_alternatives;
use crate::picture::add_shown;
use crate::takes::add_takes;
use crate::telling::{add_choice, add_wait, reasons};
use crate::ways::add_ways;
use hz_check::Parts;
use hz_grid::NoMemory;
use hz_mdread::Description;
use hz_reasons::{Frontier, Holder, Holders, Plan, Reason};
use std::alloc::Global;

/// Adds why an issue of the class is refused after the events whose issues hold this: when it fits, what forbids each of its
/// alternatives, what each takes, which issues still hold something, and a picture of what stands reserved.
fn add_refusal(
    alloc: Global,
    text: &mut Vec<u8>,
    desc: &Description,
    parts: &Parts,
    plan: &Plan,
    issues: &[Holder],
    reasons: &[Option<Reason>],
    class: u32,
    wait: Option<u32>,
) -> Result<(), NoMemory>
    requires parts { IsPartsOf (description desc.now) parts.now }
    requires class { class < vec_len plan.now.classes }
    requires wide { IsWide plan.now }
    ensures { OnOk result ((m : Pipeline UnitPlace) (t : List Event) (lines choices : List ℕ) → IsPlanOf m plan.now → AreReasons m (left_by m t choices) class reasons.now → AreHolders m t lines choices issues.now → text.new.items ≡ text.old.items ++ refusal_text (wording_of (description desc.now)) m t lines choices class wait) }
{
    add_choice(text, plan.any_fit)?;
    add_wait(text, wait)?;
    add_alternatives(alloc, text, desc, parts, plan, issues, reasons)?;
    let choices = plan.classes[class as usize].as_slice();
    add_takes(alloc, text, parts, choices)?;
    add_ways(alloc, text, desc, issues)?;
    add_shown(alloc, text, parts, plan, issues, choices)?;
    Ok(())
}

/// Why an issue of the class is refused after the events of all these choices, of which the first hold this: when it fits by any of
/// them; by the first what forbids each of its alternatives; what each takes; by the first which issues still hold something, and a
/// picture of what stands reserved. `NoMemory` where there was none.
pub fn tell_refusal(
    alloc: Global,
    desc: &Description,
    parts: &Parts,
    plan: &Plan,
    frontier: Frontier,
    holders: &Holders,
    class: u32,
) -> Result<Vec<u8>, NoMemory>
    requires parts { IsPartsOf (description desc.now) parts.now }
    requires class { class < vec_len plan.now.classes }
    requires wide { IsWide plan.now }
    requires entries { AreEntriesOf plan.now frontier }
    ensures { IfOk result (λ text. (m : Pipeline UnitPlace) (t : List Event) (lines : List ℕ) → IsPlanOf m plan.now → IsFrontier m t frontier → AreHolders m t lines (first_of frontier).choices holders.now.issues.items → (wait : Option ℕ) × IsLeastWait m t class wait × (text.items ≡ refusal_text (wording_of (description desc.now)) m t lines (first_of frontier).choices class wait)) }
{
    let reasons = reasons(alloc, frontier.first(), plan, class)?;
    let wait = frontier.wait(alloc, plan, class)?;
    let mut text = Vec::new(alloc);
    add_refusal(
        alloc,
        &mut text,
        desc,
        parts,
        plan,
        &holders.issues,
        &reasons,
        class,
        wait,
    )?;
    Ok(text)
}

/// What is left after accepted events whose issues hold this: which of them still hold something, and a picture of what stands
/// reserved. `NoMemory` where there was none.
pub fn tell_left(
    alloc: Global,
    desc: &Description,
    parts: &Parts,
    plan: &Plan,
    holders: &Holders,
) -> Result<Vec<u8>, NoMemory>
    requires parts { IsPartsOf (description desc.now) parts.now }
    ensures { IfOk result (λ text. (m : Pipeline UnitPlace) (t : List Event) (lines choices : List ℕ) → IsPlanOf m plan.now → AreHolders m t lines choices holders.now.issues.items → text.items ≡ left_text (wording_of (description desc.now)) m t lines choices) }
{
    let mut text = Vec::new(alloc);
    add_choice(&mut text, plan.any_fit)?;
    add_ways(alloc, &mut text, desc, &holders.issues)?;
    add_shown(alloc, &mut text, parts, plan, &holders.issues, &[])?;
    Ok(text)
}
