//! Bypasses without the guard that give a pair of classes another number than an earlier one.

ghost use Rattle.std.specs.Prelude.{◌≡◌, ◌<◌, ◌≤◌, ℕ, Bool, All, IfOk, None, filter, vec_len};
ghost use Rattle.std.specs.List.{AllPairs};
ghost use Rattle.hz_mdread.specs.Shape.{description};
ghost use Rattle.hz_check_reservations.specs.Places.{reported};
ghost use Rattle.hz_check.specs.Names.First.{first_of};
ghost use Rattle.hz_description_model.specs.Check.CheckFaults.{second_numbers, unknown_names};
ghost use Rattle.hz_description_model.specs.Check.CheckedParts.{class_numbers};
ghost use Rattle.hz_description_model.specs.Check.Sites.{earliest};

use crate::faults::bypass_rows::{distinct, first_other, give_all, no_rows};
use crate::names::Names;
use crate::names::class_numbers::class_numbers;
use crate::names::site::Site;
use hz_regexp::{Name, NoMemory};
use std::alloc::Global;

/// The numbers of the classes of these names, each once.
fn distinct_numbers<'a>(
    alloc: Global,
    names: &Names<'a>,
    classes: &'a [Name],
) -> Result<Vec<usize>, NoMemory>
    ensures firsts { IfOk result (λ v. (p : ℕ → Bool) → first_of (filter p v.items) ≡ first_of (filter p (class_numbers (description names.now.desc.now) classes.now))) }
    ensures within { IfOk result (λ v. All (λ i. i < vec_len names.now.desc.now.classes) v.items) }
{
    let numbers = class_numbers(alloc, names, classes)?;
    let kept = distinct(alloc, &numbers)?;
    Ok(kept)
}

/// Where a bypass without the guard gives a pair of classes another number than an earlier one without it.
pub(crate) fn second_number<'a>(
    alloc: Global,
    names: &Names<'a>,
) -> Result<Option<Site<'a>>, NoMemory>
    requires known { earliest (unknown_names (description names.now.desc.now)) ≡ None }
    requires ordered { AllPairs (λ earlier later. earlier.form ≤ later.form) (description names.now.desc.now).bypasses }
    ensures { IfOk result (λ site. reported site ≡ earliest (second_numbers (description names.now.desc.now))) }
{
    let desc = names.desc;
    let classes = desc.classes.len();
    let mut rows = no_rows(alloc, classes)?;
    for bypass in &desc.bypasses {
        if bypass.guard {
            continue;
        }
        let outs = distinct_numbers(alloc, names, &bypass.outs)?;
        let ins = distinct_numbers(alloc, names, &bypass.ins)?;
        if let Some(out) = first_other(&rows, &outs, &ins, bypass.number) {
            let line = bypass.line;
            let form = bypass.form;
            let name = &desc.classes[out].name;
            return Ok(Some(Site { line, form, name }));
        }
        give_all(&mut rows, &outs, &ins, bypass.number, classes)?;
    }
    Ok(None)
}
