//! The plan of a description without a fault.

ghost use Rattle.std.specs.Prelude.{◌≡◌, IfOk, vec_len};
ghost use Rattle.hz_check.specs.Parts.{IsPartsOf};
ghost use Rattle.hz_description_model.specs.Reading.Descriptions.{Description};
ghost use Rattle.hz_pipeline_model.specs.Pipelines.Pipelines.{pipeline_with};
ghost use Rattle.hz_reasons.specs.Planning.{AreParts};
ghost use Rattle.hz_reasons.specs.Plans.{IsWide, IsPlanOf};

use crate::plan::Plan;
use hz_check::Parts;
use hz_grid::NoMemory;
use std::alloc::Global;

mod choices;
mod sets;

use choices::classes;
use sets::{rules, sets};

impl Plan {
    /// The plan of a description without a fault, of which these are the parts; and whether an issue may take any alternative that
    /// fits, as its option `ndfa` says. It has as many automata and classes as the parts. `NoMemory` where there was none.
    pub fn of(alloc: Global, parts: &Parts, any_fit: bool) -> Result<Plan, NoMemory>
        requires parts { AreParts parts.now }
        ensures rules { IfOk result (λ plan. vec_len plan.rules ≡ vec_len parts.now.automata) }
        ensures classes { IfOk result (λ plan. vec_len plan.classes ≡ vec_len parts.now.lists) }
        ensures wide { IfOk result IsWide }
        ensures plan { IfOk result (λ plan. (d : Description) (is : IsPartsOf d parts.now) → any_fit ≡ d.options.ndfa → IsPlanOf (pipeline_with d is.known) plan) }
    {
        let sets = sets(alloc, &parts.sets)?;
        let rules = rules(alloc, &parts.automata)?;
        let classes = classes(alloc, &parts.lists, parts.automata.len())?;
        Ok(Plan {
            sets,
            rules,
            classes,
            any_fit,
        })
    }
}
