//! The check of a description.

ghost use Rattle.std.specs.Prelude.{IfOk, IfErr};
ghost use Rattle.std.specs.List.{AllPairs};
ghost use Rattle.hz_mdread.specs.Shape.{description};
ghost use Rattle.hz_check.specs.Checked.{IsCheckedOf};
ghost use Rattle.hz_check.specs.Faults.{Tells, IsReportedAt};
ghost use Rattle.hz_check.specs.Parts.{IsPartsOf};
ghost use Rattle.hz_description_model.specs.Reading.DescriptionShape.{IsCheckable, SharesAutomaton};

use crate::fault::CheckFault;
use crate::parts::assembly::attributes;
use crate::parts::classes::checked_classes;
use crate::parts::{Parts, parts_of};
use hz_checked::Checked;
use hz_mdread::Description;
use hz_regexp::NoMemory;
use std::alloc::Global;

/// A description without a fault, put together from its parts.
fn assembled(alloc: Global, desc: Description, parts: Parts) -> Result<Checked, NoMemory>
    requires formed { IsCheckable (description desc) }
    requires parts { IsPartsOf (description desc) parts }
    ensures { IfOk result (IsCheckedOf (description desc)) }
{
    let count = parts.automata.len();
    let classes = checked_classes(alloc, desc.classes, &parts.lists, count)?;
    let attributes = attributes(alloc, desc.attributes)?;
    Ok(Checked {
        automata: parts.automata,
        classes,
        bypasses: parts.bypasses,
        attributes: attributes.values,
        defaults: attributes.defaults,
        options: desc.options,
    })
}

/// Checks a description: its names, reservations, sets, limits and bypasses, and gives what it keeps where it has no fault.
/// Expressions are well formed, latencies and numbers of bypasses at most 1,000, each list in the order of its forms, items
/// of two lists of different forms, and units of one form of one automaton. The fault that is reported is the first of `CheckFault`, at the first form where it
/// stands and with the leftmost name there; of limits see there. This profile, docs/RULES.md, 'Faults of a description'.
pub fn check(alloc: Global, desc: Description) -> Result<Checked, CheckFault>
    requires formed { IsCheckable (description desc) }
    requires shared { AllPairs SharesAutomaton (description desc).units }
    ensures ok { IfOk result (IsCheckedOf (description desc)) }
    ensures faults { IfErr result (Tells (IsReportedAt (description desc))) }
{
    let parts = match parts_of(alloc, &desc) {
        Ok(parts) => parts,
        Err(fault) => return Err(fault),
    };
    match assembled(alloc, desc, parts) {
        Ok(checked) => Ok(checked),
        Err(_) => Err(CheckFault::NoMemory),
    }
}
