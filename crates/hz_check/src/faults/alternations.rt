//! Alternations of two automata, and of two lengths.

ghost use Rattle.std.specs.Prelude.{◌≡◌, IfOk, IfErr};
ghost use Rattle.hz_mdread.specs.Shape.{description};
ghost use Rattle.hz_check.specs.Faults.Steps.{IsOrdered, AreWithin, AreUnbroken};
ghost use Rattle.hz_check.specs.Faults.{Tells, IsReportedAt};
ghost use Rattle.hz_check.specs.Faults.PastUnits.{ArePlaces};
ghost use Rattle.hz_check_reservations.specs.Answers.{AreExpanded};
ghost use Rattle.hz_check_reservations.specs.Past.{AreWithinExtents};
ghost use Rattle.hz_check_reservations.specs.Orders.{reservings};

use crate::fault::CheckFault;
use crate::faults::reported::{Wrong, refused};
use hz_altern::Alt;
use hz_check_reservations::{UnitPlace, broken_rules};
use hz_mdread::Description;
use std::alloc::Global;

/// The alternatives of each class as they are, where no class breaks one of the two rules on units of several automata.
/// The units have these places, and the numbers of the order are places of reservations, and after them places of classes.
pub(crate) fn unbroken(
    alloc: Global,
    desc: &Description,
    units: &[UnitPlace],
    order: &[usize],
    lists: Vec<Vec<Alt>>,
) -> Result<Vec<Vec<Alt>>, CheckFault>
    requires ordered { IsOrdered (description desc.now) order.now }
    requires within { AreWithin (description desc.now) }
    requires places { ArePlaces (description desc.now) units.now }
    requires extents { AreWithinExtents (description desc.now) (reservings (description desc.now) order.now) }
    requires expanded { AreExpanded (description desc.now) (reservings (description desc.now) order.now) lists.items }
    ensures same { IfOk result (λ kept. kept.items ≡ lists.items) }
    ensures rules { IfOk result (λ _. AreUnbroken (description desc.now)) }
    ensures err { IfErr result (Tells (IsReportedAt (description desc.now))) }
{
    let broken = broken_rules(alloc, desc, units, order)?;
    if let Some(site) = broken.mixed {
        return Err(refused(Wrong::AlternationOfTwoAutomata, site));
    }
    match broken.uneven {
        Some(site) => Err(refused(Wrong::AlternationOfTwoLengths, site)),
        None => Ok(lists),
    }
}
