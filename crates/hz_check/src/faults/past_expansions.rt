//! The alternatives of the classes, or the limit that is passed on them.

ghost use Rattle.std.specs.Prelude.{IfOk, IfErr};
ghost use Rattle.hz_mdread.specs.Shape.{description};
ghost use Rattle.hz_check.specs.Faults.Steps.{IsOrdered, AreWithin};
ghost use Rattle.hz_check.specs.Faults.{Tells, IsReportedAt, IsListsOrSite};
ghost use Rattle.hz_check.specs.Faults.PastUnits.{ArePlaces};
ghost use Rattle.hz_check_reservations.specs.Answers.{AreExpanded};
ghost use Rattle.hz_check_reservations.specs.Past.{AreWithinExtents};
ghost use Rattle.hz_check_reservations.specs.Orders.{reservings};

use crate::fault::{CheckFault, LimitName};
use crate::faults::reported::{Wrong, refused};
use crate::names::site::Site;
use hz_altern::Alt;
use hz_check_reservations::{Unexpanded, UnitPlace, expand_all, past_extents};
use hz_mdread::Description;
use hz_regexp::NoMemory;
use std::alloc::Global;

/// The alternatives of the classes, or the site where the sizes pass their limit; want of memory stays what it is.
fn lists_or_site<'a>(
    expanded: Result<Vec<Vec<Alt>>, Unexpanded<'a>>,
) -> Result<Result<Vec<Vec<Alt>>, Site<'a>>, NoMemory>
    ensures { IsListsOrSite expanded.entry result }
{
    match expanded {
        Ok(lists) => Ok(Ok(lists)),
        Err(Unexpanded::Size(site)) => Ok(Err(site)),
        Err(Unexpanded::NoMemory) => Err(NoMemory),
    }
}

/// The alternatives of each class, or the first limit on them that is passed. The units have these places, and the
/// numbers of the order are places of reservations, and after them places of classes.
pub(crate) fn expanded(
    alloc: Global,
    desc: &Description,
    units: &[UnitPlace],
    order: &[usize],
) -> Result<Vec<Vec<Alt>>, CheckFault>
    requires ordered { IsOrdered (description desc.now) order.now }
    requires within { AreWithin (description desc.now) }
    requires places { ArePlaces (description desc.now) units.now }
    ensures ok { IfOk result (λ lists. AreExpanded (description desc.now) (reservings (description desc.now) order.now) lists.items) }
    ensures extents { IfOk result (λ _. AreWithinExtents (description desc.now) (reservings (description desc.now) order.now)) }
    ensures err { IfErr result (Tells (IsReportedAt (description desc.now))) }
{
    let past = past_extents(alloc, desc, order)?;
    if let Some(site) = past.alternatives {
        let what = LimitName::Alternatives;
        return Err(refused(Wrong::Limit(what), site));
    }
    if let Some(site) = past.cycles {
        let what = LimitName::Cycles;
        return Err(refused(Wrong::Limit(what), site));
    }
    match lists_or_site(expand_all(alloc, desc, units, order))? {
        Ok(lists) => Ok(lists),
        Err(site) => {
            let what = LimitName::Size;
            Err(refused(Wrong::Limit(what), site))
        }
    }
}
