//! Which reservations and classes have too many or too long alternatives.

ghost use Rattle.std.specs.Prelude.{◌≡◌, [], IfOk, OnOk, map, nat_lt, if◌then◌else◌, Some, None};
ghost use Rattle.std.specs.List.{Contains};
ghost use Rattle.hz_altern.specs.Tables.{extent_in};
ghost use Rattle.hz_check_reservations.specs.Past.{AreCountable, ArePast, TellsAfter};
ghost use Rattle.hz_check_reservations.specs.Places.{reported};
ghost use Rattle.hz_check_reservations.specs.Tables.{HasExtent, Holds, IsAfter, unit_names};
ghost use Rattle.hz_mdread.specs.Shape.{description};
ghost use Rattle.hz_description_model.specs.Check.CheckFaults.{faults_of_names};
ghost use Rattle.hz_description_model.specs.Check.FirstReported.{first_reported};
ghost use Rattle.hz_description_model.specs.Reading.DescriptionShape.{IsCheckable};
ghost use Rattle.hz_base_model.specs.Limits.{cycle_limit};
ghost use Rattle.hz_description_model.specs.Reservations.Limits.{alternative_limit};
ghost use Rattle.hz_description_model.specs.Check.Sites.{earlier as earlier_site};
ghost use Rattle.hz_check_reservations.specs.Orders.{IsOrder, all_of, reservings};
ghost use Rattle.hz_check_reservations.specs.Places.{site_of};

use crate::listing::reserving::{Reserves, Reserving, reserving_at};
use crate::{Site, earlier};
use hz_altern::{ALTERNATIVE_LIMIT, CYCLE_LIMIT, Extent, Extents, extent};
use hz_mdread::Description;
use hz_regexp::NoMemory;
use std::alloc::Global;

/// The earliest reservation or class of the file that passes each of two limits.
#[derive(Clone, Copy, Debug)]
pub struct PastExtents<'a> {
    /// It has more than `ALTERNATIVE_LIMIT` alternatives.
    pub alternatives: Option<Site<'a>>,
    /// An alternative of it runs for more than `CYCLE_LIMIT` cycles.
    pub cycles: Option<Site<'a>>,
}

/// The site, where the test is passed.
fn site_if(test: bool, site: Site<'_>) -> Option<Site<'_>>
    ensures { reported result ≡ (if test then Some (site_of site.entry) else None) }
{
    if test { Some(site) } else { None }
}

/// What is reported where one more stands before those that were looked at.
fn past_before<'a>(
    reserving: Reserving<'a>,
    extent: Extent,
    past: PastExtents<'a>,
) -> PastExtents<'a>
    ensures alternatives { reported result.alternatives ≡ earlier_site (if nat_lt alternative_limit extent.count then Some (site_of reserving.entry.site) else None) (reported past.entry.alternatives) }
    ensures cycles { reported result.cycles ≡ earlier_site (if nat_lt cycle_limit extent.longest then Some (site_of reserving.entry.site) else None) (reported past.entry.cycles) }
{
    let many = site_if(extent.count > ALTERNATIVE_LIMIT, reserving.site);
    let long = site_if(extent.longest > CYCLE_LIMIT, reserving.site);
    PastExtents {
        alternatives: earlier(many, past.alternatives),
        cycles: earlier(long, past.cycles),
    }
}

/// What is reported where items stand before those that were looked at.
fn past_among<'a, T: Reserves>(
    items: &'a [T],
    extents: &Extents,
    beyond: PastExtents<'a>,
) -> PastExtents<'a>
    requires { AreCountable (extent_in extents.now) (map T.reserves items.now) }
    ensures { TellsAfter (extent_in extents.now) (map T.reserves items.now) beyond.entry result }
{
    let mut past = beyond;
    for i in (0..items.len()).rev() {
        let reserving = items[i].reserving();
        past = past_before(reserving, extent(reserving.expr, extents), past);
    }
    past
}

/// The extents of all units.
fn unit_extents(alloc: Global, desc: &Description) -> Result<Extents, NoMemory>
    requires named { first_reported (faults_of_names (description desc.now)) ≡ None }
    requires formed { IsCheckable (description desc.now) }
    ensures { IfOk result (λ extents. Holds (HasExtent (description desc.now)) (Contains (unit_names (description desc.now))) (extent_in extents)) }
{
    let mut extents = Extents::new(alloc);
    for unit in desc.units.as_slice() {
        let once = Extent {
            count: 1,
            longest: 1,
        };
        extents.add(&unit.name, once)?;
    }
    Ok(extents)
}

/// Adds the extents of all reservations in an order where each comes after those that it names.
fn add_reservations(
    desc: &Description,
    order: &[usize],
    extents: &mut Extents,
) -> Result<(), NoMemory>
    requires named { first_reported (faults_of_names (description desc.now)) ≡ None }
    requires formed { IsCheckable (description desc.now) }
    requires order { IsOrder (description desc.now) order.now }
    requires units { Holds (HasExtent (description desc.now)) (Contains (unit_names (description desc.now))) (extent_in extents.old) }
    ensures { OnOk result (Holds (HasExtent (description desc.now)) (IsAfter (description desc.now) order.now) (extent_in extents.new)) }
{
    for i in 0..order.len() {
        let reserving = reserving_at(desc, order[i]);
        if reserving.is_class {
            continue;
        }
        extents.add(reserving.site.name, extent(reserving.expr, extents))?;
    }
    Ok(())
}

/// The earliest reservation or class of the file with more than `ALTERNATIVE_LIMIT` alternatives, and the earliest with one
/// of more than `CYCLE_LIMIT` cycles. The numbers of the order are places of reservations, and after them places of classes. Each expression is
/// counted, and no alternative is made. `NoMemory` where there was none. This profile, docs/RULES.md, 'Limits'.
pub fn past_extents<'a>(
    alloc: Global,
    desc: &'a Description,
    order: &[usize],
) -> Result<PastExtents<'a>, NoMemory>
    requires named { first_reported (faults_of_names (description desc.now)) ≡ None }
    requires formed { IsCheckable (description desc.now) }
    requires order { IsOrder (description desc.now) order.now }
    ensures { IfOk result (ArePast (description desc.now) (reservings (description desc.now) order.now)) }
{
    let mut extents = unit_extents(alloc, desc)?;
    add_reservations(desc, order, &mut extents)?;
    let none = PastExtents {
        alternatives: None,
        cycles: None,
    };
    let classes = past_among(&desc.classes, &extents, none);
    Ok(past_among(&desc.reservations, &extents, classes))
}
