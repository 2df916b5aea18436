//! The steps of the check before any alternative is looked at, each with the faults that it tells.

ghost use Rattle.std.specs.Prelude.{◌≡◌, IfOk, IfErr, None};
ghost use Rattle.std.specs.List.{AllPairs};
ghost use Rattle.hz_mdread.specs.Shape.{description};
ghost use Rattle.hz_check.specs.Faults.Steps.{IsOrdered, AreWithin};
ghost use Rattle.hz_check.specs.Faults.{Tells, IsReportedAt, IsOrderOrCircle};
ghost use Rattle.hz_check.specs.Faults.PastUnits.{ArePlaces};
ghost use Rattle.hz_description_model.specs.Check.CheckFaults.{faults_of_names};
ghost use Rattle.hz_description_model.specs.Check.FirstReported.{first_reported};
ghost use Rattle.hz_description_model.specs.Reading.DescriptionShape.{IsCheckable, SharesAutomaton};

use crate::fault::{CheckFault, LimitName};
use crate::faults::limits::{past_automaton, past_class};
use crate::faults::of_names::fault_of_names;
use crate::faults::past_units::{past_unit, unit_places};
use crate::faults::reported::{Wrong, fault, refused};
use crate::faults::self_exclusion::self_exclusion;
use crate::faults::set_across_automata::set_across_automata;
use crate::names::Names;
use crate::names::items::Defines;
use hz_check_reservations::{Order, OrderFault, UnitPlace, counting_order};
use hz_mdread::Description;
use hz_regexp::NoMemory;
use std::alloc::Global;

/// The names of a description, where no fault of names stands.
pub(crate) fn named<'a>(alloc: Global, desc: &'a Description) -> Result<Names<'a>, CheckFault>
    requires { AllPairs SharesAutomaton (description desc.now).units }
    ensures names { IfOk result (λ names. names.desc.now ≡ desc.now) }
    ensures free { IfOk result (λ _. first_reported (faults_of_names (description desc.now)) ≡ None) }
    ensures err { IfErr result (Tells (IsReportedAt (description desc.now))) }
{
    let names = Names::of(alloc, desc)?;
    match fault_of_names(alloc, &names)? {
        Some(reported) => Err(fault(reported)),
        None => Ok(names),
    }
}

/// The counting order, or the place of the reservation that reaches itself; want of memory stays what it is.
fn order_or_circle(counted: Result<Order, OrderFault>) -> Result<Result<Order, usize>, NoMemory>
    ensures { IsOrderOrCircle counted result }
{
    match counted {
        Ok(order) => Ok(Ok(order)),
        Err(OrderFault::Circular(place)) => Ok(Err(place)),
        Err(OrderFault::NoMemory) => Err(NoMemory),
    }
}

/// The counting order, where no reservation reaches itself.
pub(crate) fn ordered(alloc: Global, desc: &Description) -> Result<Order, CheckFault>
    requires named { first_reported (faults_of_names (description desc.now)) ≡ None }
    requires formed { IsCheckable (description desc.now) }
    ensures order { IfOk result (λ order. IsOrdered (description desc.now) order.numbers.items) }
    ensures err { IfErr result (Tells (IsReportedAt (description desc.now))) }
{
    match order_or_circle(counting_order(alloc, desc))? {
        Ok(order) => Ok(order),
        Err(place) => {
            let reservation = &desc.reservations[place];
            Err(refused(Wrong::CircularReservation, reservation.site()))
        }
    }
}

/// The places of the units, where the sets are right and there are not too many automata, units and classes. The counting
/// order shows that no reservation reaches itself; nothing else is asked of it.
pub(crate) fn placed(
    alloc: Global,
    names: &Names<'_>,
    order: &[usize],
) -> Result<Vec<UnitPlace>, CheckFault>
    requires { IsOrdered (description names.now.desc.now) order.now }
    ensures places { IfOk result (λ places. ArePlaces (description names.now.desc.now) places.items) }
    ensures within { IfOk result (λ _. AreWithin (description names.now.desc.now)) }
    ensures err { IfErr result (Tells (IsReportedAt (description names.now.desc.now))) }
{
    let _ = order;
    if let Some(site) = self_exclusion(alloc, names.desc)? {
        return Err(refused(Wrong::SelfExclusion, site));
    }
    if let Some(site) = set_across_automata(names) {
        return Err(refused(Wrong::SetAcrossAutomata, site));
    }
    if let Some(site) = past_automaton(names.desc) {
        let what = LimitName::Automata;
        return Err(refused(Wrong::Limit(what), site));
    }
    if let Some(site) = past_unit(names) {
        let what = LimitName::Units;
        return Err(refused(Wrong::Limit(what), site));
    }
    if let Some(site) = past_class(names.desc) {
        let what = LimitName::Classes;
        return Err(refused(Wrong::Limit(what), site));
    }
    Ok(unit_places(alloc, names)?)
}
