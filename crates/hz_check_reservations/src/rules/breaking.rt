//! The first classes that break the two rules.

ghost use Rattle.std.specs.Prelude.{◌≡◌, ◌&&◌, IfOk, OnOk, map, Some, None, if◌then◌else◌};
ghost use Rattle.std.specs.List.{Contains};
ghost use Rattle.hz_description_model.specs.Check.CheckFaults.{faults_of_names};
ghost use Rattle.hz_description_model.specs.Check.CountingOrder.{reserving_class};
ghost use Rattle.hz_description_model.specs.Check.FirstReported.{first_reported};
ghost use Rattle.hz_description_model.specs.Check.Places.{unit_places};
ghost use Rattle.hz_description_model.specs.Check.Sites.{earlier as earlier_site};
ghost use Rattle.hz_check_reservations.specs.Past.{AreWithinExtents};
ghost use Rattle.hz_check_reservations.specs.Shape.{place_of};
ghost use Rattle.hz_check_reservations.specs.Tables.{Holds, IsAfter, unit_names};
ghost use Rattle.hz_mdread.specs.Shape.{class_item, description};
ghost use Rattle.hz_description_model.specs.Reading.DescriptionShape.{IsCheckable};
ghost use Rattle.hz_check_reservations.specs.Broken.{AreBroken};
ghost use Rattle.hz_check_reservations.specs.Spreads.{are_several};
ghost use Rattle.hz_check_reservations.specs.HabitTables.{HasHabits, habits_in};
ghost use Rattle.hz_check_reservations.specs.Orders.{IsOrder, reservings};
ghost use Rattle.hz_check_reservations.specs.Places.{site_of, reported};

use crate::rules::habits::Habits;
use crate::rules::measuring::habits_of;
use crate::rules::table::Table;
use crate::{Site, UnitPlace, earlier};
use hz_mdread::{ClassItem, Description};
use hz_regexp::NoMemory;
use std::alloc::Global;

/// The earliest class of the file that breaks each of the two rules on classes with units of several automata.
#[derive(Clone, Copy, Debug)]
pub struct BrokenRules<'a> {
    /// An alternation in it, names replaced, holds units of two automata.
    pub mixed: Option<Site<'a>>,
    /// It has units of two automata, and in it, names replaced, a part before a comma or in a repeat has two lengths.
    pub uneven: Option<Site<'a>>,
}

/// The habits of all units, which have these places.
fn unit_habits(alloc: Global, desc: &Description, units: &[UnitPlace]) -> Result<Table, NoMemory>
    requires named { first_reported (faults_of_names (description desc.now)) ≡ None }
    requires formed { IsCheckable (description desc.now) }
    requires places { map place_of units.now ≡ unit_places (description desc.now) }
    ensures { IfOk result (λ table. Holds (HasHabits (description desc.now)) (Contains (unit_names (description desc.now))) (habits_in table)) }
{
    let mut table = Table::new(alloc);
    for i in 0..units.len() {
        table.add(&desc.units[i].name, Habits::of_unit(units[i].automaton))?;
    }
    Ok(table)
}

/// Keeps the habits of all reservations, in an order where each comes after those that it names.
fn add_reservations(desc: &Description, order: &[usize], table: &mut Table) -> Result<(), NoMemory>
    requires named { first_reported (faults_of_names (description desc.now)) ≡ None }
    requires formed { IsCheckable (description desc.now) }
    requires order { IsOrder (description desc.now) order.now }
    requires units { Holds (HasHabits (description desc.now)) (Contains (unit_names (description desc.now))) (habits_in table.old) }
    ensures { OnOk result (Holds (HasHabits (description desc.now)) (IsAfter (description desc.now) order.now) (habits_in table.new)) }
{
    for i in 0..order.len() {
        let number = order[i];
        if number >= desc.reservations.len() {
            continue;
        }
        let item = &desc.reservations[number];
        table.add(&item.name, habits_of(&item.expr, table))?;
    }
    Ok(())
}

/// The site, where the test is passed.
fn site_if(test: bool, site: Site<'_>) -> Option<Site<'_>>
    ensures { reported result ≡ (if test then Some (site_of site.entry) else None) }
{
    if test { Some(site) } else { None }
}

/// What is reported where a class of these habits stands before those that were looked at.
fn broken_before<'a>(
    class: &'a ClassItem,
    habits: Habits,
    broken: BrokenRules<'a>,
) -> BrokenRules<'a>
    ensures mixed { reported result.mixed ≡ earlier_site (if habits.mixed then Some (reserving_class (class_item class.now)).site else None) (reported broken.entry.mixed) }
    ensures uneven { reported result.uneven ≡ earlier_site (if are_several habits.spread && habits.uneven then Some (reserving_class (class_item class.now)).site else None) (reported broken.entry.uneven) }
{
    let site = Site {
        line: class.line,
        form: class.form,
        name: &class.name,
    };
    let mixed = site_if(habits.mixed, site);
    let uneven = site_if(habits.spread.is_several() && habits.uneven, site);
    BrokenRules {
        mixed: earlier(mixed, broken.mixed),
        uneven: earlier(uneven, broken.uneven),
    }
}

/// The earliest class of the file that breaks each of the two rules. The units have these places, the numbers of the order
/// are places of reservations, and after them places of classes, and the limits of alternatives and cycles are kept.
/// `NoMemory` where there was none. This profile, docs/RULES.md, 'Automata and lists'.
pub fn broken_rules<'a>(
    alloc: Global,
    desc: &'a Description,
    units: &[UnitPlace],
    order: &[usize],
) -> Result<BrokenRules<'a>, NoMemory>
    requires named { first_reported (faults_of_names (description desc.now)) ≡ None }
    requires formed { IsCheckable (description desc.now) }
    requires places { map place_of units.now ≡ unit_places (description desc.now) }
    requires order { IsOrder (description desc.now) order.now }
    requires extents { AreWithinExtents (description desc.now) (reservings (description desc.now) order.now) }
    ensures { IfOk result (AreBroken (description desc.now)) }
{
    let mut table = unit_habits(alloc, desc, units)?;
    add_reservations(desc, order, &mut table)?;
    let mut broken = BrokenRules {
        mixed: None,
        uneven: None,
    };
    for i in (0..desc.classes.len()).rev() {
        let class = &desc.classes[i];
        broken = broken_before(class, habits_of(&class.expr, &table), broken);
    }
    Ok(broken)
}
