//! Units that name an automaton that is not defined.

ghost use Rattle.std.specs.Prelude.{◌≡◌, Contains, map};
ghost use Rattle.hz_mdread.specs.Shape.{description, unit_item};
ghost use Rattle.hz_check_reservations.specs.Places.{reported};
ghost use Rattle.hz_description_model.specs.Check.CheckFaults.{unknown_automata, unknown_automaton_of};
ghost use Rattle.hz_description_model.specs.Check.Sites.{earliest};

use crate::names::Names;
use crate::names::site::{Site, earlier};
use hz_mdread::UnitItem;

/// Where a unit names an automaton that is not defined.
fn unknown_automaton_of<'a>(names: &Names<'a>, unit: &'a UnitItem) -> Option<Site<'a>>
    requires { Contains (description names.now.desc.now).units (unit_item unit.now) }
    ensures { reported result ≡ unknown_automaton_of (map (λ a. a.name) (description names.now.desc.now).automata) (unit_item unit.now) }
{
    match &unit.automaton {
        Some(name) => {
            let site = Site {
                line: unit.line,
                form: unit.form,
                name,
            };
            names.automaton_place(unit).is_none().then_some(site)
        }
        None => None,
    }
}

/// Where some unit names an automaton that is not defined.
pub(crate) fn unknown_automaton<'a>(names: &Names<'a>) -> Option<Site<'a>>
    ensures { reported result ≡ earliest (unknown_automata (description names.now.desc.now)) }
{
    let desc = names.desc;
    let mut first = None;
    for unit in &desc.units {
        first = earlier(first, unknown_automaton_of(names, unit));
    }
    first
}
