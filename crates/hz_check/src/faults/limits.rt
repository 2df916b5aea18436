//! Limits of the numbers of automata and of classes.

ghost use Rattle.std.specs.Prelude.{◌≡◌, ◌≤◌, map, drop};
ghost use Rattle.std.specs.List.{AllPairs};
ghost use Rattle.hz_mdread.specs.Shape.{description};
ghost use Rattle.hz_check_reservations.specs.Places.{reported};
ghost use Rattle.hz_description_model.specs.Check.CheckFaults.{automaton_sites, class_sites};
ghost use Rattle.hz_base_model.specs.Limits as limits;
ghost use Rattle.hz_description_model.specs.Check.Sites.{earliest};

use crate::names::items::Defines;
use crate::names::site::Site;
use hz_mdread::Description;

/// How many automata a description may have.
pub(crate) const AUTOMATA: usize = 16;

/// How many classes a description may have.
pub(crate) const CLASSES: usize = 1024;

/// The first item past a limit, of items that stand in the order of their forms.
fn past<T: Defines>(items: &[T], limit: usize) -> Option<Site<'_>>
    requires { AllPairs (λ earlier later. earlier.form ≤ later.form) (map T.site items.now) }
    ensures { reported result ≡ earliest (drop limit (map T.site items.now)) }
{
    match items.get(limit) {
        Some(item) => Some(item.site()),
        None => None,
    }
}

/// The first automaton past the limit.
pub(crate) fn past_automaton(desc: &Description) -> Option<Site<'_>>
    requires { AllPairs (λ earlier later. earlier.form ≤ later.form) (description desc.now).automata }
    ensures { reported result ≡ earliest (drop limits.automaton_limit (automaton_sites (description desc.now))) }
{
    past(&desc.automata, AUTOMATA)
}

/// The first class past the limit.
pub(crate) fn past_class(desc: &Description) -> Option<Site<'_>>
    requires { AllPairs (λ earlier later. earlier.form ≤ later.form) (description desc.now).classes }
    ensures { reported result ≡ earliest (drop limits.class_limit (class_sites (description desc.now))) }
{
    past(&desc.classes, CLASSES)
}
