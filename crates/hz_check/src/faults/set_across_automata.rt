//! Sets with units of two automata.

ghost use Rattle.std.specs.Prelude.{◌≡◌, filter, not};
ghost use Rattle.std.specs.List.{flat_map};
ghost use Rattle.std.specs.Option.{option_copied};
ghost use Rattle.hz_mdread.specs.Shape.{description, set_item};
ghost use Rattle.hz_check_reservations.specs.Places.{reported};
ghost use Rattle.hz_check.specs.Names.First.{first_of};
ghost use Rattle.hz_description_model.specs.Check.CheckFaults.{sites_of, home, same_home, strangers, names_of_set, sets_across_automata};
ghost use Rattle.hz_description_model.specs.Check.Sites.{earliest};

use crate::names::Names;
use crate::names::site::{Site, earlier, site_in};
use hz_mdread::SetItem;
use hz_regexp::Name;

/// The first unit with another automaton than this.
fn stranger<'a>(names: &Names<'a>, automaton: Option<usize>, units: &'a [Name]) -> Option<&'a Name>
    ensures { option_copied result ≡ first_of (filter (λ name. not (same_home (home (description names.now.desc.now) name) automaton)) units.now) }
{
    for unit in units {
        if names.home(unit) != automaton {
            return Some(unit);
        }
    }
    None
}

/// The first unit in patterns with another automaton than this.
fn stranger_in<'a>(
    names: &Names<'a>,
    automaton: Option<usize>,
    patterns: &'a [Vec<Name>],
) -> Option<&'a Name>
    ensures { option_copied result ≡ first_of (filter (λ name. not (same_home (home (description names.now.desc.now) name) automaton)) (flat_map (λ pattern. pattern.items) patterns.now)) }
{
    for pattern in patterns {
        if let Some(unit) = stranger(names, automaton, pattern) {
            return Some(unit);
        }
    }
    None
}

/// The first unit in patterns.
fn first_in(patterns: &[Vec<Name>]) -> Option<&Name>
    ensures { option_copied result ≡ first_of (flat_map (λ pattern. pattern.items) patterns.now) }
{
    for pattern in patterns {
        if let Some(unit) = pattern.first() {
            return Some(unit);
        }
    }
    None
}

/// The first unit of a set.
fn first_unit(set: &SetItem) -> Option<&Name>
    ensures { option_copied result ≡ first_of (names_of_set (set_item set.now)) }
{
    set.units.first().or(first_in(&set.patterns))
}

/// Where a unit of the set has another automaton than its first unit.
fn stranger_of<'a>(names: &Names<'a>, set: &'a SetItem) -> Option<Site<'a>>
    ensures { reported result ≡ earliest (sites_of set.now.line set.now.form (strangers (description names.now.desc.now) (names_of_set (set_item set.now)))) }
{
    let automaton = names.home(first_unit(set)?);
    let unit = stranger(names, automaton, &set.units).or(stranger_in(
        names,
        automaton,
        &set.patterns,
    ));
    site_in(set.line, set.form, unit)
}

/// Where some set has units of two automata.
pub(crate) fn set_across_automata<'a>(names: &Names<'a>) -> Option<Site<'a>>
    ensures { reported result ≡ earliest (sets_across_automata (description names.now.desc.now)) }
{
    let desc = names.desc;
    let mut first = None;
    for set in &desc.sets {
        first = earlier(first, stranger_of(names, set));
    }
    first
}
