//! Units that an exclusion excludes from themselves.

ghost use Rattle.std.specs.Prelude.{◌≡◌, IfOk, filter};
ghost use Rattle.std.specs.List.{flat_map};
ghost use Rattle.hz_mdread.specs.Shape.{description, set_item};
ghost use Rattle.hz_check.specs.Names.{IsJust};
ghost use Rattle.hz_check_reservations.specs.Places.{reported};
ghost use Rattle.hz_description_model.specs.Check.CheckFaults.{sites_of, units_of_patterns, self_excluded, self_exclusions};
ghost use Rattle.hz_description_model.specs.Check.Sites.{earliest, is_among};

use crate::names::by_name::ByName;
use crate::names::site::{Site, earlier, site_in};
use crate::names::tables::{add, first_held};
use hz_mdread::{Description, SetForm, SetItem};
use hz_regexp::{Name, NoMemory};
use std::alloc::Global;

/// The names in patterns.
fn names_in(alloc: Global, patterns: &[Vec<Name>]) -> Result<ByName<'_, ()>, NoMemory>
    ensures { IfOk result (λ table. IsJust table (flat_map (λ pattern. pattern.items) patterns.now)) }
{
    let mut table = ByName::new(alloc);
    for pattern in patterns {
        add(&mut table, pattern)?;
    }
    Ok(table)
}

/// Where a unit of the set is in a pattern too.
fn unit_in_patterns(alloc: Global, set: &SetItem) -> Result<Option<Site<'_>>, NoMemory>
    ensures { IfOk result (λ site. reported site ≡ earliest (sites_of set.now.line set.now.form (filter (λ name. is_among name (units_of_patterns (set_item set.now))) set.now.units.items))) }
{
    let others = names_in(alloc, &set.patterns)?;
    let unit = first_held(&others, &set.units);
    Ok(site_in(set.line, set.form, unit))
}

/// Where an exclusion excludes a unit from itself.
fn self_excluded(alloc: Global, set: &SetItem) -> Result<Option<Site<'_>>, NoMemory>
    ensures { IfOk result (λ site. reported site ≡ earliest (self_excluded (set_item set.now))) }
{
    match set.kind {
        SetForm::Exclusion => unit_in_patterns(alloc, set),
        _ => Ok(None),
    }
}

/// Where some exclusion excludes a unit from itself.
pub(crate) fn self_exclusion(
    alloc: Global,
    desc: &Description,
) -> Result<Option<Site<'_>>, NoMemory>
    ensures { IfOk result (λ site. reported site ≡ earliest (self_exclusions (description desc.now))) }
{
    let mut first = None;
    for set in &desc.sets {
        first = earlier(first, self_excluded(alloc, set)?);
    }
    Ok(first)
}
