//! Set statements on units by their places.

ghost use Rattle.std.specs.Prelude.{◌≡◌, ◌++◌, All, Contains, IfOk, IfSome, OnOk, map};
ghost use Rattle.std.specs.Option.{option_map, option_to_list};
ghost use Rattle.hz_mdread.specs.Shape.{description, set_item, set_kind};
ghost use Rattle.hz_check.specs.Parts.Assembly.{placed_statement, IsPlaced};
ghost use Rattle.hz_check.specs.Faults.PastUnits.{IsWithin};
ghost use Rattle.hz_check_reservations.specs.Shape.{place_of};
ghost use Rattle.hz_description_model.specs.Check.Places.{places_of, statement_of, unit_place, unit_places};
ghost use Rattle.hz_unitsets.specs.SetRules.{kind_of};

use crate::names::Names;
use hz_check_reservations::UnitPlace;
use hz_mdread::{SetForm, SetItem};
use hz_regexp::{Name, NoMemory};
use hz_unitsets::SetKind;
use std::alloc::Global;

/// A set statement on units by their places.
#[derive(Drop)]
pub struct PlacedSet {
    pub kind: SetKind,
    pub units: Vec<UnitPlace>,
    pub patterns: Vec<Vec<UnitPlace>>,
}

/// The kind of a statement by its form.
fn kind_of(form: SetForm) -> SetKind
    ensures { kind_of result ≡ set_kind form }
{
    match form {
        SetForm::Exclusion => SetKind::Exclusion,
        SetForm::Presence => SetKind::Presence,
        SetForm::FinalPresence => SetKind::FinalPresence,
        SetForm::Absence => SetKind::Absence,
        SetForm::FinalAbsence => SetKind::FinalAbsence,
    }
}

/// The place of the unit of this name.
fn place<'a>(names: &Names<'a>, places: &[UnitPlace], unit: &'a Name) -> Option<UnitPlace>
    requires { map place_of places.now ≡ unit_places (description names.now.desc.now) }
    ensures place { option_map place_of result ≡ unit_place (description names.now.desc.now) unit.now }
    ensures among { IfSome result (Contains places.now) }
{
    match names.units.find(unit) {
        Some(index) => match places.get(*index) {
            Some(place) => Some(*place),
            None => None,
        },
        None => None,
    }
}

/// Adds a place, if there is one.
fn add(found: &mut Vec<UnitPlace>, place: Option<UnitPlace>) -> Result<(), NoMemory>
    ensures { OnOk result (found.new.items ≡ found.old.items ++ option_to_list place) }
{
    if let Some(place) = place {
        found.push(place)?;
    }
    Ok(())
}

/// The places of the units of these names.
fn places_of<'a>(
    alloc: Global,
    names: &Names<'a>,
    places: &[UnitPlace],
    units: &'a [Name],
) -> Result<Vec<UnitPlace>, NoMemory>
    requires all { map place_of places.now ≡ unit_places (description names.now.desc.now) }
    requires each { All IsWithin places.now }
    ensures places { IfOk result (λ found. map place_of found.items ≡ places_of (description names.now.desc.now) units.now) }
    ensures within { IfOk result (λ found. All IsWithin found.items) }
{
    let mut found = Vec::new(alloc);
    for unit in units {
        add(&mut found, place(names, places, unit))?;
    }
    Ok(found)
}

/// The places of the units of these patterns.
fn patterns_of<'a>(
    alloc: Global,
    names: &Names<'a>,
    places: &[UnitPlace],
    patterns: &'a [Vec<Name>],
) -> Result<Vec<Vec<UnitPlace>>, NoMemory>
    requires all { map place_of places.now ≡ unit_places (description names.now.desc.now) }
    requires each { All IsWithin places.now }
    ensures places { IfOk result (λ found. map (λ p. map place_of p.items) found.items ≡ map (λ p. places_of (description names.now.desc.now) p.items) patterns.now) }
    ensures within { IfOk result (λ found. All (λ p. All IsWithin p.items) found.items) }
{
    let mut found = Vec::new(alloc);
    for pattern in patterns {
        let units = places_of(alloc, names, places, pattern)?;
        found.push(units)?;
    }
    Ok(found)
}

/// A set statement by the places of its units.
fn placed_set<'a>(
    alloc: Global,
    names: &Names<'a>,
    places: &[UnitPlace],
    set: &'a SetItem,
) -> Result<PlacedSet, NoMemory>
    requires all { map place_of places.now ≡ unit_places (description names.now.desc.now) }
    requires each { All IsWithin places.now }
    ensures statement { IfOk result (λ placed. placed_statement placed ≡ statement_of (description names.now.desc.now) (set_item set.now)) }
    ensures within { IfOk result IsPlaced }
{
    let kind = kind_of(set.kind);
    let units = places_of(alloc, names, places, &set.units)?;
    let patterns = patterns_of(alloc, names, places, &set.patterns)?;
    Ok(PlacedSet {
        kind,
        units,
        patterns,
    })
}

/// The set statements of the description.
pub(crate) fn placed_sets<'a>(
    alloc: Global,
    names: &Names<'a>,
    places: &[UnitPlace],
) -> Result<Vec<PlacedSet>, NoMemory>
    requires all { map place_of places.now ≡ unit_places (description names.now.desc.now) }
    requires each { All IsWithin places.now }
    ensures statements { IfOk result (λ sets. map placed_statement sets.items ≡ map (statement_of (description names.now.desc.now)) (description names.now.desc.now).sets) }
    ensures within { IfOk result (λ sets. All IsPlaced sets.items) }
{
    let desc = names.desc;
    let mut sets = Vec::new(alloc);
    for set in &desc.sets {
        let placed = placed_set(alloc, names, places, set)?;
        sets.push(placed)?;
    }
    Ok(sets)
}
