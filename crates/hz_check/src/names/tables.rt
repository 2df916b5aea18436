//! Tables of the names of lists.

ghost use Rattle.std.specs.Prelude.{◌≡◌, ℕ, List, ◌||◌, IfOk, OnOk, map, filter, not};
ghost use Rattle.std.specs.List.{list_any};
ghost use Rattle.std.specs.Str.{bytes_eq};
ghost use Rattle.std.specs.Option.{option_copied};
ghost use Rattle.hz_mdread.specs.Shape.{attribute_item};
ghost use Rattle.hz_check.specs.Names.Held.{held, is_held};
ghost use Rattle.hz_check.specs.Names.{HoldsPlaces, IsJust, test_by, test_of};
ghost use Rattle.hz_check.specs.Names.First.{first_of};
ghost use Rattle.hz_description_model.specs.Check.CheckFaults as model;

use crate::names::by_name::ByName;
use crate::names::items::Defines;
use hz_mdread::AttrItem;
use hz_regexp::{Name, NoMemory};
use std::alloc::Global;

/// The first place of each name that the items define.
pub(crate) fn places_of<T: Defines>(
    alloc: Global,
    items: &[T],
) -> Result<ByName<'_, usize>, NoMemory>
    ensures { IfOk result (λ table. HoldsPlaces table (map (λ i. (T.site i).name) items.now)) }
{
    let mut table = ByName::new(alloc);
    for (place, item) in items.iter().enumerate() {
        let name = item.site().name;
        if !table.holds(name) {
            table.put(name, place)?;
        }
    }
    Ok(table)
}

/// Adds the names.
pub(crate) fn add<'a>(table: &mut ByName<'a, ()>, names: &'a [Name]) -> Result<(), NoMemory>
    ensures { OnOk result ((name : List ℕ) → is_held table.new name ≡ (is_held table.old name || list_any (bytes_eq name) names.now)) }
{
    for name in names {
        table.put(name, ())?;
    }
    Ok(())
}

/// These names.
fn just(alloc: Global, names: &[Name]) -> Result<ByName<'_, ()>, NoMemory>
    ensures { IfOk result (λ table. IsJust table names.now) }
{
    let mut table = ByName::new(alloc);
    add(&mut table, names)?;
    Ok(table)
}

/// For each attribute its values.
pub(crate) fn values_of(
    alloc: Global,
    items: &[AttrItem],
) -> Result<ByName<'_, ByName<'_, ()>>, NoMemory>
    ensures { IfOk result (λ table. (name : List ℕ) → test_by (held table name) ≡ test_of (model.values_of (map attribute_item items.now) name)) }
{
    let mut table = ByName::new(alloc);
    for item in items {
        if !table.holds(&item.name) {
            let values = just(alloc, &item.values)?;
            table.put(&item.name, values)?;
        }
    }
    Ok(table)
}

/// The first of the names for which nothing is held.
pub(crate) fn first_missing<'a, V: Drop>(
    table: &ByName<'a, V>,
    names: &'a [Name],
) -> Option<&'a Name>
    ensures { option_copied result ≡ first_of (filter (λ name. not (is_held table.now name)) names.now) }
{
    for name in names {
        if !table.holds(name) {
            return Some(name);
        }
    }
    None
}

/// The first of the names for which something is held.
pub(crate) fn first_held<'a, V: Drop>(table: &ByName<'a, V>, names: &'a [Name]) -> Option<&'a Name>
    ensures { option_copied result ≡ first_of (filter (is_held table.now) names.now) }
{
    for name in names {
        if table.holds(name) {
            return Some(name);
        }
    }
    None
}
