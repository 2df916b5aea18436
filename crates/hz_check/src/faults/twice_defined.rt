//! Names that are defined twice.

ghost use Rattle.std.specs.Prelude.{◌≡◌, ◌||◌, IfOk, map};
ghost use Rattle.std.specs.List.{flat_map};
ghost use Rattle.hz_mdread.specs.Shape.{description, attribute_item};
ghost use Rattle.hz_check_reservations.specs.Places.{site_of, reported};
ghost use Rattle.hz_check.specs.Names.Held.{is_held};
ghost use Rattle.hz_check.specs.Faults.Twice.{is_given, repeated_by, unseen};
ghost use Rattle.hz_description_model.specs.Check.CheckFaults.{second_definitions, repeated_values};
ghost use Rattle.hz_description_model.specs.Check.Sites as model;
ghost use Rattle.hz_description_model.specs.Check.Sites.{earliest, is_preceded};

use crate::names::by_name::ByName;
use crate::names::items::Defines;
use crate::names::site::{Site, earlier};
use hz_mdread::{AttrItem, Description};
use hz_regexp::NoMemory;
use std::alloc::Global;

/// Whether a form before that of the site gives its name.
fn is_given<'a>(forms: &ByName<'a, u32>, site: Site<'a>) -> bool
    ensures { result ≡ is_given forms.now (site_of site.entry) }
{
    forms.find(site.name).is_some_and(|form| *form < site.form)
}

/// For each name the first form that gives it.
fn forms_of<T: Defines>(alloc: Global, items: &[T]) -> Result<ByName<'_, u32>, NoMemory>
    ensures { IfOk result (λ forms. (s : model.Site) → is_given forms s ≡ is_preceded (map T.site items.now) s) }
{
    let mut forms = ByName::new(alloc);
    for item in items {
        let site = item.site();
        if !is_given(&forms, site) {
            forms.put(site.name, site.form)?;
        }
    }
    Ok(forms)
}

/// Whether the name of the site was seen or is given.
fn is_again<'a>(seen: &ByName<'a, ()>, others: &ByName<'a, u32>, site: Site<'a>) -> bool
    ensures { result ≡ (is_held seen.now site.entry.name.now || is_given others.now (site_of site.entry)) }
{
    seen.holds(site.name) || is_given(others, site)
}

/// Where an item defines a name that one before it defines, or that an earlier form gives to one of the others.
fn second_site<'a, T: Defines>(
    alloc: Global,
    items: &'a [T],
    others: &ByName<'a, u32>,
) -> Result<Option<Site<'a>>, NoMemory>
    ensures { IfOk result (λ site. reported site ≡ earliest (repeated_by (is_given others.now) unseen (map T.site items.now))) }
{
    let mut first = None;
    let mut seen = ByName::new(alloc);
    for item in items {
        let site = item.site();
        let again = is_again(&seen, others, site);
        first = earlier(first, again.then_some(site));
        seen.put(site.name, ())?;
    }
    Ok(first)
}

/// Where an attribute has a value the second time.
fn second_value_of(alloc: Global, item: &AttrItem) -> Result<Option<Site<'_>>, NoMemory>
    ensures { IfOk result (λ site. reported site ≡ earliest (repeated_values (attribute_item item.now))) }
{
    let mut first = None;
    let mut seen = ByName::new(alloc);
    for name in &item.values {
        let site = Site {
            line: item.line,
            form: item.form,
            name,
        };
        let again = seen.holds(name);
        first = earlier(first, again.then_some(site));
        seen.put(name, ())?;
    }
    Ok(first)
}

/// Where some attribute has a value the second time.
fn second_value(alloc: Global, items: &[AttrItem]) -> Result<Option<Site<'_>>, NoMemory>
    ensures { IfOk result (λ site. reported site ≡ earliest (flat_map (λ a. repeated_values (attribute_item a)) items.now)) }
{
    let mut first = None;
    for item in items {
        first = earlier(first, second_value_of(alloc, item)?);
    }
    Ok(first)
}

/// Where a name is defined the second time in its name space, or a value in its attribute.
pub(crate) fn second_definition(
    alloc: Global,
    desc: &Description,
) -> Result<Option<Site<'_>>, NoMemory>
    ensures { IfOk result (λ site. reported site ≡ earliest (second_definitions (description desc.now))) }
{
    let none = ByName::new(alloc);
    let units = forms_of(alloc, &desc.units)?;
    let reservations = forms_of(alloc, &desc.reservations)?;
    let automaton = second_site(alloc, &desc.automata, &none)?;
    let unit = second_site(alloc, &desc.units, &reservations)?;
    let reservation = second_site(alloc, &desc.reservations, &units)?;
    let class = second_site(alloc, &desc.classes, &none)?;
    let attribute = second_site(alloc, &desc.attributes, &none)?;
    let value = second_value(alloc, &desc.attributes)?;
    let first = earlier(earlier(automaton, unit), reservation);
    Ok(earlier(earlier(earlier(first, class), attribute), value))
}
