//! Items that name what others define.

ghost use Rattle.std.specs.Prelude.{◌≡◌, ◌++◌, ◌∷◌, [], List, ℕ, filter, not};
ghost use Rattle.std.specs.List.{flat_map};
ghost use Rattle.std.specs.Option.{option_copied};
ghost use Rattle.hz_check.specs.Names.First.{first_of};
ghost use Rattle.hz_mdread.specs.Shape.{description, condition, bypass_item, set_item};
ghost use Rattle.hz_regexp.specs.Shape.{expression};
ghost use Rattle.hz_check_reservations.specs.Places.{reported};
ghost use Rattle.hz_description_model.specs.Check.CheckFaults.{sites_of, is_unit, is_class, unknown_in_expression, unknown_in_condition, names_of_bypass, names_of_set};
ghost use Rattle.hz_description_model.specs.Reading.Descriptions.{Description};
ghost use Rattle.hz_description_model.specs.Check.Sites as sites;
ghost use Rattle.hz_description_model.specs.Check.Sites.{earliest, is_among};

use crate::faults::unknown_in_conditions::unknown_in_condition;
use crate::faults::unknown_in_expressions::unknown_in_expression;
use crate::names::Names;
use crate::names::site::{Site, site_in};
use hz_mdread::{AttrItem, BypassItem, ClassItem, ReservationItem, SetItem};
use hz_regexp::Name;

/// An item that names what others define.
pub(crate) trait Refers {
    ghost unknown: { Description → Self → List sites.Site };

    /// The first name that is not known.
    fn unknown<'a>(&'a self, names: &Names<'a>) -> Option<Site<'a>>
        ensures { reported result ≡ earliest (unknown (description names.now.desc.now) self.now) };
}

impl Refers for ReservationItem {
    ghost unknown = { λ d r. sites_of r.line r.form (unknown_in_expression d (expression r.expr)) };

    fn unknown<'a>(&'a self, names: &Names<'a>) -> Option<Site<'a>> {
        site_in(
            self.line,
            self.form,
            unknown_in_expression(names, &self.expr),
        )
    }
}

impl Refers for ClassItem {
    ghost unknown = { λ d c. sites_of c.line c.form (unknown_in_condition d (condition c.condition) ++ unknown_in_expression d (expression c.expr)) };

    fn unknown<'a>(&'a self, names: &Names<'a>) -> Option<Site<'a>> {
        let name = unknown_in_condition(names, &self.condition).or(unknown_in_expression(
            names, &self.expr,
        ));
        site_in(self.line, self.form, name)
    }
}

impl Refers for BypassItem {
    ghost unknown = { λ d b. sites_of b.line b.form (filter (λ name. not (is_class d name)) (names_of_bypass (bypass_item b))) };

    fn unknown<'a>(&'a self, names: &Names<'a>) -> Option<Site<'a>> {
        let name = names
            .unknown_class(&self.outs)
            .or(names.unknown_class(&self.ins));
        site_in(self.line, self.form, name)
    }
}

/// The first name in patterns that is not that of a unit.
fn unknown_in_patterns<'a>(names: &Names<'a>, patterns: &'a [Vec<Name>]) -> Option<&'a Name>
    ensures { option_copied result ≡ first_of (filter (λ name. not (is_unit (description names.now.desc.now) name)) (flat_map (λ pattern. pattern.items) patterns.now)) }
{
    for pattern in patterns {
        if let Some(name) = names.unknown_unit(pattern) {
            return Some(name);
        }
    }
    None
}

impl Refers for SetItem {
    ghost unknown = { λ d s. sites_of s.line s.form (filter (λ name. not (is_unit d name)) (names_of_set (set_item s))) };

    fn unknown<'a>(&'a self, names: &Names<'a>) -> Option<Site<'a>> {
        let name = names
            .unknown_unit(&self.units)
            .or(unknown_in_patterns(names, &self.patterns));
        site_in(self.line, self.form, name)
    }
}

impl Refers for AttrItem {
    ghost unknown = { λ d a. sites_of a.line a.form (filter (λ name. not (is_among name a.values.items)) (a.fallback ∷ [])) };

    fn unknown<'a>(&'a self, _names: &Names<'a>) -> Option<Site<'a>> {
        let is_unknown = !self.values.contains(&self.fallback);
        let name = is_unknown.then_some(&self.fallback);
        site_in(self.line, self.form, name)
    }
}
