//! How many alternatives an expression has, and how long the longest is, with none of them made.

ghost use Rattle.std.specs.Prelude.{◌≡◌, ◌<◌, ℕ, List, Option, length, IsTrue};
ghost use Rattle.std.specs.Option.{option_map};
ghost use Rattle.hz_altern.specs.Extents.{reported};
ghost use Rattle.hz_altern.specs.Joinings.{joined_parts};
ghost use Rattle.hz_altern.specs.Tables.{extent_in, known_extent, is_held, AreRight, AreRightIn};
ghost use Rattle.hz_description_model.specs.Reservations.Alternatives.{Alternative, alternatives_of, parts_of};
ghost use Rattle.hz_description_model.specs.Reservations.AlternativeLists.{Extent as extent_reported, extent_of};
ghost use Rattle.hz_description_model.specs.Reservations.Automata.{UnitPlace};
ghost use Rattle.hz_description_model.specs.Reservations.Expressions.{is_expression, are_expressions};
ghost use Rattle.hz_description_model.specs.Reservations.NamesIn.{all_names, all_names_in};
ghost use Rattle.hz_regexp.specs.Shape.{expression, expressions};

use crate::extents::Extents;
use crate::extents::measure::Extent;
use crate::known::Known;
use crate::mark::Mark;
use hz_regexp::{Expr, Name};

/// Holds the extents of names.
pub trait Held {
    ghost held: { Self → List ℕ → Option extent_reported };

    /// The extent of a name, if it is held.
    fn extent(&self, name: &Name) -> Option<Extent>
        ensures { option_map reported result ≡ held self.now name.now };
}

impl Held for Extents {
    ghost held = { extent_in };

    fn extent(&self, name: &Name) -> Option<Extent> {
        self.find(name)
    }
}

impl Held for Known {
    ghost held = { known_extent };

    fn extent(&self, name: &Name) -> Option<Extent> {
        self.find(name).map(|entry| entry.extent)
    }
}

/// The extent of an expression's alternatives.
#[cycle(counting)]
pub fn measured<T: Held>(expr: &Expr, table: &T) -> Extent
    requires formed { IsTrue (is_expression (expression expr.now)) }
    requires held { IsTrue (all_names (is_held (T.held table.now)) (expression expr.now)) }
    ensures { (known : List ℕ → List (Alternative UnitPlace)) → AreRight (T.held table.now) known (expression expr.now) → reported result ≡ extent_of (alternatives_of known (expression expr.now)) }
{
    match expr {
        Expr::Named(name) => match table.extent(name) {
            Some(extent) => extent,
            None => unreachable!(),
        },
        Expr::Nothing => Extent {
            count: 1,
            longest: 1,
        },
        Expr::Seq(parts) => measured_parts(parts, Mark::Comma, table),
        Expr::Oneof(parts) => measured_parts(parts, Mark::Bar, table),
        Expr::Allof(parts) => measured_parts(parts, Mark::Plus, table),
        Expr::Repeat(part, times) => measured(part, table).repeated(*times),
    }
}

/// The extent of the alternatives of parts with a mark between them.
#[cycle(counting)]
fn measured_parts<T: Held>(parts: &[Expr], mark: Mark, table: &T) -> Extent
    requires some { 0 < length parts.now }
    requires formed { IsTrue (are_expressions (parts_of (expressions parts.now))) }
    requires held { IsTrue (all_names_in (is_held (T.held table.now)) (parts_of (expressions parts.now))) }
    ensures { (known : List ℕ → List (Alternative UnitPlace)) → AreRightIn (T.held table.now) known (parts_of (expressions parts.now)) → reported result ≡ extent_of (joined_parts mark known (parts_of (expressions parts.now))) }
{
    let middle = parts.len() / 2;
    if middle == 0 {
        return measured(&parts[0], table);
    }
    let (front, back) = parts.split_at(middle);
    measured_parts(front, mark, table).joined(mark, measured_parts(back, mark, table))
}

/// The number of the alternatives of a well-formed expression, and for how many cycles the longest runs: each number above
/// its limit is reported as the limit and one. Each name is held with the extent of its own alternatives. It takes no memory.
pub fn extent(expr: &Expr, known: &Extents) -> Extent
    requires formed { IsTrue (is_expression (expression expr.now)) }
    requires held { IsTrue (all_names (is_held (extent_in known.now)) (expression expr.now)) }
    ensures { (alternatives : List ℕ → List (Alternative UnitPlace)) → AreRight (extent_in known.now) alternatives (expression expr.now) → reported result ≡ extent_of (alternatives_of alternatives (expression expr.now)) }
{
    measured(expr, known)
}
