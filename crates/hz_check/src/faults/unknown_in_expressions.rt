//! Names in expressions.

ghost use Rattle.std.specs.Prelude.{◌≡◌, filter, not};
ghost use Rattle.std.specs.Option.{option_copied};
ghost use Rattle.hz_mdread.specs.Shape.{description};
ghost use Rattle.hz_regexp.specs.Shape.{expression, expressions};
ghost use Rattle.hz_check.specs.Names.First.{first_of};
ghost use Rattle.hz_description_model.specs.Check.CheckFaults.{is_reservable, unknown_in_expression};
ghost use Rattle.hz_description_model.specs.Reservations.NamesIn.{names_in_parts};
ghost use Rattle.hz_description_model.specs.Reservations.Alternatives.{parts_of};

use crate::names::Names;
use hz_regexp::{Expr, Name};

/// The first name in an expression that is neither that of a unit nor that of a reservation.
#[cycle(expressions)]
pub(crate) fn unknown_in_expression<'a>(names: &Names<'a>, expr: &'a Expr) -> Option<&'a Name>
    ensures { option_copied result ≡ first_of (unknown_in_expression (description names.now.desc.now) (expression expr.now)) }
{
    match expr {
        Expr::Named(name) => {
            if names.is_reservable(name) {
                None
            } else {
                Some(name)
            }
        }
        Expr::Nothing => None,
        Expr::Seq(parts) => unknown_in_parts(names, parts),
        Expr::Oneof(parts) => unknown_in_parts(names, parts),
        Expr::Allof(parts) => unknown_in_parts(names, parts),
        Expr::Repeat(part, _) => unknown_in_expression(names, part),
    }
}

/// The first such name in parts.
#[cycle(expressions)]
fn unknown_in_parts<'a>(names: &Names<'a>, parts: &'a [Expr]) -> Option<&'a Name>
    ensures { option_copied result ≡ first_of (filter (λ name. not (is_reservable (description names.now.desc.now) name)) (names_in_parts (parts_of (expressions parts.now)))) }
{
    for part in parts {
        if let Some(name) = unknown_in_expression(names, part) {
            return Some(name);
        }
    }
    None
}
