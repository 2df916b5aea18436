//! Query units, where the option `ndfa` is given.

ghost use Rattle.std.specs.Prelude.{◌≡◌};
ghost use Rattle.hz_mdread.specs.Shape.{description};
ghost use Rattle.hz_check_reservations.specs.Places.{reported};
ghost use Rattle.hz_description_model.specs.Check.CheckFaults.{queries_under_ndfa};
ghost use Rattle.hz_description_model.specs.Check.Sites.{earliest};
ghost use Rattle.hz_description_model.specs.Reading.DescriptionShape.{IsCheckable};

use crate::names::items::Defines;
use crate::names::site::Site;
use hz_mdread::Description;

/// The first query unit, where the option `ndfa` is given.
pub(crate) fn query_under_ndfa(desc: &Description) -> Option<Site<'_>>
    requires { IsCheckable (description desc.now) }
    ensures { reported result ≡ earliest (queries_under_ndfa (description desc.now)) }
{
    if !desc.options.ndfa {
        return None;
    }
    for unit in &desc.units {
        if unit.query {
            return Some(unit.site());
        }
    }
    None
}
