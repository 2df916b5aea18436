//! Names that are not known where they stand.

ghost use Rattle.std.specs.Prelude.{◌≡◌, List, ℕ};
ghost use Rattle.std.specs.List.{flat_map};
ghost use Rattle.hz_mdread.specs.Shape.{description};
ghost use Rattle.hz_check_reservations.specs.Places.{reported};
ghost use Rattle.hz_description_model.specs.Check.CheckFaults as model;
ghost use Rattle.hz_description_model.specs.Check.CheckFaults.{unknown_names};
ghost use Rattle.hz_description_model.specs.Reading.Descriptions.{Description};
ghost use Rattle.hz_description_model.specs.Check.Sites as sites;
ghost use Rattle.hz_description_model.specs.Check.Sites.{earliest};

use crate::faults::unknown_in_items::Refers;
use crate::names::Names;
use crate::names::site::{Site, earlier};

/// Where an item names what is not known.
fn unknown_site<'a, T: Refers>(names: &Names<'a>, items: &'a [T]) -> Option<Site<'a>>
    ensures { reported result ≡ earliest (flat_map (T.unknown (description names.now.desc.now)) items.now) }
{
    let mut first = None;
    for item in items {
        first = earlier(first, item.unknown(names));
    }
    first
}

/// Where a name is not defined as the kind that is wanted there.
pub(crate) fn unknown_name<'a>(names: &Names<'a>) -> Option<Site<'a>>
    ensures { reported result ≡ earliest (unknown_names (description names.now.desc.now)) }
{
    let desc = names.desc;
    let reservation = unknown_site(names, &desc.reservations);
    let class = unknown_site(names, &desc.classes);
    let bypass = unknown_site(names, &desc.bypasses);
    let set = unknown_site(names, &desc.sets);
    let attribute = unknown_site(names, &desc.attributes);
    earlier(
        earlier(earlier(earlier(reservation, class), bypass), set),
        attribute,
    )
}
