//! Names that are reserved.

ghost use Rattle.std.specs.Prelude.{◌≡◌, map, filter, codes};
ghost use Rattle.std.specs.Str.{bytes_eq};
ghost use Rattle.hz_mdread.specs.Shape.{description};
ghost use Rattle.hz_check_reservations.specs.Places.{reported};
ghost use Rattle.hz_description_model.specs.Check.CheckFaults.{reserved_names};
ghost use Rattle.hz_description_model.specs.Check.Sites.{earliest};

use crate::names::items::Defines;
use crate::names::site::{Site, earlier};
use hz_mdread::Description;

/// Where an item is called `nothing`.
fn reserved_site<T: Defines>(items: &[T]) -> Option<Site<'_>>
    ensures { reported result ≡ earliest (filter (λ s. bytes_eq s.name (codes "nothing")) (map T.site items.now)) }
{
    let mut first = None;
    for item in items {
        let site = item.site();
        if site.name.bytes() == b"nothing".as_slice() {
            first = earlier(first, Some(site));
        }
    }
    first
}

/// Where a unit or a reservation is called `nothing`.
pub(crate) fn reserved_name(desc: &Description) -> Option<Site<'_>>
    ensures { reported result ≡ earliest (reserved_names (description desc.now)) }
{
    earlier(
        reserved_site(&desc.units),
        reserved_site(&desc.reservations),
    )
}
