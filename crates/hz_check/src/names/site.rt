//! Names where they stand in a file.

ghost use Rattle.std.specs.Prelude.{◌≡◌, List, ℕ};
ghost use Rattle.std.specs.Option.{option_copied};
ghost use Rattle.hz_check.specs.Names.First.{first_of};
ghost use Rattle.hz_description_model.specs.Check.CheckFaults.{sites_of};
ghost use Rattle.hz_check_reservations.specs.Places.{reported};
ghost use Rattle.hz_description_model.specs.Check.Sites as model;

pub(crate) use hz_check_reservations::{Site, earlier};
use hz_regexp::Name;

/// The site of a name in a form, if there is one.
pub(crate) fn site_in<'a>(line: u32, form: u32, name: Option<&'a Name>) -> Option<Site<'a>>
    ensures { (names : List (List ℕ)) → option_copied name.entry ≡ first_of names → reported result ≡ model.earliest (sites_of line form names) }
{
    match name {
        Some(name) => Some(Site { line, form, name }),
        None => None,
    }
}
