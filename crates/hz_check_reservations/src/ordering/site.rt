//! Names where they stand in a file.

ghost use Rattle.std.specs.Prelude.{◌≡◌};
ghost use Rattle.hz_description_model.specs.Check.Sites as model;
ghost use Rattle.hz_check_reservations.specs.Places.{reported};

use hz_regexp::Name;

/// A name in a form, by the line of the form, counted from 1, and the number of the form in the file, counted from 0.
#[derive(Clone, Copy, Debug)]
pub struct Site<'a> {
    pub line: u32,
    pub form: u32,
    pub name: &'a Name,
}

/// The site of the earlier form, the first one where both stand in one form, and the only one where one is `None`.
pub fn earlier<'a>(first: Option<Site<'a>>, second: Option<Site<'a>>) -> Option<Site<'a>>
    ensures { reported result ≡ model.earlier (reported first.entry) (reported second.entry) }
{
    match (first, second) {
        (Some(one), Some(other)) if other.form < one.form => second,
        (None, _) => second,
        _ => first,
    }
}
