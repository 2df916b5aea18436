//! Items that define a name.

ghost use Rattle.std.specs.Prelude.{◌≡◌};
ghost use Rattle.hz_check_reservations.specs.Places.{site_of};
ghost use Rattle.hz_description_model.specs.Check.Sites as model;

use crate::names::site::Site;
use hz_mdread::{AttrItem, AutomatonItem, ClassItem, ReservationItem, UnitItem};

/// An item of a description that defines a name.
pub(crate) trait Defines {
    ghost site: { Self → model.Site };

    /// The name where it is defined.
    fn site(&self) -> Site<'_>
        ensures { site_of result ≡ site self.now };
}

impl Defines for AutomatonItem {
    ghost site = { λ i. record { line = i.line; form = i.form; name = i.name } };

    fn site(&self) -> Site<'_> {
        Site {
            line: self.line,
            form: self.form,
            name: &self.name,
        }
    }
}

impl Defines for UnitItem {
    ghost site = { λ i. record { line = i.line; form = i.form; name = i.name } };

    fn site(&self) -> Site<'_> {
        Site {
            line: self.line,
            form: self.form,
            name: &self.name,
        }
    }
}

impl Defines for ReservationItem {
    ghost site = { λ i. record { line = i.line; form = i.form; name = i.name } };

    fn site(&self) -> Site<'_> {
        Site {
            line: self.line,
            form: self.form,
            name: &self.name,
        }
    }
}

impl Defines for ClassItem {
    ghost site = { λ i. record { line = i.line; form = i.form; name = i.name } };

    fn site(&self) -> Site<'_> {
        Site {
            line: self.line,
            form: self.form,
            name: &self.name,
        }
    }
}

impl Defines for AttrItem {
    ghost site = { λ i. record { line = i.line; form = i.form; name = i.name } };

    fn site(&self) -> Site<'_> {
        Site {
            line: self.line,
            form: self.form,
            name: &self.name,
        }
    }
}
