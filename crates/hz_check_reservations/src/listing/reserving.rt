//! Reservations and classes, by numbers: the reservations first, then the classes.

ghost use Rattle.std.specs.Prelude.{◌≡◌, ◌<◌, length};
ghost use Rattle.hz_check_reservations.specs.Shape.{reserving_of};
ghost use Rattle.hz_mdread.specs.Shape.{class_item, description, reservation_item};
ghost use Rattle.hz_description_model.specs.Check.CountingOrder.{Reserving as model_reserving, reserving_class, reserving_reservation};
ghost use Rattle.hz_check_reservations.specs.Orders.{all_of, reserving};

use crate::Site;
use hz_mdread::{ClassItem, Description, ReservationItem};
use hz_regexp::Expr;

/// A reservation or a class.
#[derive(Clone, Copy, Debug)]
pub struct Reserving<'a> {
    pub site: Site<'a>,
    pub expr: &'a Expr,
    pub is_class: bool,
}

/// An item that reserves by an expression.
pub trait Reserves {
    ghost reserves: { Self → model_reserving };

    /// The item as a reservation or class.
    fn reserving(&self) -> Reserving<'_>
        ensures { reserving_of result ≡ reserves self.now };
}

impl Reserves for ReservationItem {
    ghost reserves = { λ item. reserving_reservation (reservation_item item) };

    fn reserving(&self) -> Reserving<'_> {
        let site = Site {
            line: self.line,
            form: self.form,
            name: &self.name,
        };
        Reserving {
            site,
            expr: &self.expr,
            is_class: false,
        }
    }
}

impl Reserves for ClassItem {
    ghost reserves = { λ item. reserving_class (class_item item) };

    fn reserving(&self) -> Reserving<'_> {
        let site = Site {
            line: self.line,
            form: self.form,
            name: &self.name,
        };
        Reserving {
            site,
            expr: &self.expr,
            is_class: true,
        }
    }
}

/// The reservation or class of a number.
pub fn reserving_at(desc: &Description, number: usize) -> Reserving<'_>
    requires { number < length (all_of (description desc.now)) }
    ensures { reserving_of result ≡ reserving (description desc.now) number }
{
    let count = desc.reservations.len();
    if number < count {
        desc.reservations[number].reserving()
    } else {
        desc.classes[number - count].reserving()
    }
}
