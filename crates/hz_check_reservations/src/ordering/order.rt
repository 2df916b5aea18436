//! The order in which the reservations and classes of a description count.

ghost use Rattle.std.specs.Prelude.{◌≡◌, ◌+◌, ◌<◌, ◌^◌, IfErr, IfOk, None, OnOk, vec_len};
ghost use Rattle.hz_mdread.specs.Shape.{description as description_of};
ghost use Rattle.hz_description_model.specs.Check.CheckFaults.{faults_of_names};
ghost use Rattle.hz_description_model.specs.Check.FirstReported.{first_reported};
ghost use Rattle.hz_description_model.specs.Reading.DescriptionShape.{IsCheckable};
ghost use Rattle.hz_description_model.specs.Check.Places.{meaning};
ghost use Rattle.hz_description_model.specs.Reservations.Meanings.{Unwinds};
ghost use Rattle.hz_check_reservations.specs.Faults.{TellsCircle};
ghost use Rattle.hz_check_reservations.specs.Orders.{IsOrder};

use crate::ordering::circle::first_around;
use crate::ordering::fault::OrderFault;
use crate::ordering::graph::graph;
use crate::ordering::walk::walk_from;
use hz_mdread::Description;
use std::alloc::Global;

/// The reservations and classes of a description in the order in which they count: directly before each come the
/// reservations that it names and that have not come before, from left to right, and so before each of these.
#[derive(Debug, Drop)]
pub struct Order {
    /// Their numbers: the place of a reservation among the reservations, and of a class its place among the classes after
    /// all reservations.
    pub numbers: Vec<usize>,
}

/// The counting order of a description whose names are right, or the first reservation of the file that reaches itself,
/// or `NoMemory`. This profile, docs/RULES.md, 'Faults of a description'.
pub fn counting_order(alloc: Global, description: &Description) -> Result<Order, OrderFault>
    requires named { first_reported (faults_of_names (description_of description.now)) ≡ None }
    requires formed { IsCheckable (description_of description.now) }
    ensures ok { IfOk result (λ order. IsOrder (description_of description.now) order.numbers.items) }
    ensures unwinds { OnOk result (Unwinds (meaning (description_of description.now))) }
    ensures err { IfErr result (TellsCircle (description_of description.now)) }
{
    order_of(alloc, description)
}

/// The same of any description: what it says holds where the names are right.
pub(crate) fn order_of(alloc: Global, description: &Description) -> Result<Order, OrderFault>
    ensures ok { first_reported (faults_of_names (description_of description.now)) ≡ None → IsCheckable (description_of description.now) → IfOk result (λ order. IsOrder (description_of description.now) order.numbers.items) }
    ensures unwinds { first_reported (faults_of_names (description_of description.now)) ≡ None → IsCheckable (description_of description.now) → OnOk result (Unwinds (meaning (description_of description.now))) }
    ensures err { first_reported (faults_of_names (description_of description.now)) ≡ None → IsCheckable (description_of description.now) → IfErr result (TellsCircle (description_of description.now)) }
{
    let lists = graph(alloc, description)?;
    let edges = lists.as_slice();
    let count = description.reservations.len();
    let walk = walk_from(alloc, edges, edges.len() - 1)?;
    if walk.circular {
        return match first_around(alloc, edges, walk.order.as_slice(), count)? {
            Some(place) => Err(OrderFault::Circular(place)),
            None => unreachable!(),
        };
    }
    let mut numbers = walk.order;
    numbers.pop();
    Ok(Order { numbers })
}
