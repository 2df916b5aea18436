//! The graph of a description: for each reservation and each class the reservations that it names.

ghost use Rattle.std.specs.Prelude.{◌≡◌, ◌+◌, ◌<◌, ◌^◌, ◌++◌, IfOk, OnOk, length, map, slice_get, vec_len};
ghost use Rattle.std.specs.List.{filter_map};
ghost use Rattle.hz_mdread.specs.Shape.{description as description_of};
ghost use Rattle.hz_description_model.specs.Reservations.NamesIn.{names_in};
ghost use Rattle.hz_regexp.specs.Shape.{expression};
ghost use Rattle.hz_check_reservations.specs.Graphs.{ends_in};
ghost use Rattle.hz_check_reservations.specs.Numbers.{number_in};
ghost use Rattle.hz_check_reservations.specs.Orders.{comes_first, IsGraph, Numbered, class_reservings_of, reservings_of};
ghost use Rattle.hz_check_reservations.specs.Walks.{lists_of};

use crate::ordering::numbers::Numbers;
use hz_mdread::{ClassItem, Description, ReservationItem};
use hz_regexp::NoMemory;
use std::alloc::Global;

/// The ends of a node's edges.
pub fn ends_of(edges: &[Vec<usize>], node: usize) -> &[usize]
    requires { node < length edges.now }
    ensures { result.now ≡ ends_in (lists_of edges.now) node }
{
    edges[node].as_slice()
}

/// Whether the next in the order of the file is the reservation, where these are the next reservation and the next class.
fn comes_first(reservations: &[ReservationItem], i: usize, classes: &[ClassItem], j: usize) -> bool
    ensures { result ≡ comes_first (slice_get reservations.now i) (slice_get classes.now j) }
{
    match (reservations.get(i), classes.get(j)) {
        (Some(reservation), Some(class)) => reservation.form < class.form,
        (Some(_), None) => true,
        (None, _) => false,
    }
}

/// The numbers of all reservations and classes in the order of the file. A class has its place after all reservations.
fn file_order(
    alloc: Global,
    reservations: &[ReservationItem],
    classes: &[ClassItem],
) -> Result<Vec<usize>, NoMemory>
    ensures { IfOk result (λ file. Numbered (reservings_of reservations.now) (class_reservings_of classes.now) 0 (length reservations.now) file.items) }
{
    let mut file = Vec::new(alloc);
    let mut i = 0;
    let mut j = 0;
    while i < reservations.len() || j < classes.len() {
        if comes_first(reservations, i, classes, j) {
            file.push(i)?;
            i += 1;
        } else {
            file.push(reservations.len() + j)?;
            j += 1;
        }
    }
    Ok(file)
}

/// Adds for each reservation the numbers of those that it names.
fn add_reservations(
    alloc: Global,
    numbers: &Numbers,
    items: &[ReservationItem],
    edges: &mut Vec<Vec<usize>>,
) -> Result<(), NoMemory>
    ensures { OnOk result (lists_of edges.new.items ≡ lists_of edges.old.items ++ map (λ item. filter_map (number_in numbers.now) (names_in (expression item.expr))) items.now) }
{
    for item in items {
        edges.push(numbers.named_in(alloc, &item.expr)?)?;
    }
    Ok(())
}

/// Adds for each class the numbers of the reservations that it names.
fn add_classes(
    alloc: Global,
    numbers: &Numbers,
    items: &[ClassItem],
    edges: &mut Vec<Vec<usize>>,
) -> Result<(), NoMemory>
    ensures { OnOk result (lists_of edges.new.items ≡ lists_of edges.old.items ++ map (λ item. filter_map (number_in numbers.now) (names_in (expression item.expr))) items.now) }
{
    for item in items {
        edges.push(numbers.named_in(alloc, &item.expr)?)?;
    }
    Ok(())
}

/// For each reservation, and after them for each class, the numbers of the reservations that it names; last the numbers of
/// all in the order of the file.
pub fn graph(alloc: Global, description: &Description) -> Result<Vec<Vec<usize>>, NoMemory>
    ensures { IfOk result (λ edges. IsGraph (description_of description.now) (lists_of edges.items)) }
{
    let reservations = description.reservations.as_slice();
    let classes = description.classes.as_slice();
    let numbers = Numbers::of(alloc, reservations)?;
    let mut edges = Vec::new(alloc);
    add_reservations(alloc, &numbers, reservations, &mut edges)?;
    add_classes(alloc, &numbers, classes, &mut edges)?;
    edges.push(file_order(alloc, reservations, classes)?)?;
    Ok(edges)
}
