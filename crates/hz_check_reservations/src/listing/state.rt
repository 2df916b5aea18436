//! How far the expansion of a description has come.

ghost use Rattle.std.specs.Prelude.{◌≡◌, ◌≤◌, ◌<◌, IsTrue, IfOk, IfErr, OnOk, length, map};
ghost use Rattle.hz_altern.specs.Answers.{total_weight};
ghost use Rattle.hz_altern.specs.Shapes.{alternatives};
ghost use Rattle.hz_altern.specs.Tables.{alternatives_in, is_held, known_alternatives};
ghost use Rattle.hz_description_model.specs.Reservations.AlternativeLists.{AreSound, greatest_length};
ghost use Rattle.hz_description_model.specs.Reservations.Alternatives.{alternatives_of};
ghost use Rattle.hz_description_model.specs.Reservations.Automata.{listed};
ghost use Rattle.hz_description_model.specs.Reservations.Expressions.{is_expression};
ghost use Rattle.hz_base_model.specs.Limits.{cycle_limit};
ghost use Rattle.hz_description_model.specs.Reservations.Limits.{alternative_limit, size_limit};
ghost use Rattle.hz_description_model.specs.Reservations.NamesIn.{all_names};
ghost use Rattle.hz_regexp.specs.Shape.{expression};
ghost use Rattle.hz_check_reservations.specs.Answers.{IsMadeIfListed, Makes};

use crate::listing::reserving::Reserving;
use crate::listing::unexpanded::Unexpanded;
use hz_altern::{Alt, AlternFault, Known, SIZE_LIMIT, expand_within};
use hz_regexp::{Expr, NoMemory};
use std::alloc::Global;

/// What is known of the names that came, the sizes of all that came together, and the alternatives of the classes.
#[derive(Drop)]
pub struct Expansion {
    pub known: Known,
    pub size: usize,
    pub lists: Vec<Vec<Alt>>,
}

/// How many cycles and pairs alternatives have together.
fn weight_of(alts: &[Alt]) -> usize
    requires { total_weight (alternatives alts.now) ≤ size_limit }
    ensures { result ≡ total_weight (alternatives alts.now) }
{
    let mut weight = 0;
    for i in (0..alts.len()).rev() {
        let alt = &alts[i];
        weight += alt.length as usize + alt.pairs.len();
    }
    weight
}

/// The alternatives where they were listed, and none where they pass a limit; want of memory stays what it is.
fn made_if_listed(listed: Result<Vec<Alt>, AlternFault>) -> Result<Option<Vec<Alt>>, NoMemory>
    ensures { IsMadeIfListed listed result }
{
    match listed {
        Ok(alts) => Ok(Some(alts)),
        Err(AlternFault::AlternativesLimit) => Ok(None),
        Err(AlternFault::CyclesLimit) => Ok(None),
        Err(AlternFault::SizeLimit) => Ok(None),
        Err(AlternFault::NoMemory) => Err(NoMemory),
    }
}

/// The alternatives of an expression that has few and short ones, if together they are no larger than `most`.
fn expanded(
    alloc: Global,
    expr: &Expr,
    known: &Known,
    most: usize,
) -> Result<Option<Vec<Alt>>, NoMemory>
    requires formed { IsTrue (is_expression (expression expr.now)) }
    requires known { IsTrue (all_names (is_held (alternatives_in known.now)) (expression expr.now)) }
    requires few { length (alternatives_of (known_alternatives known.now) (expression expr.now)) ≤ alternative_limit }
    requires short { greatest_length (alternatives_of (known_alternatives known.now) (expression expr.now)) ≤ cycle_limit }
    requires most { most ≤ size_limit }
    ensures { IfOk result (Makes most (alternatives_of (known_alternatives known.now) (expression expr.now))) }
{
    made_if_listed(expand_within(alloc, expr, known, most))
}

impl Expansion {
    ghost use Rattle.std.specs.Prelude.{◌≡◌, ◌≤◌, false, IsTrue, IfErr, OnOk, None, length};
    ghost use Rattle.hz_altern.specs.Shapes.{alternatives};
    ghost use Rattle.hz_altern.specs.Tables.{alternatives_in, is_held, known_alternatives};
    ghost use Rattle.hz_check_reservations.specs.Answers.{Expands, IsTooLarge, Keeps, KeepsSound};
    ghost use Rattle.hz_check_reservations.specs.Shape.{reserving_of};
    ghost use Rattle.hz_description_model.specs.Reservations.AlternativeLists.{AreSound, greatest_length};
    ghost use Rattle.hz_description_model.specs.Reservations.Alternatives.{alternatives_of};
    ghost use Rattle.hz_description_model.specs.Reservations.Expressions.{is_expression};
    ghost use Rattle.hz_base_model.specs.Limits.{cycle_limit};
    ghost use Rattle.hz_description_model.specs.Reservations.Limits.{alternative_limit, size_limit};
    ghost use Rattle.hz_description_model.specs.Reservations.NamesIn.{all_names};
    ghost use Rattle.hz_regexp.specs.Shape.{expression};

    /// Keeps the alternatives of a class, or makes them those of the reservation's name.
    fn keep(&mut self, reserving: Reserving<'_>, alts: Vec<Alt>) -> Result<(), NoMemory>
        requires new { reserving.is_class ≡ false → alternatives_in self.old.known reserving.site.name.now ≡ None }
        requires sound { AreSound (alternatives alts.items) }
        ensures keeps { OnOk result (Keeps reserving.entry.is_class reserving.entry.site.name.now (alternatives alts.items) self.old self.new) }
        ensures size { self.new.size ≡ self.old.size }
        ensures sound { OnOk result (KeepsSound self.old self.new) }
    {
        if reserving.is_class {
            self.lists.push(alts)?;
        } else {
            self.known.add_reservation(reserving.site.name, alts)?;
        }
        Ok(())
    }

    /// Expands a reservation or class after those that came. What is left of the limit of sizes is asked before a list of
    /// alternatives grows, so that none which passes it is held.
    pub fn add<'a>(&mut self, alloc: Global, reserving: Reserving<'a>) -> Result<(), Unexpanded<'a>>
        requires new { reserving.is_class ≡ false → alternatives_in self.old.known reserving.site.name.now ≡ None }
        requires formed { IsTrue (is_expression (expression reserving.expr.now)) }
        requires known { IsTrue (all_names (is_held (alternatives_in self.old.known)) (expression reserving.expr.now)) }
        requires few { length (alternatives_of (known_alternatives self.old.known) (expression reserving.expr.now)) ≤ alternative_limit }
        requires short { greatest_length (alternatives_of (known_alternatives self.old.known) (expression reserving.expr.now)) ≤ cycle_limit }
        requires small { self.old.size ≤ size_limit }
        ensures ok { OnOk result (Expands (reserving_of reserving.entry) (alternatives_of (known_alternatives self.old.known) (expression reserving.entry.expr.now)) self.old self.new) }
        ensures err { IfErr result (IsTooLarge (reserving_of reserving.entry) (alternatives_of (known_alternatives self.old.known) (expression reserving.entry.expr.now)) self.old) }
    {
        let left = SIZE_LIMIT - self.size;
        let Some(alts) = expanded(alloc, reserving.expr, &self.known, left)? else {
            return Err(Unexpanded::Size(reserving.site));
        };
        let size = self.size + weight_of(&alts);
        self.keep(reserving, alts)?;
        self.size = size;
        Ok(())
    }
}
