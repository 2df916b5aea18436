//! Which parts of an expression have one alternative.

ghost use Rattle.std.specs.Prelude.{◌≡◌, IfOk, IsTrue, length, nat_eq};
ghost use Rattle.std.specs.List.{list_all};
ghost use Rattle.hz_altern.specs.declared.listing.singles.Singles.{out-Singles};
ghost use Rattle.hz_altern.specs.Singles.{TellsSingles, TellSingles};
ghost use Rattle.hz_altern.specs.Tables.{alternatives_in, known_alternatives, is_held};
ghost use Rattle.hz_description_model.specs.Reservations.Alternatives.{parts_of};
ghost use Rattle.hz_description_model.specs.Reservations.Expressions.{is_expression, are_expressions};
ghost use Rattle.hz_description_model.specs.Reservations.NamesIn.{all_names, all_names_in};
ghost use Rattle.hz_regexp.specs.Shape.{expression, expressions};

use crate::fault::NoMemory;
use crate::known::Known;
use hz_regexp::{Expr, Name};
use std::alloc::Global;

/// Whether an expression has one alternative, and so of each part in it. A repeat tells what its part tells, for copies
/// of one alternative are one.
#[derive(Drop)]
pub struct Singles {
    single: bool,
    parts: Vec<Singles>,
}

impl Singles {
    ghost use Rattle.std.specs.Prelude.{◌≡◌};

    /// An expression of these parts.
    fn new(single: bool, parts: Vec<Singles>) -> Singles
        ensures single { (out-Singles result).single ≡ single }
        ensures parts { (out-Singles result).parts.items ≡ parts.items }
    {
        Singles { single, parts }
    }

    /// Whether the expression has one alternative.
    pub fn is_single(&self) -> bool
        ensures { result ≡ (out-Singles self.now).single }
    {
        self.single
    }

    /// The same of its parts, in their order.
    pub fn parts(&self) -> &[Singles]
        ensures { result.now ≡ (out-Singles self.now).parts.items }
    {
        &self.parts
    }
}

/// Whether each of these has one alternative.
fn all_single(parts: &[Singles]) -> bool
    ensures { result ≡ list_all (λ part. (out-Singles part).single) parts.now }
{
    parts.iter().all(|part| part.is_single())
}

/// An expression that chooses one alternative of each of its parts.
fn joined(parts: Vec<Singles>) -> Singles
    ensures single { (out-Singles result).single ≡ list_all (λ part. (out-Singles part).single) parts.items }
    ensures parts { (out-Singles result).parts.items ≡ parts.items }
{
    Singles::new(all_single(&parts), parts)
}

/// Whether a name has one alternative.
fn singles_of_name(alloc: Global, name: &Name, known: &Known) -> Singles
    requires { IsTrue (is_held (alternatives_in known.now) name.now) }
    ensures { (out-Singles result).single ≡ nat_eq (length (known_alternatives known.now name.now)) 1 }
{
    match known.find(name) {
        Some(entry) => Singles::new(entry.alts.len() == 1, Vec::new(alloc)),
        None => unreachable!(),
    }
}

/// Whether an expression has one alternative, and each part in it: each is asked once, from its parts.
#[cycle(finding)]
pub fn find_singles(alloc: Global, expr: &Expr, known: &Known) -> Result<Singles, NoMemory>
    requires formed { IsTrue (is_expression (expression expr.now)) }
    requires held { IsTrue (all_names (is_held (alternatives_in known.now)) (expression expr.now)) }
    ensures { IfOk result (λ singles. TellsSingles (known_alternatives known.now) (expression expr.now) singles) }
{
    match expr {
        Expr::Named(name) => Ok(singles_of_name(alloc, name, known)),
        Expr::Nothing => Ok(Singles::new(true, Vec::new(alloc))),
        Expr::Seq(parts) => Ok(joined(find_singles_in(alloc, parts, known)?)),
        Expr::Oneof(parts) => Ok(Singles::new(false, find_singles_in(alloc, parts, known)?)),
        Expr::Allof(parts) => Ok(joined(find_singles_in(alloc, parts, known)?)),
        Expr::Repeat(part, _times) => find_singles(alloc, part, known),
    }
}

/// The same of parts.
#[cycle(finding)]
fn find_singles_in(alloc: Global, parts: &[Expr], known: &Known) -> Result<Vec<Singles>, NoMemory>
    requires formed { IsTrue (are_expressions (parts_of (expressions parts.now))) }
    requires held { IsTrue (all_names_in (is_held (alternatives_in known.now)) (parts_of (expressions parts.now))) }
    ensures { IfOk result (λ all. TellSingles (known_alternatives known.now) (parts_of (expressions parts.now)) all.items) }
{
    let mut all = Vec::with_capacity(alloc, parts.len())?;
    for part in parts {
        all.push(find_singles(alloc, part, known)?)?;
    }
    Ok(all)
}
