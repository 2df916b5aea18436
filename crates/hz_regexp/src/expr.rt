//! What an expression is.

use crate::names::Name;

/// A reservation expression. `Seq`, `Oneof` and `Allof` that were read have two parts or more, and a
/// repeat's number is 1 to 65,535.
#[derive(Debug, Drop)]
pub enum Expr {
    /// A unit or a reservation.
    Named(Name),
    /// `nothing`: no unit for one cycle.
    Nothing,
    /// Parts with `,` between them: one after another.
    Seq(Vec<Expr>),
    /// Parts with `|` between them: one of them.
    Oneof(Vec<Expr>),
    /// Parts with `+` between them: all from the same cycle on.
    Allof(Vec<Expr>),
    /// An element with `*` and a number after it: that many times, one after another.
    Repeat(Box<Expr>, u32),
}
