//! The query units of an automaton: their names, and the table with a column for each.

ghost use Rattle.std.specs.Prelude.{◌≡◌, ◌<◌, length, All, IfOk, IfErr};
ghost use Rattle.hz_checked.specs.Shape.{automaton_of};
ghost use Rattle.hz_description_model.specs.Check.CheckedShape.{ask_names};
ghost use Rattle.hz_determ.specs.Asking.{IsAsked};
ghost use Rattle.hz_tables.specs.Rows.{KeepsRows};
ghost use Rattle.hz_auto.specs.Asks.{IsAskable, HasRoom, IsAskFault};

use hz_checked::CheckedAutomaton;
use hz_determ::{Caps, Explored, StateFault, with_asks};
use hz_regexp::{Name, NoMemory};
use hz_tables::Plain;
use std::alloc::Global;

/// The names of the query units of an automaton, in their order.
pub(crate) fn ask_names(alloc: Global, automaton: &CheckedAutomaton) -> Result<Vec<Name>, NoMemory>
    requires { All (λ unit. unit < length automaton.now.units.items) automaton.now.queries.items }
    ensures { IfOk result (λ names. names.items ≡ ask_names (automaton_of automaton.now)) }
{
    let mut names = Vec::with_capacity(alloc, automaton.queries.len())?;
    for unit in &automaton.queries {
        names.push(automaton.units[*unit as usize].copy()?)?;
    }
    Ok(names)
}

/// The table of an explored automaton with a column for each unit that is asked for; its own table where none is.
/// `CellLimit` exactly where its entries are then above the cap of cells.
pub(crate) fn add_asks(
    alloc: Global,
    explored: Explored,
    asks: &[u8],
    caps: &Caps,
) -> Result<Plain, StateFault>
    requires kept { KeepsRows explored.plain }
    requires askable { IsAskable explored asks.now caps.now }
    ensures asked { IfOk result (IsAsked explored asks.now) }
    ensures within { IfOk result (λ _. HasRoom explored asks.now caps.now.cells) }
    ensures fault { IfErr result (IsAskFault explored asks.now caps.now.cells) }
{
    if asks.is_empty() {
        let Explored {
            plain,
            grids: _,
            sets: _,
            parents: _,
        } = explored;
        return Ok(plain);
    }
    with_asks(alloc, &explored, asks, caps)
}
