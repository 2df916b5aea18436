//! Why a description is not compiled.

ghost use Rattle.std.specs.Prelude.{◌≡◌};
ghost use Rattle.hz_auto.specs.Faults.{IsKindOf};

use hz_determ::StateFault;
use thiserror::Error;

/// What is counted of an automaton before minimisation. docs/RULES.md, 'Limits'.
#[derive(Clone, Copy, Debug, PartialEq, Eq)]
pub enum Kind {
    /// Different reached grids.
    Grids,
    /// Different reached states.
    States,
    /// The grids of all states together.
    Members,
    /// States times columns, those of query units and of the advance among them.
    Cells,
}

/// Why a description is not compiled.
#[derive(Clone, Copy, Debug, PartialEq, Eq, Error)]
pub enum AutoFault {
    /// The automaton of this number, from 0, is the first that has a count above its limit, and that of this kind is.
    /// Without the option `ndfa` grids, states and members are one number, and the kind is `Grids`, or `Cells`.
    #[error("automaton {automaton} has too many {kind:?}")]
    Limit { automaton: u32, kind: Kind },
    /// Memory ran out.
    #[error("out of memory")]
    NoMemory,
}

/// The count that is above its limit; none for want of memory. Without choices a state has one grid, so that grids,
/// states and members are one number, which is named by its grids.
pub(crate) fn kind_of(ndfa: bool, fault: StateFault) -> Option<Kind>
    ensures { IsKindOf ndfa fault result }
{
    match fault {
        StateFault::GridLimit => Some(Kind::Grids),
        StateFault::SetLimit => Some(if ndfa { Kind::States } else { Kind::Grids }),
        StateFault::MemberLimit => Some(if ndfa { Kind::Members } else { Kind::Grids }),
        StateFault::CellLimit => Some(Kind::Cells),
        StateFault::NoMemory => None,
    }
}
