//! Two alternatives as one.

ghost use Rattle.std.specs.Prelude.{◌≡◌, ◌+◌, ◌^◌, ◌<◌, ◌≤◌, ◌++◌, All, IfOk};
ghost use Rattle.hz_altern.specs.Answers.{weight};
ghost use Rattle.hz_altern.specs.Joinings.{IsListed, joined_by};
ghost use Rattle.hz_altern.specs.Shapes.{pair_of, pairs_of, alternative_of};
ghost use Rattle.hz_base_model.specs.Pairs.{later, placed};
ghost use Rattle.hz_base_model.specs.Limits.{cycle_limit};
ghost use Rattle.hz_description_model.specs.Reservations.Limits.{size_limit};

use crate::alternative::{Alt, Pair};
use crate::fault::NoMemory;
use crate::listing::merging::{union_len, united};
use std::alloc::Global;

/// How two alternatives become one.
#[derive(Clone, Copy, Debug, PartialEq, Eq)]
pub enum Joining {
    /// The second begins where the first ends.
    InSequence,
    /// Both begin in the same cycle.
    Together,
}

impl Pair {
    /// The same unit, so many cycles later.
    fn later(self, cycles: u16) -> Pair
        requires { cycles + self.cycle < 2 ^ 16 }
        ensures { pair_of result ≡ later cycles (pair_of self) }
    {
        Pair {
            cycle: cycles + self.cycle,
            ..self
        }
    }
}

/// The pairs, and after them others so many cycles later.
fn continued(
    alloc: Global,
    first: &[Pair],
    cycles: u16,
    second: &[Pair],
) -> Result<Vec<Pair>, NoMemory>
    requires { All (λ p. cycles + p.cycle < 2 ^ 16) second.now }
    ensures { IfOk result (λ pairs. pairs_of pairs.items ≡ pairs_of first.now ++ placed cycles (pairs_of second.now)) }
{
    let mut pairs = Vec::with_capacity(alloc, first.len() + second.len())?;
    pairs.extend_from_slice(first)?;
    for pair in second {
        pairs.push(pair.later(cycles))?;
    }
    Ok(pairs)
}

/// How many cycles and pairs two alternatives have as one. It takes no memory.
pub fn joined_size(joining: Joining, first: &Alt, second: &Alt) -> usize
    requires first { IsListed (alternative_of first.now) }
    requires second { IsListed (alternative_of second.now) }
    requires first_small { weight (alternative_of first.now) ≤ size_limit }
    requires second_small { weight (alternative_of second.now) ≤ size_limit }
    ensures value { result ≡ weight (joined_by joining (alternative_of first.now) (alternative_of second.now)) }
    ensures fits { result ≤ weight (alternative_of first.now) + weight (alternative_of second.now) }
{
    match joining {
        Joining::InSequence => {
            first.length as usize + second.length as usize + first.pairs.len() + second.pairs.len()
        }
        Joining::Together => {
            first.length.max(second.length) as usize + union_len(&first.pairs, &second.pairs)
        }
    }
}

/// Two alternatives as one.
pub fn joined(alloc: Global, joining: Joining, first: &Alt, second: &Alt) -> Result<Alt, NoMemory>
    requires first { IsListed (alternative_of first.now) }
    requires second { IsListed (alternative_of second.now) }
    requires short { (joined_by joining (alternative_of first.now) (alternative_of second.now)).cycles ≤ cycle_limit }
    ensures { IfOk result (λ alt. alternative_of alt ≡ joined_by joining (alternative_of first.now) (alternative_of second.now)) }
{
    match joining {
        Joining::InSequence => Ok(Alt {
            pairs: continued(alloc, &first.pairs, first.length as u16, &second.pairs)?,
            length: first.length + second.length,
        }),
        Joining::Together => Ok(Alt {
            pairs: united(alloc, &first.pairs, &second.pairs)?,
            length: first.length.max(second.length),
        }),
    }
}
