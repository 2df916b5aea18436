//! The union of pairs that ascend.

ghost use Rattle.std.specs.Prelude.{◌≡◌, ◌+◌, ◌≤◌, ◌++◌, [], length, IfOk, IfSome, IfNone};
ghost use Rattle.hz_altern.specs.Merging.{IsLeast};
ghost use Rattle.hz_altern.specs.Shapes.{pair_of, pairs_of};
ghost use Rattle.hz_description_model.specs.Reservations.Automata.{place_cmp, ascending};
ghost use Rattle.hz_base_model.specs.Pairs.{precedes_by};
ghost use Rattle.hz_description_model.specs.Reservations.AlternativeLists.{IsAscending};

use crate::alternative::Pair;
use crate::fault::NoMemory;
use std::alloc::Global;

impl Pair {
    /// Whether the pair stands before another: by cycle, then by automaton, then by unit.
    fn precedes(self, other: Pair) -> bool
        ensures { result ≡ precedes_by place_cmp (pair_of self) (pair_of other) }
    {
        self.cycle < other.cycle
            || (self.cycle == other.cycle
                && (self.automaton < other.automaton
                    || (self.automaton == other.automaton && self.unit < other.unit)))
    }
}

/// The pairs of two lists that ascend, as one such list.
pub fn united(alloc: Global, first: &[Pair], second: &[Pair]) -> Result<Vec<Pair>, NoMemory>
    requires first { IsAscending (pairs_of first.now) }
    requires second { IsAscending (pairs_of second.now) }
    ensures { IfOk result (λ pairs. pairs_of pairs.items ≡ ascending (pairs_of first.now ++ pairs_of second.now)) }
{
    let mut pairs = Vec::new(alloc);
    let mut rest = (first, second);
    while let Some((pair, next)) = least(rest.0, rest.1) {
        pairs.push(pair)?;
        rest = next;
    }
    Ok(pairs)
}

/// How many pairs the union of two lists that ascend has. It takes no memory.
pub fn union_len(first: &[Pair], second: &[Pair]) -> usize
    requires first { IsAscending (pairs_of first.now) }
    requires second { IsAscending (pairs_of second.now) }
    ensures value { result ≡ length (ascending (pairs_of first.now ++ pairs_of second.now)) }
    ensures fits { result ≤ length first.now + length second.now }
{
    let mut count = 0;
    let mut rest = (first, second);
    while let Some((_pair, next)) = least(rest.0, rest.1) {
        count += 1;
        rest = next;
    }
    count
}

/// The first pair of two lists that ascend, and what is left of both after it.
fn least<'a>(first: &'a [Pair], second: &'a [Pair]) -> Option<(Pair, (&'a [Pair], &'a [Pair]))>
    requires first { IsAscending (pairs_of first.now) }
    requires second { IsAscending (pairs_of second.now) }
    ensures some { IfSome result (λ r. IsLeast (pairs_of first.now) (pairs_of second.now) (pair_of r.0) (pairs_of r.1.0.now) (pairs_of r.1.1.now)) }
    ensures none { IfNone result (pairs_of first.now ++ pairs_of second.now ≡ []) }
{
    match (first.split_first(), second.split_first()) {
        (None, None) => None,
        (Some((one, ones)), None) => Some((*one, (ones, second))),
        (None, Some((other, others))) => Some((*other, (first, others))),
        (Some((one, ones)), Some((other, others))) => {
            if one.precedes(*other) {
                Some((*one, (ones, second)))
            } else if other.precedes(*one) {
                Some((*other, (first, others)))
            } else {
                Some((*one, (ones, others)))
            }
        }
    }
}
