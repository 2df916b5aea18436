//! Whether an instruction depends on one before it, and at what cost. For each register `last` has the place after the last
//! instruction, before the second of the two, that writes it; so one comparison tells whether any from a place on does.

ghost use Rattle.std.specs.Prelude.{◌≡◌, ◌+◌, ◌<◌, ◌^◌, ◌==◌, ◌&&◌, not, nat_lt, length, slice_index};
ghost use Rattle.std.specs.List.{list_any};
ghost use Rattle.std.specs.Option.{option_map};
ghost use Rattle.hz_block_model.specs.Dependences.Accesses.{is_among};
ghost use Rattle.hz_block_model.specs.Dependences.Dependences.{apart_by};
ghost use Rattle.hz_depend.specs.Cells.{based, cells};
ghost use Rattle.hz_depend.specs.Held as model;
ghost use Rattle.hz_depend.specs.Held.{held};
ghost use Rattle.hz_depend.specs.Numbers.{numbers_in};

use crate::finding::access::{Based, Touched};
use crate::finding::numbers::Numbers;
use crate::nodes::Node;

/// How many registers there are.
pub const REGISTERS: usize = 256;

/// The place after the last instruction that writes a register.
pub fn after(last: &[u32], register: u8) -> u32
    requires { length last.now ≡ 256 }
    ensures { result ≡ slice_index last.now register }
{
    last[usize::from(register)]
}

/// Whether one of the registers that the second reads was written by the first, and by none between them.
fn is_passed(last: &[u32], i: u32, written: &Touched, read: &Touched) -> bool
    requires registers { length last.now ≡ 256 }
    requires place { i + 1 < 2 ^ 32 }
    ensures { result ≡ list_any (λ r. is_among written.now.registers.items r && not (nat_lt (i + 1) (slice_index last.now r))) read.now.registers.items }
{
    read.registers.iter().any(|r| written.registers.contains(r) && after(last, *r) <= i + 1)
}

/// Whether they have a register in common.
fn share(first: &Touched, second: &Touched) -> bool
    ensures { result ≡ list_any (is_among second.now.registers.items) first.now.registers.items }
{
    first.registers.iter().any(|r| second.registers.contains(r))
}

/// Whether two sums are different words, where their base isn't written from a place on.
fn differ(last: &[u32], i: u32, a: &Based, b: &Based) -> bool
    requires { length last.now ≡ 256 }
    ensures { result ≡ apart_by (λ r. nat_lt i (slice_index last.now r)) (Some (based a.now)) (Some (based b.now)) }
{
    a.base == b.base && a.offset != b.offset && after(last, a.base) <= i
}

/// Whether two cells are apart.
fn are_apart(last: &[u32], i: u32, v: &Option<Based>, w: &Option<Based>) -> bool
    requires { length last.now ≡ 256 }
    ensures { result ≡ apart_by (λ r. nat_lt i (slice_index last.now r)) (option_map based v.now) (option_map based w.now) }
{
    match v {
        None => false,
        Some(a) => match w {
            None => false,
            Some(b) => differ(last, i, a, b),
        },
    }
}

/// Whether one of these cells isn't apart from a cell.
fn meets(last: &[u32], i: u32, v: &Option<Based>, second: &[Option<Based>]) -> bool
    requires { length last.now ≡ 256 }
    ensures { result ≡ list_any (λ w. not (apart_by (λ r. nat_lt i (slice_index last.now r)) (option_map based v.now) (option_map based w))) second.now }
{
    second.iter().any(|w| !are_apart(last, i, v, w))
}

/// Whether some two cells aren't apart.
fn meet(last: &[u32], i: u32, first: &Touched, second: &Touched) -> bool
    requires { length last.now ≡ 256 }
    ensures { result ≡ list_any (λ v. list_any (λ w. not (apart_by (λ r. nat_lt i (slice_index last.now r)) (option_map based v) (option_map based w))) second.now.cells.items) first.now.cells.items }
{
    first.cells.iter().any(|v| meets(last, i, v, &second.cells))
}

/// Whether the second instruction reads what the first wrote.
fn is_true(last: &[u32], i: u32, first: &Node<'_>, second: &Node<'_>) -> bool
    requires registers { length last.now ≡ 256 }
    requires place { i + 1 < 2 ^ 32 }
    ensures { result ≡ model.is_true (slice_index last.now) i (held first.now) (held second.now) }
{
    let written = &first.access.written;
    let read = &second.access.read;
    is_passed(last, i, written, read) || meet(last, i, written, read)
}

/// Whether the second instruction writes what the first reads.
fn is_anti(last: &[u32], i: u32, first: &Node<'_>, second: &Node<'_>) -> bool
    requires { length last.now ≡ 256 }
    ensures { result ≡ model.is_anti (slice_index last.now) i (held first.now) (held second.now) }
{
    let read = &first.access.read;
    let written = &second.access.written;
    share(read, written) || meet(last, i, read, written)
}

/// Whether both instructions write the same.
fn is_output(last: &[u32], i: u32, first: &Node<'_>, second: &Node<'_>) -> bool
    requires { length last.now ≡ 256 }
    ensures { result ≡ model.is_output (slice_index last.now) i (held first.now) (held second.now) }
{
    let earlier = &first.access.written;
    let later = &second.access.written;
    share(earlier, later) || meet(last, i, earlier, later)
}

/// The cost of the second instruction's dependence on the first, which stands at i, if it depends on it.
pub fn cost(
    last: &[u32],
    numbers: &Numbers,
    i: u32,
    first: &Node<'_>,
    second: &Node<'_>,
) -> Option<u32>
    requires registers { length last.now ≡ 256 }
    requires place { i + 1 < 2 ^ 32 }
    ensures { result ≡ model.cost_held (slice_index last.now) i (held first.now) (held second.now) (numbers_in numbers.now) }
{
    let reads = is_true(last, i, first, second);
    let writes = is_output(last, i, first, second);
    if !(reads || is_anti(last, i, first, second) || writes) {
        return None;
    }
    let by_true = if reads {
        numbers.between(first, second)
    } else {
        0
    };
    let by_output = if writes {
        first.latency.saturating_sub(second.latency)
    } else {
        0
    };
    Some(by_true.max(by_output))
}
