//! What is found of two machines, and its text.

ghost use Rattle.std.specs.Prelude.{◌≡◌, ◌≤◌, ◌++◌, ◌∷◌, ◌==◌, [], ℕ, List, IfOk, length};
ghost use Rattle.hz_tables.specs.Machines.{machine_of};
ghost use Rattle.hz_same_top.specs.Telling.{MayCompare, TellsApart, TellsSame};

use crate::adding::add_all;
use crate::alone::add_names_alone;
use crate::tracing::{add_difference, common_names};
use hz_front::ending::Ending;
use hz_io::{Failed, Sink};
use hz_product::{Found, answer_last, compare};
use hz_tables::{Machine, NoMemory};
use std::alloc::Global;

/// Pairs of states, at most.
const PAIRS: u32 = 1_048_576;

/// What is found of two machines.
#[derive(Drop)]
pub(crate) struct Compared {
    /// 0 if the machines are the same, 1 if not, and 3 where pairs pass their limit.
    pub status: u8,
    /// A line, or the names that one has alone with the trace that tells the machines apart.
    pub text: Vec<u8>,
}

impl Ending for Compared {
    ghost use Rattle.std.specs.Prelude.{◌≤◌};

    ghost status_of = { λ compared. compared.status };

    ghost text_of = { λ compared. compared.text.items };

    ghost can_tell = { λ compared. compared.status ≤ 3 };

    fn status(&self) -> u8 {
        self.status
    }

    fn write<S: Sink>(&self, out: &mut S) -> Result<(), Failed> {
        out.put(&self.text)
    }
}

/// A line alone, with its status.
fn one_line(alloc: Global, status: u8, line: &[u8]) -> Result<Compared, NoMemory>
    ensures status { IfOk result (λ compared. compared.status ≡ status) }
    ensures text { IfOk result (λ compared. compared.text.items ≡ line.now) }
{
    let text = Vec::from_slice(alloc, line)?;
    Ok(Compared { status, text })
}

/// Whether a text has no byte.
fn is_empty(text: &[u8]) -> bool
    ensures { result ≡ (length text.now == 0) }
{
    text.is_empty()
}

/// What is reported of machines that no trace tells apart: by the names that one has alone, if there are any.
fn tell_same(
    alloc: Global,
    file: &str,
    first: &Machine,
    other_file: &str,
    second: &Machine,
) -> Result<Compared, NoMemory>
    ensures low { IfOk result (λ compared. compared.status ≤ 1) }
    ensures answer { IfOk result (TellsSame file.now other_file.now (machine_of first.now) (machine_of second.now)) }
{
    let mut text = Vec::new(alloc);
    add_names_alone(&mut text, file, first, other_file, second)?;
    if is_empty(&text) {
        return one_line(alloc, 0, b"same\n");
    }
    add_all(&mut text, &[b"; else the same\n"])?;
    Ok(Compared { status: 1, text })
}

/// What is reported of machines that a trace tells apart.
fn tell_difference(
    alloc: Global,
    file: &str,
    first: &Machine,
    other_file: &str,
    second: &Machine,
    trace: &[usize],
) -> Result<Compared, NoMemory>
    ensures low { IfOk result (λ compared. compared.status ≤ 1) }
    ensures answer { IfOk result (TellsApart file.now other_file.now (machine_of first.now) (machine_of second.now) trace.now) }
{
    let names = common_names(alloc, first, second)?;
    let answer = answer_last(alloc, first, second, trace)?;
    let last = last_of(trace);
    let mut text = Vec::new(alloc);
    add_names_alone(&mut text, file, first, other_file, second)?;
    add_difference(&mut text, file, other_file, &names, trace, last, answer)?;
    Ok(Compared { status: 1, text })
}

/// The last symbol of a trace; that of an empty one is 0.
fn last_of(trace: &[usize]) -> usize
    ensures { (before : List ℕ) (last : ℕ) → trace.now ≡ before ++ last ∷ [] → result ≡ last }
{
    if trace.is_empty() {
        return 0;
    }
    trace[trace.len() - 1]
}

/// What is found of two machines, whose texts are in files of these names.
pub(crate) fn compare_machines(
    alloc: Global,
    file: &str,
    first: &Machine,
    other_file: &str,
    second: &Machine,
) -> Result<Compared, NoMemory>
    ensures low { IfOk result (λ compared. compared.status ≤ 3) }
    ensures answer { IfOk result (λ compared. MayCompare file.now other_file.now (machine_of first.now) (machine_of second.now) compared.status compared.text.items) }
{
    match compare(alloc, first, second, PAIRS)? {
        Found::Same => tell_same(alloc, file, first, other_file, second),
        Found::Difference(trace) => {
            tell_difference(alloc, file, first, other_file, second, &trace)
        }
        Found::Limit => one_line(alloc, 3, b"limit pairs\n"),
    }
}
