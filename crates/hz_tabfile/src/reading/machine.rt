//! The reader of tables texts.

ghost use Rattle.std.specs.Prelude.{◌≡◌, ◌<◌, ◌^◌, Ok, Err, length, map, All, IfOk, IfSome, MatchOption};
ghost use Rattle.std.specs.Bool.{OnTrue};
ghost use Rattle.std.specs.Str.{bytes_eq};
ghost use Rattle.hz_pipeline_model.specs.Tables.Machines as machines;
ghost use Rattle.hz_tables.specs.Machines.{machine_of};
ghost use Rattle.hz_tables.specs.Parts.{part_of, IsLeastWidth};
ghost use Rattle.hz_tabtext_model.specs.Texts.{TableText};
ghost use Rattle.hz_tabtext_model.specs.Judging.{bad_header};
ghost use Rattle.hz_tabtext_model.specs.Lines.{header_in};
ghost use Rattle.hz_tabtext_model.specs.Reading as model;
ghost use Rattle.hz_tabfile.specs.Given.{Gives, rest_at};
ghost use Rattle.hz_tabfile.specs.Rests.{left_of};

use super::cutting::{cut, is_word};
use super::fault::TabFault;
use super::reported::{automata_at, classes_at, end_at, treatment_at};
use super::rest::Rest;
use super::text::{names_at, parts_at};
use hz_regexp::Name;
use hz_tables::{Machine, Part};
use std::alloc::Global;

/// Whether a line is this header.
fn is_header(line: &[u8], header: &[u8]) -> bool
    requires { 0 < length header.now }
    ensures same { result ≡ bytes_eq line.now header.now }
    ensures some { OnTrue result (0 < length line.now) }
{
    is_word(line, header)
}

/// Whether a text with this header has lines of asks, which is version 2; none where the line is no header.
#[tactic(auto, unfolding(hz_tabtext_model::specs::Lines::header_in))]
fn header(line: &[u8]) -> Option<bool>
    ensures judged { MatchOption result (header_in line.now ≡ Err bad_header) (λ asked. header_in line.now ≡ Ok asked) }
    ensures some { IfSome result (λ _. 0 < length line.now) }
{
    if is_header(line, b"hazard-tables 2") {
        return Some(true);
    }
    if is_header(line, b"hazard-tables 1") {
        return Some(false);
    }
    None
}

/// What is left of a text after its header, and whether it has lines of asks.
#[tactic(auto, using(crate::proofs::Pieces::nil_pieces))]
fn after_header(bytes: &[u8]) -> Result<(bool, Rest), TabFault>
    requires { length bytes.now < 2 ^ 32 }
    ensures { Gives (λ x. (x.0, left_of x.1)) result (model.line_by header_in (rest_at 1 bytes.now)) }
{
    let (line, others) = cut(bytes, b'\n');
    let Some(bytes) = others else {
        return Err(TabFault::Truncated { line: 1 });
    };
    let Some(asked) = header(line) else {
        return Err(TabFault::BadHeader { line: 1 });
    };
    Ok((asked, Rest { bytes, number: 2 }))
}

/// The classes and the automata of a text after its header.
#[tactic(auto, unfolding(hz_tabtext_model::specs::Reading::machine_at))]
fn parts_after(alloc: Global, asked: bool, rest: Rest) -> Result<(Vec<Name>, Vec<Part>), TabFault>
    ensures read { Gives (λ x. record { classes = x.0.items; parts = map part_of x.1.items }) result (model.machine_at asked (left_of rest.entry)) }
    ensures packed { IfOk result (λ x. All (λ part. IsLeastWidth part.table) x.1.items) }
{
    let (_ndfa, rest) = treatment_at(rest)?;
    let (count, rest) = classes_at(rest)?;
    let (classes, rest) = names_at(alloc, rest, count)?;
    let (automata, rest) = automata_at(rest)?;
    let (parts, rest) = parts_at(alloc, rest, asked, count, automata)?;
    let rest = end_at(rest)?;
    if !rest.is_over() {
        return Err(TabFault::Trailing { line: rest.number });
    }
    Ok((classes, parts))
}

/// The machine of a text after its header.
fn machine_after(alloc: Global, asked: bool, rest: Rest) -> Result<Machine, TabFault>
    ensures read { Gives machine_of result (model.machine_at asked (left_of rest.entry)) }
    ensures packed { IfOk result (λ machine. All (λ part. IsLeastWidth part.table) machine.parts.items) }
{
    let (classes, parts) = parts_after(alloc, asked, rest)?;
    Ok(Machine { classes, parts })
}

/// The machine of a whole text.
#[tactic(auto, unfolding(hz_tabtext_model::specs::Reading::tables_in))]
fn whole(alloc: Global, bytes: &[u8]) -> Result<Machine, TabFault>
    requires { length bytes.now < 2 ^ 32 }
    ensures read { Gives machine_of result (model.tables_in bytes.now) }
    ensures packed { IfOk result (λ machine. All (λ part. IsLeastWidth part.table) machine.parts.items) }
{
    let (asked, rest) = after_header(bytes)?;
    let machine = machine_after(alloc, asked, rest)?;
    Ok(machine)
}

/// The machine that a text of version 1 or 2 stands for, or the first fault of the text; which lines of counts, origins and
/// grids it has makes no difference. Its tables are packed. Source: this profile, docs/FORMATS.md, 'Tables'.
pub fn read_tables(alloc: Global, bytes: &[u8]) -> Result<Machine, TabFault>
    requires { length bytes.now < 2 ^ 32 }
    // What is read is what the text stands for.
    ensures found { IfOk result (λ machine. TableText bytes.now (machine_of machine)) }
    // What stands for a machine is read, unless memory runs out.
    ensures only { (machine : machines.Machine) → TableText bytes.now machine → Gives machine_of result (Ok machine) }
    // Which fault it is.
    ensures exact { Gives machine_of result (model.tables_in bytes.now) }
    // Each table is packed, over cells of the least width that has room for the number of its states.
    ensures packed { IfOk result (λ machine. All (λ part. IsLeastWidth part.table) machine.parts.items) }
{
    whole(alloc, bytes)
}
