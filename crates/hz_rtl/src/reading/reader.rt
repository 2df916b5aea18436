//! The reader of blocks.

ghost use Rattle.std.specs.Prelude.{◌≡◌, ◌≤◌, ◌==◌, [], length, map, IfOk, IfErr, Ok, Err};
ghost use Rattle.std.specs.List.{list_any};
ghost use Rattle.hz_block_model.specs.Texts.BlockForms as model;
ghost use Rattle.hz_rtl.specs.Faults.{Tells};
ghost use Rattle.hz_rtl.specs.Shape.{instruction, instructions};
ghost use Rattle.hz_sexp.specs.Shape.{tree, trees};
ghost use Rattle.hz_block_model.specs.Running.Limits.{instruction_limit};

use crate::block::{Block, Insn};
use crate::fault::RtlFault;
use crate::reading::attributes::Attributes;
use crate::reading::effects::pattern_of;
use crate::reading::operands::{headed, name_in, number_in};
use hz_regexp::Name;
use hz_sexp::Form;
use std::alloc::Global;

/// The greatest number of instructions of a block.
pub const INSN_LIMIT: usize = 4096;

/// `(set_attr "name" "value")`
#[tactic(auto, using(crate::proofs::EffectLemmas::no_attribute))]
fn attribute_with(
    alloc: Global,
    attributes: &Attributes,
    line: u32,
    operands: &[Form],
) -> Result<(Name, Name), RtlFault>
    ensures ok { IfOk result (λ given. model.attribute_with attributes.now.given.items line (trees operands.now) ≡ Ok given) }
    ensures err { IfErr result (Tells (λ fault at. model.attribute_with attributes.now.given.items line (trees operands.now) ≡ Err (fault, at))) }
{
    if operands.len() != 2 {
        return Err(RtlFault::BadShape { line });
    }
    let [first, second] = operands else {
        unreachable!()
    };
    let name = name_in(alloc, first)?;
    if attributes.gives(&name) {
        return Err(RtlFault::Twice { line: first.line });
    }
    let value = name_in(alloc, second)?;
    Ok((name, value))
}

/// The attribute that a form gives.
#[tactic(auto, using(crate::proofs::HeadLemmas::headed_says, crate::proofs::HeadLemmas::unheaded_says))]
fn attribute_of(
    alloc: Global,
    attributes: &Attributes,
    form: &Form,
) -> Result<(Name, Name), RtlFault>
    ensures ok { IfOk result (λ given. model.attribute_of attributes.now.given.items (tree form.now) ≡ Ok given) }
    ensures err { IfErr result (Tells (λ fault at. model.attribute_of attributes.now.given.items (tree form.now) ≡ Err (fault, at))) }
{
    let line = form.line;
    let Some((word, operands)) = headed(form) else {
        return Err(RtlFault::BadShape { line });
    };
    if word == b"set_attr".as_slice() {
        attribute_with(alloc, attributes, line, operands)
    } else {
        Err(RtlFault::BadShape { line })
    }
}

/// The attributes that forms give.
fn attributes_of(alloc: Global, forms: &[Form]) -> Result<Vec<(Name, Name)>, RtlFault>
    ensures ok { IfOk result (λ given. model.attributes_after [] (trees forms.now) ≡ Ok given.items) }
    ensures err { IfErr result (Tells (λ fault at. model.attributes_after [] (trees forms.now) ≡ Err (fault, at))) }
{
    let mut attributes = Attributes::new(alloc);
    for form in forms {
        let (name, value) = attribute_of(alloc, &attributes, form)?;
        attributes = attributes.add(name, value)?;
    }
    Ok(attributes.into_given())
}

/// Whether an instruction has this number.
fn has_number(insns: &[Insn], number: u32) -> bool
    ensures { result ≡ list_any (λ insn. insn.number == number) insns.now }
{
    insns.iter().any(|insn| insn.number == number)
}

/// `(insn NUMBER pattern attr ..)`, after these instructions
#[tactic(auto, using(crate::proofs::ReaderLemmas::has_number_is))]
fn insn_with(alloc: Global, before: &[Insn], line: u32, operands: &[Form]) -> Result<Insn, RtlFault>
    ensures ok { IfOk result (λ insn. model.instruction_with (map instruction before.now) line (trees operands.now) ≡ Ok (instruction insn)) }
    ensures err { IfErr result (Tells (λ fault at. model.instruction_with (map instruction before.now) line (trees operands.now) ≡ Err (fault, at))) }
{
    let Some((first, others)) = operands.split_first() else {
        return Err(RtlFault::BadShape { line });
    };
    let Some((second, others)) = others.split_first() else {
        return Err(RtlFault::BadShape { line });
    };
    let number = number_in(first)?;
    if has_number(before, number) {
        return Err(RtlFault::Twice { line });
    }
    let effects = pattern_of(alloc, second)?;
    let attrs = attributes_of(alloc, others)?;
    Ok(Insn {
        number,
        line,
        effects,
        attrs,
    })
}

/// The instruction that a form is, after these.
#[tactic(auto, using(crate::proofs::HeadLemmas::headed_says, crate::proofs::HeadLemmas::unheaded_says))]
fn insn_of(alloc: Global, before: &[Insn], form: &Form) -> Result<Insn, RtlFault>
    ensures ok { IfOk result (λ insn. model.instruction_of (map instruction before.now) (tree form.now) ≡ Ok (instruction insn)) }
    ensures err { IfErr result (Tells (λ fault at. model.instruction_of (map instruction before.now) (tree form.now) ≡ Err (fault, at))) }
{
    let line = form.line;
    let Some((word, operands)) = headed(form) else {
        return Err(RtlFault::BadShape { line });
    };
    if word == b"insn".as_slice() {
        insn_with(alloc, before, line, operands)
    } else {
        Err(RtlFault::BadShape { line })
    }
}

/// The next instruction of a block, after these.
#[tactic(auto, using(crate::proofs::HeadLemmas::line_is))]
fn next_insn(alloc: Global, before: &[Insn], form: &Form) -> Result<Insn, RtlFault>
    ensures ok { IfOk result (λ insn. model.next_instruction (map instruction before.now) (tree form.now) ≡ Ok (instruction insn)) }
    ensures err { IfErr result (Tells (λ fault at. model.next_instruction (map instruction before.now) (tree form.now) ≡ Err (fault, at))) }
{
    if before.len() < INSN_LIMIT {
        insn_of(alloc, before, form)
    } else {
        Err(RtlFault::InsnLimit { line: form.line })
    }
}

/// The block that forms are, at most 4,096 instructions of different numbers. Forms are judged in their order; in a list first
/// the word that it begins with, then the number of its operands, then each of them from left to right. The first that is
/// wrong decides which fault is reported, at the line of the innermost form that is wrong, and an instruction number that stands
/// twice at that of its `insn`; `NoMemory` where there was none. This profile, docs/RULES.md, 'Blocks'.
pub fn read_block(alloc: Global, forms: &[Form]) -> Result<Block, RtlFault>
    ensures reads { IfOk result (λ block. model.Reads (trees forms.now) (instructions block)) }
    ensures few { IfOk result (λ block. length block.insns.items ≤ instruction_limit) }
    ensures faults { IfErr result (Tells (model.FaultAt (trees forms.now))) }
{
    let mut insns = Vec::new(alloc);
    for form in forms {
        insns.push(next_insn(alloc, &insns, form)?)?;
    }
    Ok(Block { insns })
}
