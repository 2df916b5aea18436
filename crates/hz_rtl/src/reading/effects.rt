//! The places, effects and patterns that forms are.

ghost use Rattle.std.specs.Prelude.{◌≡◌, map, IfOk, IfErr, Ok, Err};
ghost use Rattle.hz_block_model.specs.Texts.BlockForms as blocks;
ghost use Rattle.hz_block_model.specs.Texts.Values as model;
ghost use Rattle.hz_rtl.specs.Codes.{target_code, effect_code};
ghost use Rattle.hz_rtl.specs.Faults.{Tells};
ghost use Rattle.hz_rtl.specs.Shape.{target, effect};
ghost use Rattle.hz_sexp.specs.Shape.{tree, trees};

use crate::block::{Effect, Place};
use crate::fault::RtlFault;
use crate::reading::codes::{EffectCode, PlaceCode, effect_code, place_code};
use crate::reading::operands::{headed, register_in, vector_in};
use crate::reading::values::value_of;
use hz_sexp::Form;
use std::alloc::Global;

/// The place of a list at a line, by what it begins with and its operands.
#[tactic(auto, using(crate::proofs::EffectLemmas::no_place))]
fn place_with(
    alloc: Global,
    line: u32,
    code: PlaceCode,
    operands: &[Form],
) -> Result<Place, RtlFault>
    ensures ok { IfOk result (λ place. model.target_with line (target_code code) (trees operands.now) ≡ Ok (target place)) }
    ensures err { IfErr result (Tells (λ fault at. model.target_with line (target_code code) (trees operands.now) ≡ Err (fault, at))) }
{
    if operands.len() != 1 {
        return Err(RtlFault::BadShape { line });
    }
    let [operand] = operands else { unreachable!() };
    match code {
        PlaceCode::Reg => Ok(Place::Reg(register_in(operand)?)),
        PlaceCode::Mem => Ok(Place::Mem(value_of(alloc, operand)?)),
    }
}

/// The place that a form is.
#[tactic(auto, using(crate::proofs::HeadLemmas::headed_says, crate::proofs::HeadLemmas::unheaded_says))]
fn place_of(alloc: Global, form: &Form) -> Result<Place, RtlFault>
    ensures ok { IfOk result (λ place. model.target_of (tree form.now) ≡ Ok (target place)) }
    ensures err { IfErr result (Tells (λ fault at. model.target_of (tree form.now) ≡ Err (fault, at))) }
{
    let line = form.line;
    let Some((word, operands)) = headed(form) else {
        return Err(RtlFault::BadShape { line });
    };
    match place_code(word) {
        Some(code) => place_with(alloc, line, code, operands),
        None => Err(RtlFault::UnknownCode { line }),
    }
}

/// `(set place value)`
#[tactic(auto, using(crate::proofs::EffectLemmas::no_set))]
fn set_effect(alloc: Global, line: u32, operands: &[Form]) -> Result<Effect, RtlFault>
    ensures ok { IfOk result (λ e. model.effect_with line model.set_code (trees operands.now) ≡ Ok (effect e)) }
    ensures err { IfErr result (Tells (λ fault at. model.effect_with line model.set_code (trees operands.now) ≡ Err (fault, at))) }
{
    if operands.len() != 2 {
        return Err(RtlFault::BadShape { line });
    }
    let [place, value] = operands else {
        unreachable!()
    };
    let place = place_of(alloc, place)?;
    let value = value_of(alloc, value)?;
    Ok(Effect::Set(place, value))
}

/// `(clobber place)`
#[tactic(auto, using(crate::proofs::EffectLemmas::no_clobber))]
fn clobber_effect(alloc: Global, line: u32, operands: &[Form]) -> Result<Effect, RtlFault>
    ensures ok { IfOk result (λ e. model.effect_with line model.clobber_code (trees operands.now) ≡ Ok (effect e)) }
    ensures err { IfErr result (Tells (λ fault at. model.effect_with line model.clobber_code (trees operands.now) ≡ Err (fault, at))) }
{
    if operands.len() != 1 {
        return Err(RtlFault::BadShape { line });
    }
    let [place] = operands else { unreachable!() };
    let place = place_of(alloc, place)?;
    Ok(Effect::Clobber(place))
}

/// `(use value)`
#[tactic(auto, using(crate::proofs::EffectLemmas::no_use))]
fn use_effect(alloc: Global, line: u32, operands: &[Form]) -> Result<Effect, RtlFault>
    ensures ok { IfOk result (λ e. model.effect_with line model.use_code (trees operands.now) ≡ Ok (effect e)) }
    ensures err { IfErr result (Tells (λ fault at. model.effect_with line model.use_code (trees operands.now) ≡ Err (fault, at))) }
{
    if operands.len() != 1 {
        return Err(RtlFault::BadShape { line });
    }
    let [value] = operands else { unreachable!() };
    let value = value_of(alloc, value)?;
    Ok(Effect::Use(value))
}

/// The effect of a list at a line, by what it begins with and its operands.
fn effect_with(
    alloc: Global,
    line: u32,
    code: EffectCode,
    operands: &[Form],
) -> Result<Effect, RtlFault>
    ensures ok { IfOk result (λ e. model.effect_with line (effect_code code) (trees operands.now) ≡ Ok (effect e)) }
    ensures err { IfErr result (Tells (λ fault at. model.effect_with line (effect_code code) (trees operands.now) ≡ Err (fault, at))) }
{
    match code {
        EffectCode::Set => set_effect(alloc, line, operands),
        EffectCode::Clobber => clobber_effect(alloc, line, operands),
        EffectCode::Use => use_effect(alloc, line, operands),
    }
}

/// The effect of a list at a line that begins with a word.
fn effect_headed(
    alloc: Global,
    line: u32,
    word: &[u8],
    operands: &[Form],
) -> Result<Effect, RtlFault>
    ensures ok { IfOk result (λ e. model.effect_headed line word.now (trees operands.now) ≡ Ok (effect e)) }
    ensures err { IfErr result (Tells (λ fault at. model.effect_headed line word.now (trees operands.now) ≡ Err (fault, at))) }
{
    match effect_code(word) {
        Some(code) => effect_with(alloc, line, code, operands),
        None => Err(RtlFault::UnknownCode { line }),
    }
}

/// The effect that a form is.
#[tactic(auto, using(crate::proofs::HeadLemmas::headed_says, crate::proofs::HeadLemmas::unheaded_says))]
fn effect_of(alloc: Global, form: &Form) -> Result<Effect, RtlFault>
    ensures ok { IfOk result (λ e. model.effect_of (tree form.now) ≡ Ok (effect e)) }
    ensures err { IfErr result (Tells (λ fault at. model.effect_of (tree form.now) ≡ Err (fault, at))) }
{
    let line = form.line;
    match headed(form) {
        Some((word, operands)) => effect_headed(alloc, line, word, operands),
        None => Err(RtlFault::BadShape { line }),
    }
}

/// Effects from left to right.
fn effects_of(alloc: Global, forms: &[Form]) -> Result<Vec<Effect>, RtlFault>
    ensures ok { IfOk result (λ effects. blocks.effects_of (trees forms.now) ≡ Ok (map effect effects.items)) }
    ensures err { IfErr result (Tells (λ fault at. blocks.effects_of (trees forms.now) ≡ Err (fault, at))) }
{
    let mut effects = Vec::with_capacity(alloc, forms.len())?;
    for form in forms {
        effects.push(effect_of(alloc, form)?)?;
    }
    Ok(effects)
}

/// The effects of a vector of one effect or more.
fn effect_vector(alloc: Global, form: &Form) -> Result<Vec<Effect>, RtlFault>
    ensures ok { IfOk result (λ effects. blocks.effect_vector (tree form.now) ≡ Ok (map effect effects.items)) }
    ensures err { IfErr result (Tells (λ fault at. blocks.effect_vector (tree form.now) ≡ Err (fault, at))) }
{
    let line = form.line;
    let Some(forms) = vector_in(form) else {
        return Err(RtlFault::BadShape { line });
    };
    if forms.is_empty() {
        return Err(RtlFault::BadShape { line });
    }
    effects_of(alloc, forms)
}

/// `(parallel [effect ..])`
#[tactic(auto, using(crate::proofs::EffectLemmas::no_parallel))]
fn parallel_with(alloc: Global, line: u32, operands: &[Form]) -> Result<Vec<Effect>, RtlFault>
    ensures ok { IfOk result (λ effects. blocks.parallel_with line (trees operands.now) ≡ Ok (map effect effects.items)) }
    ensures err { IfErr result (Tells (λ fault at. blocks.parallel_with line (trees operands.now) ≡ Err (fault, at))) }
{
    if operands.len() != 1 {
        return Err(RtlFault::BadShape { line });
    }
    let [effects] = operands else { unreachable!() };
    effect_vector(alloc, effects)
}

/// The effects of a pattern at a line that begins with a word.
fn pattern_headed(
    alloc: Global,
    line: u32,
    word: &[u8],
    operands: &[Form],
) -> Result<Vec<Effect>, RtlFault>
    ensures ok { IfOk result (λ effects. blocks.pattern_headed line word.now (trees operands.now) ≡ Ok (map effect effects.items)) }
    ensures err { IfErr result (Tells (λ fault at. blocks.pattern_headed line word.now (trees operands.now) ≡ Err (fault, at))) }
{
    if word == b"parallel".as_slice() {
        return parallel_with(alloc, line, operands);
    }
    let effect = effect_headed(alloc, line, word, operands)?;
    let mut effects = Vec::new(alloc);
    effects.push(effect)?;
    Ok(effects)
}

/// The effects of a pattern: one effect, or those of a `parallel`.
#[tactic(auto, using(crate::proofs::HeadLemmas::headed_says, crate::proofs::HeadLemmas::unheaded_says))]
pub fn pattern_of(alloc: Global, form: &Form) -> Result<Vec<Effect>, RtlFault>
    ensures ok { IfOk result (λ effects. blocks.pattern_of (tree form.now) ≡ Ok (map effect effects.items)) }
    ensures err { IfErr result (Tells (λ fault at. blocks.pattern_of (tree form.now) ≡ Err (fault, at))) }
{
    let line = form.line;
    match headed(form) {
        Some((word, operands)) => pattern_headed(alloc, line, word, operands),
        None => Err(RtlFault::BadShape { line }),
    }
}
