//! The reader of states.

ghost use Rattle.std.specs.Prelude.{◌≡◌, [], IfOk, IfErr, Ok, Err, map};
ghost use Rattle.hz_block_model.specs.Texts.StateForms as model;
ghost use Rattle.hz_rtl.specs.Codes.{target_code};
ghost use Rattle.hz_rtl.specs.Faults.{Tells};
ghost use Rattle.hz_rtl.specs.States.{words};
ghost use Rattle.hz_rtl.specs.Stores.{place, store};
ghost use Rattle.hz_sexp.specs.Shape.{tree, trees};

use crate::fault::RtlFault;
use crate::reading::codes::{PlaceCode, place_code};
use crate::reading::given::Given;
use crate::reading::operands::{headed, register_in, word_in};
use crate::running::evaluation::all_stored;
use crate::running::store::{Spot, Store};
use crate::state::State;
use hz_sexp::Form;
use std::alloc::Global;

/// The register or cell of an operand.
fn spot_of(code: PlaceCode, operand: &Form) -> Result<Spot, RtlFault>
    ensures ok { IfOk result (λ spot. model.place_of (target_code code) (tree operand.now) ≡ Ok (place spot)) }
    ensures err { IfErr result (Tells (λ fault at. model.place_of (target_code code) (tree operand.now) ≡ Err (fault, at))) }
{
    match code {
        PlaceCode::Reg => Ok(Spot::Register(register_in(operand)?)),
        PlaceCode::Mem => Ok(Spot::Cell(word_in(operand)?)),
    }
}

/// `(reg N V)` or `(mem A V)`, after what is given
#[tactic(auto, using(crate::proofs::EffectLemmas::no_store, crate::proofs::HeadLemmas::line_is))]
fn store_with(
    given: &Given,
    line: u32,
    code: PlaceCode,
    operands: &[Form],
) -> Result<Store, RtlFault>
    ensures ok { IfOk result (λ one. model.store_with (map store given.now.stores.items) line (target_code code) (trees operands.now) ≡ Ok (store one)) }
    ensures err { IfErr result (Tells (λ fault at. model.store_with (map store given.now.stores.items) line (target_code code) (trees operands.now) ≡ Err (fault, at))) }
{
    if operands.len() != 2 {
        return Err(RtlFault::BadShape { line });
    }
    let [first, second] = operands else {
        unreachable!()
    };
    let spot = spot_of(code, first)?;
    if given.gives(spot) {
        return Err(RtlFault::Twice { line: first.line });
    }
    let word = word_in(second)?;
    Ok(Store { spot, word })
}

/// What a form gives, after what is given.
#[tactic(auto, using(crate::proofs::HeadLemmas::headed_says, crate::proofs::HeadLemmas::unheaded_says))]
fn store_of(given: &Given, form: &Form) -> Result<Store, RtlFault>
    ensures ok { IfOk result (λ one. model.store_of (map store given.now.stores.items) (tree form.now) ≡ Ok (store one)) }
    ensures err { IfErr result (Tells (λ fault at. model.store_of (map store given.now.stores.items) (tree form.now) ≡ Err (fault, at))) }
{
    let line = form.line;
    let Some((word, operands)) = headed(form) else {
        return Err(RtlFault::BadShape { line });
    };
    match place_code(word) {
        Some(code) => store_with(given, line, code, operands),
        None => Err(RtlFault::BadShape { line }),
    }
}

/// What forms give.
fn stores_of(alloc: Global, forms: &[Form]) -> Result<Vec<Store>, RtlFault>
    ensures ok { IfOk result (λ stores. model.stores_after [] (trees forms.now) ≡ Ok (map store stores.items)) }
    ensures err { IfErr result (Tells (model.FaultAt (trees forms.now))) }
{
    let mut given = Given::new(alloc);
    for form in forms {
        let store = store_of(&given, form)?;
        given = given.add(store)?;
    }
    Ok(given.into_stores())
}

/// The state that forms give; what isn't given is 0. Forms are judged in their order; in a list first the word that it begins
/// with, then the number of its operands, then each of them from left to right. The first that is wrong decides which fault is
/// reported, at the line of the innermost form that is wrong; `NoMemory` where there was none, and never `InsnLimit`. This profile,
/// docs/RULES.md, 'Blocks'.
pub fn read_state(alloc: Global, forms: &[Form]) -> Result<State, RtlFault>
    ensures reads { IfOk result (λ state. model.Reads (trees forms.now) (words state)) }
    ensures faults { IfErr result (Tells (model.FaultAt (trees forms.now))) }
{
    let stores = stores_of(alloc, forms)?;
    let empty = State::new(alloc)?;
    let state = all_stored(empty, &stores)?;
    Ok(state)
}
