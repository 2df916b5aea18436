//! The forms of a description, each by its operands: first their number decides, then each from left to right.

ghost use Rattle.std.specs.Prelude.{◌≡◌, ◌^◌, map, IfOk, IfErr, IsTrue, Ok, Err};
ghost use Rattle.std.specs.Option.{option_copied, option_map, ok_or};
ghost use Rattle.hz_description_model.specs.Reading.DescriptionForms as model;
ghost use Rattle.hz_mdread.specs.Classes.{class_head, class_with};
ghost use Rattle.hz_mdread.specs.Guards.{guard_said};
ghost use Rattle.hz_mdread.specs.Faults.{TellsOf};
ghost use Rattle.hz_mdread.specs.Reading.{reading};
ghost use Rattle.hz_mdread.specs.Shape.{addition, automaton_item, condition, unit_item, kind_in, set_kind};
ghost use Rattle.hz_sexp.specs.Shape.{tree, trees};

use crate::condition::Condition;
use crate::conditions::condition_in;
use crate::fault::Wrong;
use crate::items::{
    Addition, AttrItem, AutomatonItem, BypassItem, ClassItem, ReservationItem, SetForm, SetItem,
    UnitItem,
};
use crate::kinds::{FormKind, kind_of};
use crate::operands::{
    expression_in, fallback_in, guard_in, headed, is_named, limited_number, name_in, names_in,
    quoted_bytes, set_patterns,
};
use crate::options::options_of;
use hz_regexp::{Name, NoMemory};
use hz_sexp::Form;
use std::alloc::Global;

/// The line of a form, and its number in the file.
#[derive(Clone, Copy)]
pub struct Place {
    pub line: u32,
    pub form: u32,
}

/// The automata of these names.
fn automaton_items(
    alloc: Global,
    place: Place,
    names: Vec<Name>,
) -> Result<Vec<AutomatonItem>, NoMemory>
    ensures { IfOk result (λ items. map automaton_item items.items ≡ model.automaton_items place.line place.form names.items) }
{
    let mut items = Vec::with_capacity(alloc, names.len())?;
    for name in names {
        items.push(AutomatonItem {
            line: place.line,
            form: place.form,
            name,
        })?;
    }
    Ok(items)
}

/// An equal name, if there is one.
fn copy_of(name: Option<&Name>) -> Result<Option<Name>, NoMemory>
    ensures { IfOk result (λ copy. copy ≡ option_copied name.entry) }
{
    match name {
        Some(name) => Ok(Some(name.copy()?)),
        None => Ok(None),
    }
}

/// The units of these names, each of this automaton. All of them are query units, or none is.
fn unit_items(
    alloc: Global,
    place: Place,
    names: Vec<Name>,
    automaton: Option<&Name>,
    query: bool,
) -> Result<Vec<UnitItem>, NoMemory>
    ensures { IfOk result (λ items. map unit_item items.items ≡ model.unit_items place.line place.form query (option_copied automaton.entry) names.items) }
{
    let mut items = Vec::with_capacity(alloc, names.len())?;
    for name in names {
        items.push(UnitItem {
            line: place.line,
            form: place.form,
            name,
            automaton: copy_of(automaton)?,
            query,
        })?;
    }
    Ok(items)
}

/// A name, or `BadShape`.
fn name_at(alloc: Global, form: &Form) -> Result<Name, Wrong>
    ensures ok { IfOk result (λ name. model.shaped (model.name_in (tree form.now)) ≡ Ok name) }
    ensures err { IfErr result (TellsOf (λ fault. model.shaped (model.name_in (tree form.now)) ≡ Err fault)) }
{
    match name_in(alloc, form)? {
        Some(name) => Ok(name),
        None => Err(Wrong::BadShape),
    }
}

/// A list of names, or `BadShape`.
fn names_at(alloc: Global, form: &Form) -> Result<Vec<Name>, Wrong>
    ensures ok { IfOk result (λ names. model.shaped (model.names_in (tree form.now)) ≡ Ok names.items) }
    ensures err { IfErr result (TellsOf (λ fault. model.shaped (model.names_in (tree form.now)) ≡ Err fault)) }
{
    match names_in(alloc, form)? {
        Some(names) => Ok(names),
        None => Err(Wrong::BadShape),
    }
}

/// `(define_automaton "names")`
#[tactic(auto, using(crate::proofs::OperandLemmas::no_automata))]
fn automata_form(alloc: Global, place: Place, operands: &[Form]) -> Result<Addition, Wrong>
    ensures ok { IfOk result (λ added. model.automata_form place.line place.form (trees operands.now) ≡ Ok (addition added)) }
    ensures err { IfErr result (TellsOf (λ fault. model.automata_form place.line place.form (trees operands.now) ≡ Err fault)) }
{
    if operands.len() != 1 {
        return Err(Wrong::BadShape);
    }
    let [names] = operands else { unreachable!() };
    let names = names_at(alloc, names)?;
    Ok(Addition::Automata(automaton_items(alloc, place, names)?))
}

/// `(define_cpu_unit "names")` and `(define_cpu_unit "names" "automaton")`, and the same of `define_query_cpu_unit`
#[tactic(auto, using(crate::proofs::OperandLemmas::no_units))]
fn units_form(
    alloc: Global,
    place: Place,
    query: bool,
    operands: &[Form],
) -> Result<Addition, Wrong>
    ensures ok { IfOk result (λ added. model.units_form place.line place.form query (trees operands.now) ≡ Ok (addition added)) }
    ensures err { IfErr result (TellsOf (λ fault. model.units_form place.line place.form query (trees operands.now) ≡ Err fault)) }
{
    if operands.len() == 1 {
        let [names] = operands else { unreachable!() };
        let names = names_at(alloc, names)?;
        return Ok(Addition::Units(unit_items(alloc, place, names, None, query)?));
    }
    if operands.len() != 2 {
        return Err(Wrong::BadShape);
    }
    let [names, automaton] = operands else {
        unreachable!()
    };
    let names = names_at(alloc, names)?;
    let automaton = name_at(alloc, automaton)?;
    let items = unit_items(alloc, place, names, Some(&automaton), query)?;
    Ok(Addition::Units(items))
}

/// `(define_reservation "name" "regexp")`
#[tactic(auto, using(crate::proofs::OperandLemmas::no_reservation))]
fn reservation_form(alloc: Global, place: Place, operands: &[Form]) -> Result<Addition, Wrong>
    requires { IsTrue (model.strings_below (2 ^ 32) (trees operands.now)) }
    ensures ok { IfOk result (λ added. model.reservation_form place.line place.form reading (trees operands.now) ≡ Ok (addition added)) }
    ensures err { IfErr result (TellsOf (λ fault. model.reservation_form place.line place.form reading (trees operands.now) ≡ Err fault)) }
{
    if operands.len() != 2 {
        return Err(Wrong::BadShape);
    }
    let [name, regexp] = operands else {
        unreachable!()
    };
    let name = name_at(alloc, name)?;
    let expr = expression_in(alloc, regexp)?;
    Ok(Addition::Reservation(ReservationItem {
        line: place.line,
        form: place.form,
        name,
        expr,
    }))
}

/// A condition, or `BadCondition`.
fn condition_at(alloc: Global, form: &Form) -> Result<Condition, Wrong>
    ensures ok { IfOk result (λ test. ok_or (model.condition_in (tree form.now)) model.bad_condition ≡ Ok (condition test)) }
    ensures err { IfErr result (TellsOf (λ fault. ok_or (model.condition_in (tree form.now)) model.bad_condition ≡ Err fault)) }
{
    match condition_in(alloc, form)? {
        Some(test) => Ok(test),
        None => Err(Wrong::BadCondition),
    }
}

/// The name and the latency of a class. The limit of the latency is asked before memory for the name is.
#[tactic(auto, unfolding(crate::specs::Classes::class_head))]
fn class_head(alloc: Global, name: &Form, latency: &Form) -> Result<(Name, u32), Wrong>
    ensures ok { IfOk result (λ head. class_head (tree name.now) (tree latency.now) ≡ Ok head) }
    ensures err { IfErr result (TellsOf (λ fault. class_head (tree name.now) (tree latency.now) ≡ Err fault)) }
{
    if !is_named(name) {
        return Err(Wrong::BadShape);
    }
    let latency = limited_number(latency)?;
    let name = name_at(alloc, name)?;
    Ok((name, latency))
}

/// The class of a name and a latency, by the operands after them.
#[tactic(auto, unfolding(crate::specs::Classes::class_with))]
fn class_with(
    alloc: Global,
    place: Place,
    head: (Name, u32),
    condition: &Form,
    regexp: &Form,
) -> Result<Addition, Wrong>
    requires { IsTrue (model.string_below (2 ^ 32) (tree regexp.now)) }
    ensures ok { IfOk result (λ added. class_with place.line place.form head (tree condition.now) (tree regexp.now) ≡ Ok (addition added)) }
    ensures err { IfErr result (TellsOf (λ fault. class_with place.line place.form head (tree condition.now) (tree regexp.now) ≡ Err fault)) }
{
    let condition = condition_at(alloc, condition)?;
    let expr = expression_in(alloc, regexp)?;
    let (name, latency) = head;
    Ok(Addition::Class(ClassItem {
        line: place.line,
        form: place.form,
        name,
        latency,
        condition,
        expr,
    }))
}

/// `(define_insn_reservation "name" latency condition "regexp")`
#[tactic(auto, using(crate::proofs::OperandLemmas::no_class))]
fn class_form(alloc: Global, place: Place, operands: &[Form]) -> Result<Addition, Wrong>
    requires { IsTrue (model.strings_below (2 ^ 32) (trees operands.now)) }
    ensures ok { IfOk result (λ added. model.class_form place.line place.form reading (trees operands.now) ≡ Ok (addition added)) }
    ensures err { IfErr result (TellsOf (λ fault. model.class_form place.line place.form reading (trees operands.now) ≡ Err fault)) }
{
    if operands.len() != 4 {
        return Err(Wrong::BadShape);
    }
    let [name, latency, condition, regexp] = operands else {
        unreachable!()
    };
    let head = class_head(alloc, name, latency)?;
    class_with(alloc, place, head, condition, regexp)
}

/// Whether a string that says another guard than that of stores comes after three operands.
#[tactic(auto, using(crate::proofs::OperandLemmas::no_guard))]
fn has_other_guard(operands: &[Form]) -> bool
    ensures { result ≡ model.has_other_guard (trees operands.now) }
{
    operands.len() > 3 && matches!(guard_in(&operands[3]), Some(false))
}

/// Whether a bypass has the guard: not where there is no operand for it, and else by the string that this is, or `BadShape`.
fn guard_at(operand: Option<&Form>) -> Result<bool, Wrong>
    ensures ok { IfOk result (λ guard. guard_said (option_map tree (option_copied operand.entry)) ≡ Ok guard) }
    ensures err { IfErr result (TellsOf (λ fault. guard_said (option_map tree (option_copied operand.entry)) ≡ Err fault)) }
{
    let Some(operand) = operand else {
        return Ok(false);
    };
    match guard_in(operand) {
        Some(guard) => Ok(guard),
        None => Err(Wrong::BadShape),
    }
}

/// A bypass by its operands, the guard as it was given.
fn bypass_with(
    alloc: Global,
    place: Place,
    number: &Form,
    outs: &Form,
    ins: &Form,
    guard: Option<&Form>,
) -> Result<Addition, Wrong>
    ensures ok { IfOk result (λ added. model.bypass_with place.line place.form (tree number.now) (tree outs.now) (tree ins.now) (guard_said (option_map tree (option_copied guard.entry))) ≡ Ok (addition added)) }
    ensures err { IfErr result (TellsOf (λ fault. model.bypass_with place.line place.form (tree number.now) (tree outs.now) (tree ins.now) (guard_said (option_map tree (option_copied guard.entry))) ≡ Err fault)) }
{
    let number = limited_number(number)?;
    let outs = names_at(alloc, outs)?;
    let ins = names_at(alloc, ins)?;
    let guard = guard_at(guard)?;
    Ok(Addition::Bypass(BypassItem {
        line: place.line,
        form: place.form,
        number,
        outs,
        ins,
        guard,
    }))
}

/// A bypass by all its operands, where no string says another guard.
fn bypass_of(alloc: Global, place: Place, operands: &[Form]) -> Result<Addition, Wrong>
    ensures ok { IfOk result (λ added. model.bypass_of place.line place.form (trees operands.now) ≡ Ok (addition added)) }
    ensures err { IfErr result (TellsOf (λ fault. model.bypass_of place.line place.form (trees operands.now) ≡ Err fault)) }
{
    if operands.len() == 3 {
        let [number, outs, ins] = operands else {
            unreachable!()
        };
        return bypass_with(alloc, place, number, outs, ins, None);
    }
    if operands.len() != 4 {
        return Err(Wrong::BadShape);
    }
    let [number, outs, ins, guard] = operands else {
        unreachable!()
    };
    bypass_with(alloc, place, number, outs, ins, Some(guard))
}

/// `(define_bypass number "outs" "ins")` and `(define_bypass number "outs" "ins" "store_data_bypass_p")`
fn bypass_form(alloc: Global, place: Place, operands: &[Form]) -> Result<Addition, Wrong>
    ensures ok { IfOk result (λ added. model.bypass_form place.line place.form (trees operands.now) ≡ Ok (addition added)) }
    ensures err { IfErr result (TellsOf (λ fault. model.bypass_form place.line place.form (trees operands.now) ≡ Err fault)) }
{
    if has_other_guard(operands) {
        return Err(Wrong::UnknownGuard);
    }
    bypass_of(alloc, place, operands)
}

/// `(exclusion_set "units" "units")`, and the four others with patterns as the second string
#[tactic(auto, using(crate::proofs::OperandLemmas::no_set))]
fn set_form(
    alloc: Global,
    place: Place,
    kind: SetForm,
    operands: &[Form],
) -> Result<Addition, Wrong>
    ensures ok { IfOk result (λ added. model.set_form_of place.line place.form (set_kind kind) (trees operands.now) ≡ Ok (addition added)) }
    ensures err { IfErr result (TellsOf (λ fault. model.set_form_of place.line place.form (set_kind kind) (trees operands.now) ≡ Err fault)) }
{
    if operands.len() != 2 {
        return Err(Wrong::BadShape);
    }
    let [units, patterns] = operands else {
        unreachable!()
    };
    let units = names_at(alloc, units)?;
    let Some(patterns) = set_patterns(alloc, kind, patterns)? else {
        return Err(Wrong::BadShape);
    };
    Ok(Addition::Set(SetItem {
        line: place.line,
        form: place.form,
        kind,
        units,
        patterns,
    }))
}

/// `(automata_option "options")`
#[tactic(auto, using(crate::proofs::OperandLemmas::no_options))]
fn options_form(alloc: Global, operands: &[Form]) -> Result<Addition, Wrong>
    ensures ok { IfOk result (λ added. model.options_form (trees operands.now) ≡ Ok (addition added)) }
    ensures err { IfErr result (TellsOf (λ fault. model.options_form (trees operands.now) ≡ Err fault)) }
{
    if operands.len() != 1 {
        return Err(Wrong::BadShape);
    }
    let [words] = operands else { unreachable!() };
    let Some(bytes) = quoted_bytes(words) else {
        return Err(Wrong::BadShape);
    };
    match options_of(alloc, bytes)? {
        Some(options) => Ok(Addition::Options(options)),
        None => Err(Wrong::UnknownOption),
    }
}

/// `(define_attr "name" "values" (const_string "value"))`
#[tactic(auto, using(crate::proofs::OperandLemmas::no_attribute))]
fn attribute_form(alloc: Global, place: Place, operands: &[Form]) -> Result<Addition, Wrong>
    ensures ok { IfOk result (λ added. model.attribute_form place.line place.form (trees operands.now) ≡ Ok (addition added)) }
    ensures err { IfErr result (TellsOf (λ fault. model.attribute_form place.line place.form (trees operands.now) ≡ Err fault)) }
{
    if operands.len() != 3 {
        return Err(Wrong::BadShape);
    }
    let [name, values, fallback] = operands else {
        unreachable!()
    };
    let name = name_at(alloc, name)?;
    let values = names_at(alloc, values)?;
    let Some(fallback) = fallback_in(alloc, fallback)? else {
        return Err(Wrong::BadShape);
    };
    Ok(Addition::Attribute(AttrItem {
        line: place.line,
        form: place.form,
        name,
        values,
        fallback,
    }))
}

/// A form of a kind.
fn form_of_kind(
    alloc: Global,
    place: Place,
    kind: FormKind,
    operands: &[Form],
) -> Result<Addition, Wrong>
    requires { IsTrue (model.strings_below (2 ^ 32) (trees operands.now)) }
    ensures ok { IfOk result (λ added. model.form_of_kind place.line place.form reading (kind_in kind) (trees operands.now) ≡ Ok (addition added)) }
    ensures err { IfErr result (TellsOf (λ fault. model.form_of_kind place.line place.form reading (kind_in kind) (trees operands.now) ≡ Err fault)) }
{
    match kind {
        FormKind::DefineAutomaton => automata_form(alloc, place, operands),
        FormKind::DefineCpuUnit { query } => units_form(alloc, place, query, operands),
        FormKind::DefineReservation => reservation_form(alloc, place, operands),
        FormKind::DefineInsnReservation => class_form(alloc, place, operands),
        FormKind::DefineBypass => bypass_form(alloc, place, operands),
        FormKind::SetStatement(kind) => set_form(alloc, place, kind, operands),
        FormKind::AutomataOption => options_form(alloc, operands),
        FormKind::DefineAttr => attribute_form(alloc, place, operands),
    }
}

/// What the form of a number in the file says.
pub fn form_says(alloc: Global, number: u32, form: &Form) -> Result<Addition, Wrong>
    requires { IsTrue (model.string_below (2 ^ 32) (tree form.now)) }
    ensures ok { IfOk result (λ added. model.form_says reading number (tree form.now) ≡ Ok (addition added)) }
    ensures err { IfErr result (TellsOf (λ fault. model.form_says reading number (tree form.now) ≡ Err fault)) }
{
    let Some((word, operands)) = headed(form) else {
        return Err(Wrong::UnknownForm);
    };
    let Some(kind) = kind_of(word) else {
        return Err(Wrong::UnknownForm);
    };
    let place = Place {
        line: form.line,
        form: number,
    };
    form_of_kind(alloc, place, kind, operands)
}
