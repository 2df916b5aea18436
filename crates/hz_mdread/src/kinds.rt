//! The kinds of forms, by the words that they begin with.

ghost use Rattle.std.specs.Prelude.{◌≡◌};
ghost use Rattle.std.specs.Option.{option_map};
ghost use Rattle.hz_description_model.specs.Reading.DescriptionForms as model;
ghost use Rattle.hz_mdread.specs.Shape.{kind_in, set_kind};

use crate::items::SetForm;

/// The kinds of forms.
#[derive(Clone, Copy)]
pub enum FormKind {
    DefineAutomaton,
    /// `define_cpu_unit` or, of query units, `define_query_cpu_unit`
    DefineCpuUnit { query: bool },
    DefineReservation,
    DefineInsnReservation,
    DefineBypass,
    SetStatement(SetForm),
    AutomataOption,
    DefineAttr,
}

/// The set form that begins with a word.
fn set_of(word: &[u8]) -> Option<SetForm>
    ensures { option_map set_kind result ≡ model.set_of word.now }
{
    if word == b"exclusion_set".as_slice() {
        Some(SetForm::Exclusion)
    } else if word == b"presence_set".as_slice() {
        Some(SetForm::Presence)
    } else if word == b"final_presence_set".as_slice() {
        Some(SetForm::FinalPresence)
    } else if word == b"absence_set".as_slice() {
        Some(SetForm::Absence)
    } else if word == b"final_absence_set".as_slice() {
        Some(SetForm::FinalAbsence)
    } else {
        None
    }
}

/// The kind of the forms that begin with a word, if there is one.
pub fn kind_of(word: &[u8]) -> Option<FormKind>
    ensures { option_map kind_in result ≡ model.kind_of word.now }
{
    if word == b"define_automaton".as_slice() {
        Some(FormKind::DefineAutomaton)
    } else if word == b"define_cpu_unit".as_slice() {
        Some(FormKind::DefineCpuUnit { query: false })
    } else if word == b"define_query_cpu_unit".as_slice() {
        Some(FormKind::DefineCpuUnit { query: true })
    } else if word == b"define_reservation".as_slice() {
        Some(FormKind::DefineReservation)
    } else if word == b"define_insn_reservation".as_slice() {
        Some(FormKind::DefineInsnReservation)
    } else if word == b"define_bypass".as_slice() {
        Some(FormKind::DefineBypass)
    } else if word == b"automata_option".as_slice() {
        Some(FormKind::AutomataOption)
    } else if word == b"define_attr".as_slice() {
        Some(FormKind::DefineAttr)
    } else {
        match set_of(word) {
            Some(kind) => Some(FormKind::SetStatement(kind)),
            None => None,
        }
    }
}
