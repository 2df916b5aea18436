//! Laws of compiled machines that are compared.

ghost use Rattle.std.specs.Prelude.{◌↔◌, ℕ, List, map};
ghost use Rattle.hz_description_model.specs.Check.CheckFaults.{IsSound};
ghost use Rattle.hz_description_model.specs.Check.CheckedParts.{automata_of, class_parts};
ghost use Rattle.hz_description_model.specs.Check.Places.{Known};
ghost use Rattle.hz_description_model.specs.Reading.Descriptions.{Description};
ghost use Rattle.hz_pipeline_model.specs.Compiling.Compiled.{Report, IsCompiled};
ghost use Rattle.hz_pipeline_model.specs.Tables.Machines.{Machine};
ghost use Rattle.hz_tabtext_model.specs.Texts.{TableText};
ghost use Rattle.hz_answer_model.specs.TableAnswers.{IsTablesOf};
ghost use Rattle.hz_same_model.specs.Telling.{AnswerTheSame, TellsApart};
ghost use Rattle.hz_same_laws.specs.Shown.{AcceptTheSame, IsShown};

/// The machines that are compiled of two descriptions answer the same exactly if the descriptions accept the same, by the names
/// that both have: so do the machines of two tables texts that are compiled of them.
pub fn machines_answer_the_same_if_descriptions_accept_the_same()
    ensures machines { (d e : Description) (known also : Known) → IsSound d known → IsSound e also → (m n : Machine) (reports others : List Report) → IsCompiled d.options (automata_of d) (map (class_parts d known) d.classes) m reports → IsCompiled e.options (automata_of e) (map (class_parts e also) e.classes) n others → AnswerTheSame m n ↔ AcceptTheSame d known e also m n }
    ensures texts { (d e : Description) (known also : Known) → IsSound d known → IsSound e also → (text other : List ℕ) → IsTablesOf d known text → IsTablesOf e also other → (m n : Machine) → TableText text m → TableText other n → AnswerTheSame m n ↔ AcceptTheSame d known e also m n }
{}

/// Both descriptions accept a trace on which the compiled machines differ up to its last event, and exactly one takes that: it
/// accepts the issue, or has the unit reserved that is asked for.
pub fn traces_that_differ_show_it_of_descriptions()
    ensures { (d e : Description) (known also : Known) → IsSound d known → IsSound e also → (m n : Machine) (reports others : List Report) → IsCompiled d.options (automata_of d) (map (class_parts d known) d.classes) m reports → IsCompiled e.options (automata_of e) (map (class_parts e also) e.classes) n others → (before : List ℕ) (last : ℕ) → TellsApart m n before last → IsShown d known e also m n before last }
{}
