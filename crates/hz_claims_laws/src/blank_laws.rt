//! White space in the strings of a description: what texts of lists, of patterns, of tests and of options say, whatever white space they
//! have, and that no other text says anything. `Blanks` of `specs` says them by cases.

ghost use Rattle.std.specs.Prelude.{◌≡◌, ◌↔◌, ℕ, List, codes, Some, Ok, IsTrue};
ghost use Rattle.hz_base_model.specs.Forms.Trees.{Tree, list, atom, quoted, none, more};
ghost use Rattle.hz_base_model.specs.Names.{is_name};
ghost use Rattle.hz_description_model.specs.Reading.DescriptionForms.{Said, Addition, options, names_in, patterns_in, condition_in, form_says};
ghost use Rattle.hz_description_model.specs.Reading.Descriptions.{Condition, Options, no_options};
ghost use Rattle.hz_claims_laws.specs.Blanks.{ListsNames, ListsPatterns, WritesTest, GiveOptions};
ghost use Rattle.hz_claims_laws.specs.FreeForms.{SaysCondition, WritesFreely};

/// A string is a list of names exactly if it has names with commas between them, and white space or nothing before and after each. So
/// lists that differ in white space alone are the same.
pub fn lists_are_names_between_commas()
    ensures { (line : ℕ) (text : List ℕ) (names : List (List ℕ)) → names_in (quoted line text) ≡ Some names ↔ ListsNames text names }
{}

/// A string is patterns exactly if it has patterns with commas between them; each is names with white space between them, and white space
/// or nothing at its ends.
pub fn patterns_are_names_between_white_space()
    ensures { (line : ℕ) (text : List ℕ) (patterns : List (List (List ℕ))) → patterns_in (quoted line text) ≡ Some patterns ↔ ListsPatterns text patterns }
{}

/// A test of an attribute asks for one of the listed values, or after a `!` for none of them. White space may come before and after the
/// `!`, and a list whose first name begins with `!` is one after a `!`.
pub fn tests_are_lists_after_a_mark_or_none()
    ensures { (line word name_line text_line : ℕ) (name text : List ℕ) (test : Condition) →
        condition_in (list line (more (atom word (codes "eq_attr")) (more (quoted name_line name) (more (quoted text_line text) none)))) ≡ Some test
        ↔ (IsTrue (is_name name) × WritesTest name text test) }
{}

/// A form of options has options with commas between them, and white space or nothing before and after each.
pub fn options_are_words_between_commas()
    ensures { (read : List ℕ → Said) (n line word text_line : ℕ) (text : List ℕ) (o : Options) →
        form_says read n (list line (more (atom word (codes "automata_option")) (more (quoted text_line text) none))) ≡ Ok (options o)
        ↔ ((words : List (List ℕ)) × ListsNames text words × GiveOptions words no_options o) }
{}

/// A form says an addition exactly if it writes it: each operand in its place and on any line, with any white space in its lists, patterns,
/// tests and options. So each form that is written otherwise has a fault. The same holds of conditions.
pub fn forms_say_exactly_what_they_write()
    ensures forms { (read : List ℕ → Said) (n : ℕ) (form : Tree) (addition : Addition) → form_says read n form ≡ Ok addition ↔ WritesFreely read n form addition }
    ensures conditions { (form : Tree) (test : Condition) → condition_in form ≡ Some test ↔ SaysCondition form test }
{}
