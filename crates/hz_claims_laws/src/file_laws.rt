//! Files of forms that a plain writer makes are read back: `Files` of `specs`.

ghost use Rattle.std.specs.Prelude.{◌≡◌, ◌≤◌, ℕ, List, ◌∷◌, ◌++◌, codes, Ok};
ghost use Rattle.hz_base_model.specs.Forms.Forms as texts;
ghost use Rattle.hz_base_model.specs.Forms.Trees.{Trees, list, atom, quoted, none, more};
ghost use Rattle.hz_description_model.specs.Reading.AddedItems.{HasItems};
ghost use Rattle.hz_description_model.specs.Reading.DescriptionForms.{Said, Addition, options, IsReading, Reads, form_says};
ghost use Rattle.hz_description_model.specs.Reading.Descriptions.{Description, no_options};
ghost use Rattle.hz_claims_laws.specs.Files.{AreFrom, WriteEach, HasGiven, file_text, greatest_depth};

/// The text of forms says these forms, each with its line: one more than there are line feeds before it. At most 64 brackets are open in it.
pub fn files_say_the_forms_that_they_write()
    ensures read { (forms : Trees) → AreFrom 1 forms → greatest_depth forms ≤ 64 → texts.Reads (file_text forms) forms }
    ensures example { file_text (more (list 1 (more (atom 1 (codes "define_cpu_unit")) (more (quoted 1 (codes "alu, mul")) (more (quoted 2 (codes "core")) none)))) (more (atom 2 (codes "x")) none)) ≡ codes "(define_cpu_unit " ++ (34 ∷ (codes "alu, mul" ++ (34 ∷ 10 ∷ 34 ∷ (codes "core" ++ (34 ∷ codes ") x\n"))))) }
{}

/// The text of a description, form by form as the manual has them, with any spaces in its lists, says this description. It has what the
/// forms write, in the order of the file: each operand in its place, each item with the line and the number of its form. `read` is what texts say as
/// expressions.
pub fn files_say_the_descriptions_that_they_write()
    ensures { (read : List ℕ → Said) (forms : Trees) (additions : List Addition) → IsReading read → WriteEach read 0 forms additions → AreFrom 1 forms → greatest_depth forms ≤ 64
        → (d : Description) × texts.Reads (file_text forms) forms × Reads forms d × HasItems d additions × HasGiven d.options additions }
{}

/// Options that change nothing.
pub fn silent_options_add_nothing()
    ensures time { (read : List ℕ → Said) (n line head string : ℕ) → form_says read n (list line (more (atom head (codes "automata_option")) (more (quoted string (codes "time")) none))) ≡ Ok (options no_options) }
    ensures progress { (read : List ℕ → Said) (n line head string : ℕ) → form_says read n (list line (more (atom head (codes "automata_option")) (more (quoted string (codes "progress")) none))) ≡ Ok (options no_options) }
    ensures w { (read : List ℕ → Said) (n line head string : ℕ) → form_says read n (list line (more (atom head (codes "automata_option")) (more (quoted string (codes "w")) none))) ≡ Ok (options no_options) }
{}
