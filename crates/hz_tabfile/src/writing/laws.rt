//! Laws of what is written.

ghost use Rattle.std.specs.Prelude.{◌≡◌, map};
ghost use Rattle.hz_mdread.specs.Shape.{options as options_of};
ghost use Rattle.hz_checked.specs.Shape.{automaton_of, class_of};
ghost use Rattle.hz_checked.specs.declared.checked.Checked.{Checked};
ghost use Rattle.hz_tables.specs.Machines.{machine_of};
ghost use Rattle.hz_auto.specs.declared.compiled.Compiled.{Compiled};
ghost use Rattle.hz_auto.specs.Machines.{reports_of};
ghost use Rattle.hz_pipeline_model.specs.Compiling.Compiled.{IsCompiled};
ghost use Rattle.hz_tabfile.specs.Saying.{IsSayable};

/// What is compiled of a checked description can be written beside it.
pub fn compiled_descriptions_are_sayable()
    ensures { (all : Compiled) (checked : Checked) → IsCompiled (options_of checked.options) (map automaton_of checked.automata.items) (map class_of checked.classes.items) (machine_of all.machine) (reports_of all.reports.items) → all.options ≡ checked.options → IsSayable all checked }
{}
