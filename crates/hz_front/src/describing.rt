//! The front of every command on a description: its forms, what they say, and its check.

ghost use Rattle.std.specs.Prelude.{◌⊎◌, ◌<◌, ◌^◌, IfOk, IfErr, IsTrue, length};
ghost use Rattle.hz_check.specs.Checked.{IsCheckedOf};
ghost use Rattle.hz_description_model.specs.Reading.Descriptions.{Description};
ghost use Rattle.hz_description_model.specs.Reading.DescriptionForms as description_forms;
ghost use Rattle.hz_sexp.specs.Shape.{trees};
ghost use Rattle.hz_front.specs.Refusals.{IsJudged};
ghost use Rattle.hz_front.specs.Fronts.{IsCheckedIn, TellsSaid, TellsDescribed};

use crate::judging::{judge_check, judge_description, judge_forms};
use crate::refusal::Refusal;
use hz_checked::Checked;
use hz_sexp::Form;
use std::alloc::Global;

/// The description that forms say, checked, or the refusal of the first fault of a form or of the fault that is reported.
fn judge_said<'a>(alloc: Global, file: &'a str, read: &[Form]) -> Result<Checked, Refusal<'a>>
    requires count { description_forms.form_count (trees read.now) < 2 ^ 32 }
    requires strings { IsTrue (description_forms.strings_below (2 ^ 32) (trees read.now)) }
    ensures ok { IfOk result (λ checked. (d : Description) × description_forms.Reads (trees read.now) d × IsCheckedOf d checked) }
    ensures kind { IfErr result IsJudged }
    ensures err { IfErr result (TellsSaid file.entry.now (trees read.now)) }
{
    match judge_description(alloc, file, read) {
        Ok(described) => judge_check(alloc, file, described),
        Err(refusal) => Err(refusal),
    }
}

/// The description that a text says, checked, or the refusal of what is wrong first: a form, what forms say, or the check.
pub fn judge_described<'a>(
    alloc: Global,
    file: &'a str,
    text: &[u8],
) -> Result<Checked, Refusal<'a>>
    requires { length text.now < 2 ^ 32 }
    ensures ok { IfOk result (IsCheckedIn text.now) }
    ensures kind { IfErr result IsJudged }
    ensures err { IfErr result (TellsDescribed file.entry.now text.now) }
{
    match judge_forms(alloc, file, text) {
        Ok(read) => judge_said(alloc, file, &read),
        Err(refusal) => Err(refusal),
    }
}
