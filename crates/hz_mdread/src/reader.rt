//! The reader of descriptions.

ghost use Rattle.std.specs.Prelude.{◌<◌, ◌^◌, IfOk, IfErr, IsTrue};
ghost use Rattle.hz_description_model.specs.Reading.DescriptionForms.{Reads, FaultAt, form_count, strings_below};
ghost use Rattle.hz_description_model.specs.Reading.DescriptionShape.{IsWellFormed};
ghost use Rattle.hz_mdread.specs.Faults.{Tells};
ghost use Rattle.hz_mdread.specs.Shape.{description};
ghost use Rattle.hz_sexp.specs.Shape.{trees};

use crate::description::Description;
use crate::fault::MdFault;
use crate::forms::form_says;
use hz_sexp::Form;
use std::alloc::Global;

/// The description that forms say: fewer than 2^32 forms, of which each quoted string has fewer than
/// 2^32 bytes. Forms are judged in the order of the file; in one form first the number of operands,
/// then each operand from left to right. The first that is wrong decides which fault is reported, at the
/// line of its form; `NoMemory` where there was none. This profile, docs/RULES.md, 'Descriptions'.
pub fn read_description(alloc: Global, forms: &[Form]) -> Result<Description, MdFault>
    requires count { form_count (trees forms.now) < 2 ^ 32 }
    requires strings { IsTrue (strings_below (2 ^ 32) (trees forms.now)) }
    ensures reads { IfOk result (λ d. Reads (trees forms.now) (description d)) }
    ensures formed { IfOk result (λ d. IsWellFormed (description d)) }
    ensures faults { IfErr result (Tells (FaultAt (trees forms.now))) }
{
    let mut description = Description::new(alloc);
    for (number, form) in forms.iter().enumerate() {
        match form_says(alloc, number as u32, form) {
            Ok(added) => match description.add(added) {
                Ok(()) => {}
                Err(_) => return Err(MdFault::NoMemory),
            },
            Err(wrong) => return Err(wrong.at(form.line)),
        }
    }
    Ok(description)
}
