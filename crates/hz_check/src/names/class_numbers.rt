//! The numbers of classes by their names.

ghost use Rattle.std.specs.Prelude.{◌≡◌, IfOk};
ghost use Rattle.hz_mdread.specs.Shape.{description};
ghost use Rattle.hz_description_model.specs.Check.CheckedParts.{class_numbers};

use crate::names::Names;
use hz_regexp::{Name, NoMemory};
use std::alloc::Global;

/// The numbers of the classes of these names.
pub(crate) fn class_numbers<'a>(
    alloc: Global,
    names: &Names<'a>,
    classes: &'a [Name],
) -> Result<Vec<usize>, NoMemory>
    ensures { IfOk result (λ numbers. numbers.items ≡ class_numbers (description names.now.desc.now) classes.now) }
{
    let mut numbers = Vec::new(alloc);
    for class in classes {
        if let Some(number) = names.classes.find(class) {
            numbers.push(*number)?;
        }
    }
    Ok(numbers)
}
