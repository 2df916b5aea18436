//! What a description holds.

ghost use Rattle.std.specs.Prelude.{◌≡◌, OnOk};
ghost use Rattle.hz_description_model.specs.Reading.Descriptions.{no_items};
ghost use Rattle.hz_description_model.specs.Reading.DescriptionForms as model;
ghost use Rattle.hz_mdread.specs.Shape.{addition, description};

use crate::items::{
    Addition, AttrItem, AutomatonItem, BypassItem, ClassItem, ReservationItem, SetItem, UnitItem,
};
use crate::options::Options;
use hz_regexp::NoMemory;
use std::alloc::Global;

/// The items of a description, each list in the order of the file.
#[derive(Debug, Drop)]
pub struct Description {
    pub automata: Vec<AutomatonItem>,
    pub units: Vec<UnitItem>,
    pub reservations: Vec<ReservationItem>,
    pub classes: Vec<ClassItem>,
    pub bypasses: Vec<BypassItem>,
    pub sets: Vec<SetItem>,
    pub attributes: Vec<AttrItem>,
    pub options: Options,
}

impl Description {
    /// No item and no option.
    pub(crate) fn new(alloc: Global) -> Description
        ensures { description result ≡ no_items }
    {
        Description {
            automata: Vec::new(alloc),
            units: Vec::new(alloc),
            reservations: Vec::new(alloc),
            classes: Vec::new(alloc),
            bypasses: Vec::new(alloc),
            sets: Vec::new(alloc),
            attributes: Vec::new(alloc),
            options: Options::none(),
        }
    }

    /// Adds what a form adds.
    pub(crate) fn add(&mut self, added: Addition) -> Result<(), NoMemory>
        ensures { OnOk result (description self.new ≡ model.with_addition (description self.old) (addition added)) }
    {
        match added {
            Addition::Automata(mut items) => Ok(self.automata.append(&mut items)?),
            Addition::Units(mut items) => Ok(self.units.append(&mut items)?),
            Addition::Reservation(item) => Ok(self.reservations.push(item)?),
            Addition::Class(item) => Ok(self.classes.push(item)?),
            Addition::Bypass(item) => Ok(self.bypasses.push(item)?),
            Addition::Set(item) => Ok(self.sets.push(item)?),
            Addition::Attribute(item) => Ok(self.attributes.push(item)?),
            Addition::Options(options) => {
                self.options = self.options.or(options);
                Ok(())
            }
        }
    }
}
