//! The numbers of reservations by their names.

ghost use Rattle.std.specs.Prelude.{◌≡◌, ◌++◌, ℕ, List, map, IfOk, OnOk};
ghost use Rattle.std.specs.List.{filter_map};
ghost use Rattle.hz_mdread.specs.Shape.{reservation_item};
ghost use Rattle.hz_description_model.specs.Reservations.NamesIn.{names_in, names_in_parts};
ghost use Rattle.hz_description_model.specs.Reservations.Alternatives.{parts_of};
ghost use Rattle.hz_base_model.specs.Lines.{place_of};
ghost use Rattle.hz_regexp.specs.Shape.{expression, expressions};
ghost use Rattle.hz_check_reservations.specs.Numbers.{number_in};

use hz_mdread::ReservationItem;
use hz_regexp::{Expr, Name, NoMemory};
use std::alloc::Global;
use std::collections::BTreeMap;

/// The place of the first reservation of each name.
#[derive(Drop)]
pub struct Numbers {
    names: BTreeMap<Name, usize>,
}

impl Numbers {
    /// The numbers of these reservations.
    pub fn of(alloc: Global, reservations: &[ReservationItem]) -> Result<Numbers, NoMemory>
        ensures { IfOk result (λ numbers. (name : List ℕ) → number_in numbers name ≡ place_of name (map (λ r. r.name) (map reservation_item reservations.now))) }
    {
        let mut names = BTreeMap::new(alloc);
        for i in (0..reservations.len()).rev() {
            let name = reservations[i].name.copy()?;
            names.insert(name, i)?;
        }
        Ok(Numbers { names })
    }

    /// The number of the reservation of a name, if there is one.
    pub fn find(&self, name: &Name) -> Option<usize>
        ensures { result ≡ number_in self.now name.now }
    {
        self.names.get(name).copied()
    }

    /// Adds the numbers of the reservations that an expression names, from left to right.
    #[cycle(naming)]
    pub fn add_named(&self, expr: &Expr, named: &mut Vec<usize>) -> Result<(), NoMemory>
        ensures { OnOk result (named.new.items ≡ named.old.items ++ filter_map (number_in self.now) (names_in (expression expr.now))) }
    {
        match expr {
            Expr::Named(name) => {
                if let Some(number) = self.find(name) {
                    named.push(number)?;
                }
                Ok(())
            }
            Expr::Nothing => Ok(()),
            Expr::Seq(parts) => self.add_named_in(parts, named),
            Expr::Oneof(parts) => self.add_named_in(parts, named),
            Expr::Allof(parts) => self.add_named_in(parts, named),
            Expr::Repeat(part, _) => self.add_named(part, named),
        }
    }

    /// Adds the numbers of the reservations that parts name.
    #[cycle(naming)]
    fn add_named_in(&self, parts: &[Expr], named: &mut Vec<usize>) -> Result<(), NoMemory>
        ensures { OnOk result (named.new.items ≡ named.old.items ++ filter_map (number_in self.now) (names_in_parts (parts_of (expressions parts.now)))) }
    {
        for part in parts {
            self.add_named(part, named)?;
        }
        Ok(())
    }

    /// The numbers of the reservations that an expression names, from left to right.
    pub fn named_in(&self, alloc: Global, expr: &Expr) -> Result<Vec<usize>, NoMemory>
        ensures { IfOk result (λ named. named.items ≡ filter_map (number_in self.now) (names_in (expression expr.now))) }
    {
        let mut named = Vec::new(alloc);
        self.add_named(expr, &mut named)?;
        Ok(named)
    }
}
