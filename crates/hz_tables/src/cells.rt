//! Numbers of few bytes, which are read by the step.

ghost use Rattle.std.specs.Prelude.{◌≡◌, ◌+◌, ◌<◌, ◌^◌, length, map, slice_index, IfOk, All, IsTrue};
ghost use Rattle.std.proofs.Props.{props};
ghost use Rattle.hz_tables.specs.Widths.{is_width, number_of};

use crate::{NoMemory, Steps};
use std::alloc::Global;
use std::marker::Model;
use std::sync::ledger::Ledger;

/// Numbers of `W` bytes each, which are 1, 2 or 4. They are read by `get` alone, which counts a step.
#[derive(Drop)]
pub struct Cells<const W: usize> {
    cells: Vec<[u8; W]>,
    ghost width: { IsTrue (is_width W) } by { Prim.hlevel props },
}

impl<const W: usize> Model for Cells<W> {
    ghost use Rattle.std.specs.Prelude.{ℕ, List, map};
    ghost use Rattle.hz_tables.specs.Widths.{number_of};

    ghost Value = { List ℕ };

    ghost view = { λ c. map number_of c.cells.items };
}

/// The number of a cell.
pub(crate) fn number<const W: usize>(cell: &[u8; W]) -> u32
    requires { IsTrue (is_width W) }
    ensures { result ≡ number_of cell.now }
{
    if W == 1 {
        u32::from(cell[0])
    } else if W == 2 {
        u32::from(u16::from_le_bytes([cell[0], cell[1]]))
    } else {
        u32::from_le_bytes([cell[0], cell[1], cell[2], cell[3]])
    }
}

/// The cell of a number.
pub(crate) fn cell<const W: usize>(number: u32) -> [u8; W]
    requires width { IsTrue (is_width W) }
    requires small { number < 256 ^ W }
    ensures { number_of result ≡ number }
{
    let mut cell = [0_u8; W];
    let bytes = number.to_le_bytes();
    cell.copy_from_slice(&bytes[..W]);
    cell
}

impl<const W: usize> Cells<W> {
    /// Cells of these numbers, in their order.
    pub fn of(alloc: Global, numbers: &[u32]) -> Result<Cells<W>, NoMemory>
        requires width { IsTrue (is_width W) }
        requires small { All (λ number. number < 256 ^ W) numbers.now }
        ensures { IfOk result (λ cells. cells ≡ numbers.now) }
    {
        let mut cells = Vec::with_capacity(alloc, numbers.len())?;
        for number in numbers {
            cells.push(cell::<W>(*number))?;
        }
        Ok(Cells { cells })
    }

    /// How many there are. It takes no memory, and no step.
    pub fn count(&self) -> usize
        ensures { result ≡ length self.now }
    {
        self.cells.len()
    }

    /// The number at a place. It takes one step, and no memory.
    pub fn get<L: Ledger>(&self, place: usize, steps: &mut Steps<L>) -> u32
        requires place { place < length self.now }
        ensures number { result ≡ slice_index self.now place }
        ensures counted { steps.new ≡ steps.old + 1 }
    {
        steps.tick();
        number(&self.cells[place])
    }
}
