//! Which instructions of a block an instruction may depend on, by tables of those before it.

ghost use Rattle.std.specs.Prelude.{◌≡◌, length, slice_index, IfOk, OnOk};
ghost use Rattle.hz_depend.specs.Held.{held};
ghost use Rattle.hz_depend.specs.Marks.{marked};
ghost use Rattle.hz_depend.specs.Marks as model;
ghost use Rattle.hz_depend.specs.Noted.{IsBlank, HasNoted, candidates};
ghost use Rattle.hz_depend.specs.Tables.{tables_of};
ghost use Rattle.std.specs.List.{flat_map};

use crate::finding::by_cell::ByCell;
use crate::finding::by_register::ByRegister;
use crate::finding::marks::mark_before;
use crate::finding::pairs::after;
use crate::nodes::Node;
use hz_regexp::NoMemory;
use std::alloc::Global;

/// The places of instructions, by what they read and what they write.
#[derive(Drop)]
pub struct Tables {
    readers: ByRegister,
    writers: ByRegister,
    read: ByCell,
    written: ByCell,
}

/// Marks the last writers of registers.
fn mark_last(stamps: &mut [u32], stamp: u32, last: &[u32], registers: &[u8])
    requires { length last.now ≡ 256 }
    ensures { stamps.new ≡ marked stamps.old stamp (flat_map (λ r. model.place_before (slice_index last.now r)) registers.now) }
{
    for register in registers {
        mark_before(stamps, stamp, after(last, *register));
    }
}

impl Tables {
    /// No instruction.
    pub fn new(alloc: Global) -> Result<Tables, NoMemory>
        ensures { IfOk result (λ made. IsBlank (tables_of made)) }
    {
        Ok(Tables {
            readers: ByRegister::new(alloc)?,
            writers: ByRegister::new(alloc)?,
            read: ByCell::new(alloc)?,
            written: ByCell::new(alloc)?,
        })
    }

    /// Notes an instruction, which comes after all that are noted.
    pub fn note(&mut self, node: &Node<'_>, place: u32) -> Result<(), NoMemory>
        ensures { OnOk result (HasNoted place (held node.now) (tables_of self.old) (tables_of self.new)) }
    {
        let read = &node.access.read;
        let written = &node.access.written;
        self.readers.add_all(&read.registers, place)?;
        self.writers.add_all(&written.registers, place)?;
        self.read.add_all(&read.cells, place)?;
        self.written.add_all(&written.cells, place)?;
        Ok(())
    }

    /// Marks those that an instruction may depend on, which comes after all that are noted: the last writer of each register
    /// that it reads, all that read or write a register that it writes, and all that touch a cell which isn't apart from one of
    /// its own, where one of the two writes.
    #[tactic(auto, using(crate::proofs::MarkLemmas::marked_append))]
    pub fn mark(&self, stamps: &mut [u32], stamp: u32, last: &[u32], node: &Node<'_>)
        requires { length last.now ≡ 256 }
        ensures { stamps.new ≡ marked stamps.old stamp (candidates (tables_of self.now) (slice_index last.now) (held node.now)) }
    {
        let read = &node.access.read;
        let written = &node.access.written;
        mark_last(stamps, stamp, last, &read.registers);
        self.readers.mark(stamps, stamp, &written.registers);
        self.writers.mark(stamps, stamp, &written.registers);
        self.written.mark_all(stamps, stamp, last, &read.cells);
        self.read.mark_all(stamps, stamp, last, &written.cells);
        self.written.mark_all(stamps, stamp, last, &written.cells);
    }
}
