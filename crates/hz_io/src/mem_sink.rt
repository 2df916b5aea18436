//! A sink in memory.
ghost use Rattle.std.specs.Prelude.{◌≡◌, ◌+◌, ◌-◌, ◌^◌, ◌<◌, Some, IfOk, vec_len};
ghost use Rattle.hz_io.specs.Sink.{Writes};
ghost use Rattle.hz_io.specs.Tape.{empty_tape, Keeps};

use super::faults::{Failed, NoMemory};
use super::output::Sink;
use std::alloc::Global;
use std::marker::Model;

/// A sink that keeps what is written, up to a number of bytes. Contracts see it as a `Tape`.
#[derive(Debug, Drop)]
pub struct MemSink {
    bytes: Vec<u8>,
    room: usize,
    faults: u64,
}

impl Model for MemSink {
    ghost use Rattle.std.specs.Prelude.{◌+◌, ◌≤◌, vec_len, vec_capacity};
    ghost use Rattle.hz_io.specs.Tape.{Tape};

    ghost Value = { Tape };

    ghost view = { λ inside. record { written = inside.bytes.items; room = inside.room; faults = inside.faults } };

    ghost invariant = { λ inside. vec_len inside.bytes + inside.room ≤ vec_capacity inside.bytes };
}

impl MemSink {
    /// An empty sink. It takes memory for `room` bytes at once, and no `put` takes any.
    pub fn new(alloc: Global, room: u32) -> Result<MemSink, NoMemory>
        ensures { IfOk result (λ sink. sink ≡ empty_tape room) }
    {
        let room = room as usize;
        let bytes = Vec::with_capacity(alloc, room)?;
        Ok(MemSink {
            bytes,
            room,
            faults: 0,
        })
    }

    /// What was written.
    pub fn bytes(&self) -> &[u8]
        ensures { result.now ≡ self.now.written }
    {
        self.bytes.as_slice()
    }
}

impl Sink for MemSink {
    ghost written = { λ sink. Some sink.written };

    ghost room = { λ sink. Some sink.room };

    ghost faults = { λ sink. sink.faults };

    /// Writes what fits. It fails exactly where that isn't all.
    fn put(&mut self, bytes: &[u8]) -> Result<(), Failed>
        requires { self.old.faults < 2 ^ 64 - 1 }
        ensures writes { Writes ⟦<MemSink as Sink>⟧.written ⟦<MemSink as Sink>⟧.room ⟦<MemSink as Sink>⟧.faults self.old self.new bytes.now result }
        ensures keeps { Keeps self.old self.new bytes.now result }
    {
        let count = bytes.len().min(self.room);
        self.bytes.extend_from_slice(&bytes[..count]).unwrap();
        self.room -= count;
        if count < bytes.len() {
            self.faults += 1;
            return Err(Failed);
        }
        Ok(())
    }
}
