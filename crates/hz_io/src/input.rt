//! Files that are opened by name and read front to back.
ghost use Rattle.std.specs.Prelude.{◌≡◌, ℕ, ◌+◌, ◌-◌, ◌^◌, ◌<◌, List, Option, length, IsNone, OnErr};
ghost use Rattle.hz_base_model.specs.Names.{Held};
ghost use Rattle.hz_io.specs.Files.{Counts, IsOpened, LacksOnErr, Reads};

use super::faults::Failed;

/// Files: one of them is open at a time. In contracts `held` is what all files hold and `rest` what is unread
/// of the open one, where these are reported. `faults` counts the calls that failed. Where `steady` holds and `held`
/// is reported, only the opening of a name that isn't held fails.
pub trait Files {
    ghost held: { Self → Option Held };

    ghost rest: { Self → Option (List ℕ) };

    ghost steady: { Self → Type 0 };

    ghost faults: { Self → ℕ };

    /// Opens the file of this name, in place of the one that was open.
    fn open(&mut self, name: &str) -> Result<(), Failed>
        requires { faults self.old < 2 ^ 64 - 1 }
        ensures counts { Counts (faults self.old) (faults self.new) result }
        ensures held { held self.new ≡ held self.old }
        ensures opened { IsOpened (held self.old) (rest self.new) name.now result }
        ensures steady { steady self.old → steady self.new }
        ensures lacks { steady self.old → LacksOnErr (held self.old) name.now result };

    /// Reads bytes of the open file to the front of `into`, and answers how many: none only at the file's end.
    fn read(&mut self, into: &mut [u8]) -> Result<usize, Failed>
        requires below { faults self.old < 2 ^ 64 - 1 }
        requires room { 0 < length into.old }
        ensures counts { Counts (faults self.old) (faults self.new) result }
        ensures held { held self.new ≡ held self.old }
        ensures reads { Reads (rest self.old) (rest self.new) into.old into.new result }
        ensures steady { steady self.old → steady self.new }
        ensures succeeds { steady self.old → OnErr result (IsNone (held self.old)) };
}
