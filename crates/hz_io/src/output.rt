//! A sink that bytes are written to.
ghost use Rattle.std.specs.Prelude.{ℕ, ◌-◌, ◌^◌, ◌<◌, List, Option};
ghost use Rattle.hz_io.specs.Sink.{Writes};

use super::faults::Failed;

/// A place to write to. In contracts `written` is all that was written and `room` how many bytes still fit,
/// where these are reported. `faults` counts the calls that failed.
pub trait Sink {
    ghost written: { Self → Option (List ℕ) };

    ghost room: { Self → Option ℕ };

    ghost faults: { Self → ℕ };

    /// Writes the bytes. After a failure a front of them was written.
    fn put(&mut self, bytes: &[u8]) -> Result<(), Failed>
        requires { faults self.old < 2 ^ 64 - 1 }
        ensures { Writes written room faults self.old self.new bytes.now result };
}
