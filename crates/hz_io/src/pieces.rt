//! Writing pieces.

ghost use Rattle.std.specs.Prelude.{◌-◌, ◌^◌, ◌<◌, map};
ghost use Rattle.std.specs.List.{concat};
ghost use Rattle.hz_io.specs.Sink.{Writes};

use super::faults::Failed;
use super::output::Sink;

/// Writes pieces one after the other: all of them, or a front of them if the sink failed, with one more fault. It takes no memory.
pub fn put_all<S: Sink>(out: &mut S, pieces: &[&[u8]]) -> Result<(), Failed>
    requires { S.faults out.old < 2 ^ 64 - 1 }
    ensures { Writes S.written S.room S.faults out.old out.new (concat (map (λ piece. piece.now) pieces.now)) result }
{
    for piece in pieces {
        match out.put(piece) {
            Ok(()) => {}
            Err(failed) => return Err(failed),
        }
    }
    Ok(())
}
