//! How a run ends: what is decided is written, and gives the status.

ghost use Rattle.std.specs.Prelude.{◌≡◌, ◌-◌, ◌<◌, ◌^◌, IfOk, MatchResult};
ghost use Rattle.hz_front.specs.Endings.{Ends};
ghost use Rattle.hz_front.specs.Refusals.{IsDoneLow, decided_by};

use crate::refusal::Refusal;
use hz_io::{Failed, Sink};

/// What a program writes where nothing is refused. In contracts `status_of` and `text_of` are its status and its text, where it
/// `can_tell` them.
pub trait Ending {
    ghost use Rattle.std.specs.Prelude.{◌≡◌, ◌≤◌, ◌<◌, ◌-◌, ◌^◌, ℕ, List};
    ghost use Rattle.hz_io.specs.Sink.{Writes};

    ghost status_of: { Self → ℕ };

    ghost text_of: { Self → List ℕ };

    ghost can_tell: { Self → Type 0 };

    /// The status, at most 3: what 0 to 3 mean is the program's own.
    fn status(&self) -> u8
        requires { can_tell self.now }
        ensures value { result ≡ status_of self.now }
        ensures range { result ≤ 3 };

    /// Writes the text: all of it, or a front of it if the sink failed, with one more fault. It takes no memory.
    fn write<S: Sink>(&self, out: &mut S) -> Result<(), Failed>
        requires sink { S.faults out.old < 2 ^ 64 - 1 }
        requires range { can_tell self.now }
        ensures { Writes S.written S.room S.faults out.old out.new (text_of self.now) result };
}

/// The status, or 7 where what was decided is not written whole.
fn status_written(status: u8, written: Result<(), Failed>) -> u8
    ensures { MatchResult written (λ _. result ≡ status) (λ _. result ≡ 7) }
{
    match written {
        Ok(()) => status,
        Err(_) => 7,
    }
}

/// Writes what is decided, and gives its status: the program's own where it is done, else 2 a fault, 3 a limit, 4 words, 5 memory, 6 a
/// file. Where it is not written whole the status is 7.
pub fn finish<E: Ending, S: Sink>(decided: &Result<E, Refusal<'_>>, out: &mut S) -> u8
    requires sink { S.faults out.old < 2 ^ 64 - 1 }
    requires range { IfOk decided.now E.can_tell }
    ensures low { IsDoneLow (decided_by E.status_of E.text_of decided.now) }
    ensures ends { Ends S.written S.room S.faults out.old out.new (decided_by E.status_of E.text_of decided.now) result }
{
    match decided {
        Ok(done) => status_written(done.status(), done.write(out)),
        Err(refusal) => status_written(refusal.status(), refusal.write(out)),
    }
}
