//! Bytes that are held before they are written, so that a sink is asked once for many pieces.

ghost use Rattle.std.specs.Prelude.{◌≡◌, ◌-◌, ◌^◌, ◌<◌, [], ◌∷◌};
ghost use Rattle.std.specs.List.{flat_map};
ghost use Rattle.hz_io.specs.Sink.{Writes};
ghost use Rattle.hz_io.specs.Pages.{Adds};

use super::faults::Failed;
use super::output::Sink;
use arrayvec::ArrayVec;

/// How many bytes are held.
pub const PAGE: usize = 4096;

/// Bytes that are still to be written.
pub type Page = ArrayVec<u8, PAGE>;

/// Writes what is held.
pub fn flush<S: Sink>(out: &mut S, page: &mut Page) -> Result<(), Failed>
    requires { S.faults out.old < 2 ^ 64 - 1 }
    ensures written { Writes S.written S.room S.faults out.old out.new page.old.items result }
    ensures empty { page.new.items ≡ [] }
{
    let written = out.put(page.as_slice());
    page.clear();
    written
}

/// Holds bytes, or writes them where they are too many.
fn hold<S: Sink>(out: &mut S, page: &mut Page, bytes: &[u8]) -> Result<(), Failed>
    requires { S.faults out.old < 2 ^ 64 - 1 }
    ensures { page.old.items ≡ [] → Adds S.written S.room S.faults out.old out.new page.old.items page.new.items bytes.now result }
{
    match page.try_extend_from_slice(bytes) {
        Ok(()) => Ok(()),
        Err(_) => out.put(bytes),
    }
}

/// Writes what is held, and adds bytes.
#[cold]
fn spill<S: Sink>(out: &mut S, page: &mut Page, bytes: &[u8]) -> Result<(), Failed>
    requires { S.faults out.old < 2 ^ 64 - 1 }
    ensures { Adds S.written S.room S.faults out.old out.new page.old.items page.new.items bytes.now result }
{
    match flush(out, page) {
        Ok(()) => hold(out, page, bytes),
        Err(failed) => Err(failed),
    }
}

/// Adds bytes after those that are held, which are written where there is no room for more.
#[inline(always)]
pub fn add<S: Sink>(out: &mut S, page: &mut Page, bytes: &[u8]) -> Result<(), Failed>
    requires { S.faults out.old < 2 ^ 64 - 1 }
    ensures { Adds S.written S.room S.faults out.old out.new page.old.items page.new.items bytes.now result }
{
    match page.try_extend_from_slice(bytes) {
        Ok(()) => Ok(()),
        Err(_) => spill(out, page, bytes),
    }
}

/// Ends a line.
pub fn end_line<S: Sink>(out: &mut S, page: &mut Page) -> Result<(), Failed>
    requires { S.faults out.old < 2 ^ 64 - 1 }
    ensures { Adds S.written S.room S.faults out.old out.new page.old.items page.new.items (10 ∷ []) result }
{
    add(out, page, b"\n")
}

/// Adds pieces one after the other.
pub fn add_all<S: Sink>(out: &mut S, page: &mut Page, pieces: &[&[u8]]) -> Result<(), Failed>
    requires { S.faults out.old < 2 ^ 64 - 1 }
    ensures { Adds S.written S.room S.faults out.old out.new page.old.items page.new.items (flat_map (λ piece. piece.now) pieces.now) result }
{
    for piece in pieces {
        match add(out, page, piece) {
            Ok(()) => {}
            Err(failed) => return Err(failed),
        }
    }
    Ok(())
}
