//! Whole files.
ghost use Rattle.std.specs.Prelude.{◌≡◌, ℕ, ◌-◌, ◌^◌, ◌<◌, length};
ghost use Rattle.std.specs.Option.{ForSome};
ghost use Rattle.hz_io.specs.Slurp.{SlurpCounts, Measures, Tells, TellsUnread, LacksOnFailed, UnreportedOnFailed};

use super::faults::SlurpFault;
use super::input::Files;
use std::alloc::Global;

/// How many bytes are asked for at a time.
const CHUNK: usize = 65_536;

/// The bytes of the file of this name. It is read to its end, where a read gives no bytes, or until `most + 1`
/// bytes are read: then the answer is `Long`.
pub fn slurp<F: Files>(
    alloc: Global,
    files: &mut F,
    name: &str,
    most: u64,
) -> Result<Vec<u8>, SlurpFault>
    requires most { most < 2 ^ 32 }
    requires below { F.faults files.old < 2 ^ 64 - 1 }
    ensures counts { SlurpCounts (F.faults files.old) (F.faults files.new) result }
    ensures held { F.held files.new ≡ F.held files.old }
    ensures measures { Measures most result }
    ensures tells { ForSome (F.held files.old) (λ held. Tells held (F.rest files.new) name.now most result) }
    ensures steady { F.steady files.old → F.steady files.new }
    ensures lacks { F.steady files.old → LacksOnFailed (F.held files.old) name.now result }
{
    let mut buffer = vec![in alloc; 0u8; CHUNK]?;
    files.open(name)?;
    read_to_end(alloc, files, buffer.as_mut_slice(), most as usize)
}

/// What is unread of the open file, read in pieces of at most the buffer's length.
fn read_to_end<F: Files>(
    alloc: Global,
    files: &mut F,
    buffer: &mut [u8],
    most: usize,
) -> Result<Vec<u8>, SlurpFault>
    requires most { most < 2 ^ 32 }
    requires below { F.faults files.old < 2 ^ 64 - 1 }
    requires room { 0 < length buffer.old }
    ensures counts { SlurpCounts (F.faults files.old) (F.faults files.new) result }
    ensures held { F.held files.new ≡ F.held files.old }
    ensures measures { Measures most result }
    ensures tells { ForSome (F.rest files.old) (λ unread. TellsUnread unread (F.rest files.new) most result) }
    ensures steady { F.steady files.old → F.steady files.new }
    ensures fails { F.steady files.old → UnreportedOnFailed (F.held files.old) result }
{
    let mut bytes = Vec::new(alloc);
    loop {
        let room = buffer.len().min(most + 1 - bytes.len());
        let count = files.read(&mut buffer[..room])?;
        if count == 0 {
            return Ok(bytes);
        }
        let read = bytes.len() + count;
        if read > most {
            return Err(SlurpFault::Long { read: read as u64 });
        }
        bytes.extend_from_slice(&buffer[..count])?;
    }
}
