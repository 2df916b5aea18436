//! The host's files and its standard output as the system has them.
ghost use Rattle.std.specs.Prelude.{◌≡◌, ◌-◌, ◌^◌, ◌<◌};

use hz_front::host::{RealFiles, RealSink, read_again};
use hz_io::{Failed, Files, Sink, SlurpFault, slurp};
use std::alloc::Global;
use std::fs;
use std::io::{self, ErrorKind, Read};
use std::test::Fail;

/// The name of the file that the test makes.
const NAME: &str = "hz_real_files_test";

/// The name of the file that is open when another is asked for.
const FIRST: &str = "hz_real_files_test_first";

/// How many lines are written, each its own number: more bytes than one read gives, and no two parts of them alike.
const LINES: u32 = 8_000;

/// A limit that no file here reaches.
const MOST: u64 = 1_000_000;

/// A file of the host, where it has one, that is read in words of eight bytes alone: a read of one byte fails.
const WORDS: &str = "/proc/self/pagemap";

/// A whole number of reads.
const SOME: u64 = 65_536;

/// What the file of that name holds, where it's read whole.
fn held<F: Files>(alloc: Global, files: &mut F) -> Option<Vec<u8>>
    requires { F.faults files.old < 2 ^ 64 - 1 }
{
    slurp(alloc, files, NAME, MOST).ok()
}

/// Lines that have the numbers from 0.
fn numbers(alloc: Global) -> Result<String, Fail> {
    let mut lines = String::new(alloc);
    for number in 0..LINES {
        lines.push_str(&format!(in alloc; "{number}\n")?)?;
    }
    Ok(lines)
}

#[test]
fn a_real_file_is_read_whole(rt: HostRuntime) -> Result<(), Fail> {
    let lines = numbers(rt.alloc())?;
    fs::write(&rt, NAME, lines.as_bytes())?;
    let read = held(rt.alloc(), &mut RealFiles::new(&rt));
    fs::remove_file(&rt, NAME)?;
    let read = read.unwrap_or(Vec::new(rt.alloc()));
    assert_eq!(rt; read.len(), 38_890);
    assert_eq!(rt; read.as_slice(), lines.as_bytes());
    Ok(())
}

#[test]
fn a_missing_file_is_counted(rt: HostRuntime) -> Result<(), Fail> {
    let mut files = RealFiles::new(&rt);
    assert_eq!(rt; files.open("hz_real_files_test/none"), Err(Failed));
    assert_eq!(rt; files.faults, 1);
    assert_eq!(rt; files.read(&mut [0u8; 4]), Ok(0));
    assert_eq!(rt; files.faults, 1);
    Ok(())
}

#[test]
fn a_file_is_let_go_before_the_next_is_opened(rt: HostRuntime) -> Result<(), Fail> {
    fs::write(&rt, FIRST, b"first")?;
    let mut files = RealFiles::new(&rt);
    let first = files.open(FIRST);
    fs::remove_file(&rt, FIRST)?;
    assert_eq!(rt; first, Ok(()));
    assert_eq!(rt; files.faults, 0);
    assert_eq!(rt; files.open("hz_real_files_test/none"), Err(Failed));
    assert_eq!(rt; files.faults, 1);
    assert_eq!(rt; files.read(&mut [0u8; 4]), Ok(0));
    Ok(())
}

#[test]
fn a_read_that_fails_after_others_is_counted(rt: HostRuntime) -> Result<(), Fail> {
    let mut files = RealFiles::new(&rt);
    if files.open(WORDS).is_err() {
        return Ok(());
    }
    assert_eq!(rt; files.read(&mut [0u8; 4096]), Ok(4096));
    assert_eq!(rt; files.faults, 0);
    assert_eq!(rt; files.read(&mut [0u8; 1]), Err(Failed));
    assert_eq!(rt; files.faults, 1);
    // all that is allowed is read, and then the byte that would be too many
    let read = slurp(rt.alloc(), &mut files, WORDS, SOME);
    assert_eq!(rt; read.err(), Some(SlurpFault::Failed));
    assert_eq!(rt; files.faults, 2);
    Ok(())
}

/// What a signal interrupts so many times before it gives two bytes.
#[derive(Drop)]
struct Interrupted {
    times: u32,
}

impl Read for Interrupted {
    fn read(&mut self, into: &mut [u8]) -> io::Result<usize> {
        if self.times > 0 {
            self.times -= 1;
            return Err(ErrorKind::Interrupted.into());
        }
        let count = into.len().min(2);
        into[..count].copy_from_slice(&b"ab"[..count]);
        Ok(count)
    }
}

#[test]
fn an_interrupted_read_is_tried_again(rt: HostRuntime) {
    let mut into = [0u8; 4];
    let read = read_again(&mut Interrupted { times: 1_000 }, &mut into);
    assert_eq!(rt; read.ok(), Some(2));
    assert_eq!(rt; into.as_slice(), b"ab\0\0".as_slice());
}

#[test]
fn standard_output_takes_bytes(rt: HostRuntime) -> Result<(), Fail> {
    let mut out = RealSink::new(&rt);
    assert_eq!(rt; out.put(b"standard output\n"), Ok(()));
    assert_eq!(rt; out.put(b""), Ok(()));
    assert_eq!(rt; out.faults, 0);
    Ok(())
}
