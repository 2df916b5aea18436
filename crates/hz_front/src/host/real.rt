//! The host's files and its standard output. Contracts are reported nothing of what they hold.

ghost use Rattle.std.specs.Prelude.{◌≡◌, ◌-◌, ◌^◌, ◌<◌, None};
ghost use Rattle.std.specs.Io.{ReadsAtMost};
ghost use Rattle.hz_io.specs.Files.{Counts};

use hz_io::{Failed, Files, Sink};
use std::fs;
use std::io::{self, ErrorKind, Read, Write};
use std::rt::Files as HostFiles;

/// How many bytes are read at a time.
const CHUNK: usize = 16_384;

/// One read, tried again where a signal interrupts it.
pub fn read_again<F: Read>(file: &mut F, into: &mut [u8]) -> io::Result<usize>
    ensures { ReadsAtMost result into.new }
{
    // a loop is proved to end, so this one counts its tries
    for _ in 0..u64::MAX {
        match file.read(into) {
            Err(error) if error.kind() == ErrorKind::Interrupted => {}
            answer => return answer,
        }
    }
    Err(ErrorKind::Interrupted.into())
}

/// The host's files, one of them open at a time.
#[derive(Drop)]
pub struct RealFiles<'a, R: HostFiles> {
    rt: &'a R,
    file: Option<R::File>,
    /// How many calls failed.
    pub faults: u64,
}

impl<'a, R: HostFiles> RealFiles<'a, R> {
    /// The files of this runtime, none of them open.
    pub fn new(rt: &'a R) -> RealFiles<'a, R>
        ensures { result.faults ≡ 0 }
    {
        RealFiles {
            rt,
            file: None,
            faults: 0,
        }
    }
}

impl<'a, R: HostFiles> Files for RealFiles<'a, R> {
    ghost use Rattle.std.specs.Prelude.{None};

    ghost held = { λ _. None };

    ghost rest = { λ _. None };

    ghost steady = { λ _. ⊥ };

    ghost faults = { λ files. files.faults };

    fn open(&mut self, name: &str) -> Result<(), Failed> {
        self.file = None;
        match fs::open(self.rt, name) {
            Ok(file) => {
                self.file = Some(file);
                Ok(())
            }
            Err(_) => {
                self.faults += 1;
                Err(Failed)
            }
        }
    }

    fn read(&mut self, into: &mut [u8]) -> Result<usize, Failed> {
        let mut chunk = [0u8; CHUNK];
        let room = into.len().min(CHUNK);
        let Some(file) = &mut self.file else {
            return Ok(0);
        };
        match read_again(file, &mut chunk[..room]) {
            Ok(count) => {
                into[..count].copy_from_slice(&chunk[..count]);
                Ok(count)
            }
            Err(_) => {
                self.faults += 1;
                Err(Failed)
            }
        }
    }
}

/// The host's standard output.
#[derive(Drop)]
pub struct RealSink<'a, P: Print> {
    rt: &'a P,
    /// How many calls failed.
    pub faults: u64,
}

impl<'a, P: Print> RealSink<'a, P> {
    /// The standard output of this runtime.
    pub fn new(rt: &'a P) -> RealSink<'a, P>
        ensures { result.faults ≡ 0 }
    {
        RealSink { rt, faults: 0 }
    }
}

impl<'a, P: Print> Sink for RealSink<'a, P> {
    ghost use Rattle.std.specs.Prelude.{None};

    ghost written = { λ _. None };

    ghost room = { λ _. None };

    ghost faults = { λ sink. sink.faults };

    fn put(&mut self, bytes: &[u8]) -> Result<(), Failed> {
        match io::writer(self.rt).write_all(bytes) {
            Ok(()) => Ok(()),
            Err(_) => {
                self.faults += 1;
                Err(Failed)
            }
        }
    }
}
