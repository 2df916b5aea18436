//! Writing the line that ends a replay or a drill.

ghost use Rattle.std.specs.Prelude.{◌-◌, ◌^◌, ◌<◌};
ghost use Rattle.hz_io.specs.Sink.{Writes};
ghost use Rattle.hz_front_model.specs.Texts as model;

use hz_io::{Failed, Sink, put_all};
use hz_regexp::Name;
use itoa::Buffer;

/// Writes the line of an accepted trace.
pub fn put_accepted<S: Sink>(out: &mut S, issues: u64, cycles: u64) -> Result<(), Failed>
    requires { S.faults out.old < 2 ^ 64 - 1 }
    ensures { Writes S.written S.room S.faults out.old out.new (model.accepted_line issues cycles) result }
{
    let mut issues_digits = Buffer::new();
    let mut cycles_digits = Buffer::new();
    put_all(
        out,
        &[
            b"accepted ",
            issues_digits.format(issues).as_bytes(),
            b" issues ",
            cycles_digits.format(cycles).as_bytes(),
            b" cycles\n",
        ],
    )
}

/// Writes the line of a refused trace.
pub fn put_refused<S: Sink>(out: &mut S, line: u32, class: &Name) -> Result<(), Failed>
    requires { S.faults out.old < 2 ^ 64 - 1 }
    ensures { Writes S.written S.room S.faults out.old out.new (model.refused_line line class.now) result }
{
    let mut digits = Buffer::new();
    put_all(
        out,
        &[
            b"refused line ",
            digits.format(line).as_bytes(),
            b" ",
            class.bytes(),
            b"\n",
        ],
    )
}
