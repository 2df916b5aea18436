//! The program `hz_same`: the words of the command line, the real files and standard output, and the status.
#![tactic(auto)]

use hz_front::host::{RealFiles, RealSink, words};
use hz_same_top::run;
use std::process::ExitCode;

fn main(rt: HostRuntime) -> ExitCode {
    let Some(words) = words(&rt) else {
        return ExitCode::from(5);
    };
    let mut files = RealFiles::new(&rt);
    let mut out = RealSink::new(&rt);
    ExitCode::from(run(rt.alloc(), words.as_slice(), &mut files, &mut out))
}
