//! The words of the command line.

ghost use Rattle.std.specs.Prelude.{◌≡◌, ◌↔◌, [], IsNone, IfSome};

use crate::host::own_arguments::OwnArguments;
use std::alloc::Global;
use std::env;
use std::io::ErrorKind;
use std::rt::Env;

/// The words in place of those that could not be taken for this reason: none where they are no text, and None where memory ran out.
fn words_without(alloc: Global, reason: ErrorKind) -> Option<Vec<String>>
    ensures memory { IsNone result ↔ (reason ≡ ErrorKind.OutOfMemory) }
    ensures none { IfSome result (λ words. words.items ≡ []) }
{
    if reason == ErrorKind::OutOfMemory {
        None
    } else {
        Some(Vec::new(alloc))
    }
}

/// The words after the program's own name. Words that are no text are taken as no words at all, and None is want of
/// memory.
pub fn words<R: Env + AllocGlobal>(rt: &R) -> Option<Vec<String>> {
    match env::args(&OwnArguments { rt }) {
        Ok(args) => args.collect(rt.alloc()).ok(),
        Err(error) => words_without(rt.alloc(), error.kind()),
    }
}
