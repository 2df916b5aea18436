//! Texts of the tables of descriptions, byte by byte.

ghost use Rattle.hz_tabfile.specs.Saying.{IsSayable};

use crate::tables::compiling::described;
use hz_auto::{Compiled, compile};
use hz_checked::Checked;
use hz_io::MemSink;
use hz_tabfile::write_tables;
use std::alloc::Global;

/// Whether a sink with so much room takes the tables text of a compiled description, and what it has then.
fn written(alloc: Global, compiled: &Compiled, checked: &Checked, room: u32) -> Option<String>
    requires { IsSayable compiled.now checked.now }
{
    let mut out = MemSink::new(alloc, room).ok()?;
    let whole = write_tables(compiled, checked, &mut out).is_ok();
    let text = str::from_utf8(out.bytes()).ok()?;
    let text = text.replace(alloc, "\n", "/").ok()?;
    format!(in alloc; "{whole} {text}").ok()
}

/// The same of a checked description.
fn compiled_text(alloc: Global, checked: &Checked, room: u32) -> Option<String> {
    match compile(alloc, checked) {
        Ok(compiled) => written(alloc, &compiled, checked, room),
        Err(_) => None,
    }
}

/// Whether a sink with so much room takes the tables text of the description after a `/`, whose option stands beside, and what it
/// has then. A `/` stands for a line feed.
pub fn answer(alloc: Global, text: &str, beside: &str) -> Option<String> {
    let (room, forms) = text.split_once('/')?;
    let room = room.trim().parse::<u32>().ok()?;
    let checked = described(alloc, beside, forms)?;
    compiled_text(alloc, &checked, room)
}
