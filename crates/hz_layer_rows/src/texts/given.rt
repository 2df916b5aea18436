//! Blocks with the descriptions that they are judged by.

ghost use Rattle.std.specs.Prelude.{◌<◌, ◌^◌, length};

use crate::texts::checks::checked_of;
use crate::texts::forms::MOST_BYTES;
use hz_checked::Checked;
use hz_rtl::{Block, read_block};
use hz_sexp::read_forms;
use std::alloc::Global;

/// A text that describes, and the block of another.
#[derive(Drop)]
pub struct Given {
    pub checked: Checked,
    pub block: Block,
}

/// The block of a text.
fn block_of(alloc: Global, text: &[u8]) -> Option<Block>
    requires { length text.now < 2 ^ 32 }
{
    let forms = read_forms(alloc, text).ok()?;
    read_block(alloc, &forms).ok()
}

/// What a text and a description give.
pub fn read_given(alloc: Global, text: &[u8], description: &[u8]) -> Option<Given> {
    if text.len() > MOST_BYTES || description.len() > MOST_BYTES {
        return None;
    }
    let checked = checked_of(alloc, description)?.ok()?;
    let block = block_of(alloc, text)?;
    Some(Given { checked, block })
}
