//! What the lines of a text say. Most traces have few different lines, again and again: what they say is remembered.

ghost use Rattle.std.specs.Prelude.{◌≡◌, ◌<◌, ◌≤◌, length, IfOk};
ghost use Rattle.std.specs.List.{slice_range};
ghost use Rattle.hz_pipeline_model.specs.Traces.TraceLimits.{advance_limit};
ghost use Rattle.hz_pipeline_model.specs.Traces.Traces as model;
ghost use Rattle.hz_replay.specs.Lines.{said, capped_line, judged, judgement};

use super::event::What;
use super::names::Names;
use super::words::{ADVANCE_LIMIT, Said, Wrong, line_says};
use std::alloc::{AllocError, Global};
use std::hash::{FoldHasher, Hasher};
use std::marker::Model;

/// How many lines are remembered: four times as many as there may be classes, so that few lines share a place.
const PLACES: usize = 4096;

/// A line that was read: where in the text it begins and ends, and what it says.
#[derive(Clone, Copy)]
pub(crate) struct Seen {
    from: usize,
    to: usize,
    said: Said,
}

/// A text whose lines are read, and the names that they say. What a line says is remembered at the line's place, until
/// another line has that place.
#[derive(Drop)]
pub struct Reading<'t> {
    names: &'t Names,
    text: &'t [u8],
    seen: Vec<Seen>,
}

impl<'t> Model for Reading<'t> {
    ghost use Rattle.hz_replay.specs.Reading.{Source, AreSeen};

    ghost Value = { Source };

    ghost view = { λ r. record { names = r.names.now; text = r.text.now } };

    ghost invariant = { λ r. AreSeen r.names.now r.text.now r.seen.items };
}

/// The place of a line among those that are remembered.
fn place_of(line: &[u8]) -> usize
    ensures { result < 4096 }
{
    let mut hasher = FoldHasher::default();
    hasher.write(line);
    (hasher.finish() % 4096) as usize
}

impl<'t> Reading<'t> {
    /// A text of which no line is read. Each place remembers that a line without bytes says nothing.
    pub fn new(alloc: Global, names: &'t Names, text: &'t [u8]) -> Result<Reading<'t>, AllocError>
        ensures { IfOk result (λ reading. reading ≡ record { names = names.now; text = text.now }) }
    {
        let none = Seen {
            from: 0,
            to: 0,
            said: Said::Nothing,
        };
        let seen = vec![in alloc; none; PLACES]?;
        Ok(Reading { names, text, seen })
    }

    /// What the line between two places of the text says, a number above the limit cut to the limit and one more.
    pub fn line_says(&mut self, from: usize, to: usize) -> Said
        requires order { from ≤ to }
        requires within { to ≤ length self.old.text }
        ensures source { self.new ≡ self.old }
        ensures says { said result ≡ capped_line (model.line_says self.old.names (slice_range self.old.text from to)) }
    {
        let text = self.text;
        let line = &text[from..to];
        let place = place_of(line);
        let seen = self.seen[place];
        if &text[seen.from..seen.to] == line {
            return seen.said;
        }
        let said = line_says(self.names, line);
        self.seen[place] = Seen { from, to, said };
        said
    }

    /// The event of the line between two places of the text after so many advances, None where it has none, or what is
    /// wrong with it.
    pub fn judge(&mut self, advanced: u32, from: usize, to: usize) -> Result<Option<What>, Wrong>
        requires short { advanced ≤ advance_limit }
        requires order { from ≤ to }
        requires within { to ≤ length self.old.text }
        ensures source { self.new ≡ self.old }
        ensures judged { judgement result ≡ judged advanced (model.line_says self.old.names (slice_range self.old.text from to)) }
    {
        match self.line_says(from, to) {
            Said::Nothing => Ok(None),
            Said::Event(What::Issue(class)) => Ok(Some(What::Issue(class))),
            Said::Event(What::Advance(cycles)) if cycles > ADVANCE_LIMIT - advanced => Err(
                Wrong::AdvanceLimit,
            ),
            Said::Event(What::Advance(cycles)) => Ok(Some(What::Advance(cycles))),
            Said::Event(What::Ask { part, ask }) => Ok(Some(What::Ask { part, ask })),
            Said::Wrong(wrong) => Err(wrong),
        }
    }
}
