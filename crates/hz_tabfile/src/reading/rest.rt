//! What is left of a text.

ghost use Rattle.std.specs.Prelude.{◌+◌, ◌<◌, ◌^◌, length};

use super::cutting::{cut, is_word};
use super::fault::TabFault;

/// What is left of a text after its header, and the number of its first line.
#[derive(Clone, Copy)]
pub struct Rest<'a> {
    pub bytes: &'a [u8],
    pub number: u32,
    ghost fits: { number + length bytes.now < 2 ^ 32 },
}

impl<'a> Rest<'a> {
    ghost use Rattle.std.specs.Prelude.{◌≡◌, Ok, IfOk};
    ghost use Rattle.hz_tabtext_model.specs.Reading as model;
    ghost use Rattle.hz_tabfile.specs.Given.{Gives};
    ghost use Rattle.hz_tabfile.specs.Rests.{left_of};

    #[tactic(auto, using(crate::proofs::Pieces::nil_pieces))]
    /// The next line, and what is left after it; `Truncated` where it is not ended.
    pub fn line(self) -> Result<(&'a [u8], Rest<'a>), TabFault>
        ensures taken { Gives (λ x. (x.0.now, left_of x.1)) result (model.line_by (λ line. Ok line) (left_of self.entry)) }
        ensures shorter { IfOk result (λ x. length x.1.bytes.now < length self.entry.bytes.now) }
    {
        let (line, others) = cut(self.bytes, b'\n');
        let Some(bytes) = others else {
            return Err(TabFault::Truncated { line: self.number });
        };
        let after = Rest {
            bytes,
            number: self.number + 1,
        };
        Ok((line, after))
    }

    /// Whether the next line begins with this word.
    pub fn comes(self, word: &[u8]) -> bool
        ensures { result ≡ model.comes word.now (left_of self.entry) }
    {
        let (line, _) = cut(self.bytes, b'\n');
        let (first, _) = cut(line, b' ');
        is_word(first, word)
    }

    #[tactic(auto, using(crate::proofs::Reported::over_by_length))]
    /// Whether nothing is left.
    pub fn is_over(self) -> bool
        ensures { result ≡ model.is_over (left_of self.entry).lines }
    {
        self.bytes.is_empty()
    }
}
