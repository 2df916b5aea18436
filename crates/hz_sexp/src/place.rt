//! A place in a text.

ghost use Rattle.std.specs.Prelude.{◌≡◌, ℕ, ◌+◌, ◌^◌, ◌≤◌, ◌<◌, [], length, drop, MatchOption, IfSome, IfNone};
ghost use Rattle.hz_base_model.specs.Forms.Forms.{line_end, Comment, begins};

/// What is left of a text, and the line where it begins, counted from 1.
#[derive(Clone, Copy)]
pub struct Place<'a> {
    pub rest: &'a [u8],
    pub line: u64,
    ghost fits: { line + length rest.now ≤ 2 ^ 32 },
}

/// Whether the text begins with these two bytes.
pub fn begins_with(text: &[u8], first: u8, second: u8) -> bool
    ensures { result ≡ begins first second text.now }
{
    match text {
        [a, b, ..] => *a == first && *b == second,
        _ => false,
    }
}

impl<'a> Place<'a> {
    ghost use Rattle.hz_sexp.specs.Steps.{IsFirst, IsCommentEnd};

    /// The first place of a text.
    pub fn start(text: &'a [u8]) -> Place<'a>
        requires { length text.now < 2 ^ 32 }
        ensures rest { result.rest.now ≡ text.now }
        ensures line { result.line ≡ 1 }
    {
        Place {
            rest: text,
            line: 1,
        }
    }

    /// The byte at this place, and the place after it.
    pub fn first(self) -> Option<(u8, Place<'a>)>
        ensures { MatchOption result (self.entry.rest.now ≡ []) (IsFirst self.entry) }
    {
        let (first, rest) = self.rest.split_first()?;
        let line = if *first == b'\n' {
            self.line + 1
        } else {
            self.line
        };
        Some((*first, Place { rest, line }))
    }

    /// The place some bytes further on the same line.
    pub fn along(self, count: usize) -> Place<'a>
        requires { count ≤ length self.rest.now }
        ensures rest { result.rest.now ≡ drop count self.entry.rest.now }
        ensures line { result.line ≡ self.entry.line }
    {
        Place {
            rest: &self.rest[count..],
            line: self.line,
        }
    }

    /// The place of the next line feed, or the end.
    pub fn end_of_line(self) -> Place<'a>
        ensures rest { result.rest.now ≡ line_end self.entry.rest.now }
        ensures line { result.line ≡ self.entry.line }
    {
        let mut place = self;
        while let Some((b, next)) = place.first() {
            if b == b'\n' {
                break;
            }
            place = next;
        }
        place
    }

    /// The place after the `*/` that ends a comment which is open here, if there is one.
    pub fn end_of_comment(self) -> Option<Place<'a>>
        ensures found { IfSome result (IsCommentEnd self.entry) }
        ensures none { IfNone result ((last : ℕ) × Comment self.entry.line self.entry.rest.now last []) }
    {
        let mut place = self;
        while let Some((_, next)) = place.first() {
            if begins_with(place.rest, b'*', b'/') {
                return Some(place.along(2));
            }
            place = next;
        }
        None
    }
}
