//! A text cut into lines, and a line into its words.

ghost use Rattle.std.specs.Prelude.{◌≡◌, ◌<◌, ◌≤◌, ◌∷◌, ◌+◌, ◌-◌, length, drop, position, ◌==◌};
ghost use Rattle.std.specs.List.{prefix_len, suffix_len, position_or_len, slice_range};
ghost use Rattle.hz_base_model.specs.Lines.{lines_of};
ghost use Rattle.hz_pipeline_model.specs.Traces.Traces as model;

/// The place of the first line feed.
fn line_feed(text: &[u8]) -> Option<usize>
    ensures { result ≡ position (λ b. b == 10) text.now }
{
    text.iter().position(|b| *b == b'\n')
}

/// Where the line ends that begins at a place of a text: at its line feed, or at the end of the text.
pub fn line_end(text: &[u8], from: usize) -> usize
    requires { from < length text.now }
    ensures order { from ≤ result }
    ensures within { result ≤ length text.now }
    ensures lines { lines_of (drop from text.now) ≡ slice_range text.now from result ∷ lines_of (drop (result + 1) text.now) }
{
    match line_feed(&text[from..]) {
        Some(length) => from + length,
        None => text.len(),
    }
}

/// Space, tab and carriage return, which are dropped at both ends of a line.
fn is_margin(byte: u8) -> bool
    ensures { result ≡ model.is_margin byte }
{
    byte == b' ' || byte == b'\t' || byte == b'\r'
}

/// Space and tab, which stand between the words of a line.
fn is_gap(byte: u8) -> bool
    ensures { result ≡ model.is_gap byte }
{
    byte == b' ' || byte == b'\t'
}

/// How many bytes of margin a line begins with.
fn margin_before(line: &[u8]) -> usize
    ensures within { result ≤ length line.now }
    ensures count { result ≡ prefix_len model.is_margin line.now }
{
    for (count, byte) in line.iter().enumerate() {
        if !is_margin(*byte) {
            return count;
        }
    }
    line.len()
}

/// Where the margin begins that a line ends with.
fn margin_after(line: &[u8]) -> usize
    ensures within { result ≤ length line.now }
    ensures count { result ≡ length line.now - suffix_len model.is_margin line.now }
{
    let mut end = line.len();
    while end > 0 {
        if !is_margin(line[end - 1]) {
            return end;
        }
        end -= 1;
    }
    end
}

/// A line without the margin at both ends.
pub fn without_margin(line: &[u8]) -> &[u8]
    ensures { result.now ≡ model.without_margin line.now }
{
    let rest = &line[margin_before(line)..];
    &rest[..margin_after(rest)]
}

/// How long the first word of a line is.
fn word_length(line: &[u8]) -> usize
    ensures within { result ≤ length line.now }
    ensures count { result ≡ position_or_len model.is_gap line.now }
{
    for (count, byte) in line.iter().enumerate() {
        if is_gap(*byte) {
            return count;
        }
    }
    line.len()
}

/// How many spaces and tabs a text begins with.
fn gap_before(text: &[u8]) -> usize
    ensures within { result ≤ length text.now }
    ensures count { result ≡ prefix_len model.is_gap text.now }
{
    for (count, byte) in text.iter().enumerate() {
        if !is_gap(*byte) {
            return count;
        }
    }
    text.len()
}

/// The word that a line begins with, and what follows it after spaces and tabs.
pub fn split_words(line: &[u8]) -> (&[u8], &[u8])
    ensures word { result.0.now ≡ model.first_word line.now }
    ensures operand { result.1.now ≡ model.operand line.now }
{
    let (word, rest) = line.split_at(word_length(line));
    (word, &rest[gap_before(rest)..])
}
