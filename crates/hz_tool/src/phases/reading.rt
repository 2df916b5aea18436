//! The files that commands read beside descriptions and traces, each with its limit of bytes.

ghost use Rattle.std.specs.Prelude.{◌≡◌};
ghost use Rattle.hz_answer_model.specs.BlockAnswers.{block_limit, state_text_limit};
ghost use Rattle.hz_answer_model.specs.TableAnswers.{tables_limit};
ghost use Rattle.hz_front.specs.Reading.{word_of};

use hz_front::reading::FileWord;

/// Bytes of a tables text, at most.
const TABLES_LIMIT: u64 = 536_870_912;

/// Bytes of a block, at most.
const BLOCK_LIMIT: u64 = 4_194_304;

/// Bytes of the text of a state, at most.
const STATE_LIMIT: u64 = 4_194_304;

/// The file of a tables text.
pub fn tables_file<'a>(name: &'a str) -> FileWord<'a>
    ensures { result ≡ word_of name.entry tables_limit }
{
    FileWord {
        name,
        most: TABLES_LIMIT,
    }
}

/// The file of a block.
pub fn block_file<'a>(name: &'a str) -> FileWord<'a>
    ensures { result ≡ word_of name.entry block_limit }
{
    FileWord {
        name,
        most: BLOCK_LIMIT,
    }
}

/// The file of a state.
pub fn state_file<'a>(name: &'a str) -> FileWord<'a>
    ensures { result ≡ word_of name.entry state_text_limit }
{
    FileWord {
        name,
        most: STATE_LIMIT,
    }
}
