//! The words of the program that compares.

ghost use Rattle.std.specs.Prelude.{◌≡◌};
ghost use Rattle.std.specs.Option.{option_map};
ghost use Rattle.hz_same_model.specs.Answers.{same_files};
ghost use Rattle.hz_tool_words.specs.Shape.{pair_in, words_in};

use hz_tool_words::has_option;

/// The names of both files: those of two words of which none begins with `-`. No others name files.
pub(crate) fn files_named(words: &[String]) -> Option<(&str, &str)>
    ensures { option_map pair_in result ≡ same_files (words_in words.now) }
{
    if words.len() != 2 || has_option(words) {
        return None;
    }
    Some((words[0].as_str(), words[1].as_str()))
}
