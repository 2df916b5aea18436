//! Options of the automata.

ghost use Rattle.std.specs.Prelude.{◌≡◌, IfOk};
ghost use Rattle.std.specs.Option.{option_map};
ghost use Rattle.hz_description_model.specs.Reading.Descriptions.{no_options};
ghost use Rattle.hz_description_model.specs.Reading.DescriptionForms as model;
ghost use Rattle.hz_base_model.specs.Lines.{separated};
ghost use Rattle.hz_mdread.specs.Shape.{options};

use crate::patterns::{pieces, trimmed};
use hz_regexp::NoMemory;
use std::alloc::Global;

/// Which of the options that have an effect stand in a description. GCC Internals, `automata_option`.
#[derive(Clone, Copy, Debug, PartialEq, Eq)]
pub struct Options {
    /// `ndfa`: an issue may take each alternative that fits, and not the first alone.
    pub ndfa: bool,
    /// `no-minimization`
    pub no_minimization: bool,
    /// `stats`
    pub stats: bool,
    /// `v`
    pub verbose: bool,
    /// `no-comb-vect`
    pub no_comb_vect: bool,
}

impl Options {
    /// No option.
    pub(crate) fn none() -> Options
        ensures { options result ≡ no_options }
    {
        Options {
            ndfa: false,
            no_minimization: false,
            stats: false,
            verbose: false,
            no_comb_vect: false,
        }
    }

    /// The options that stand here or there.
    pub(crate) fn or(self, other: Options) -> Options
        ensures { options result ≡ model.all_options (options self) (options other) }
    {
        Options {
            ndfa: self.ndfa || other.ndfa,
            no_minimization: self.no_minimization || other.no_minimization,
            stats: self.stats || other.stats,
            verbose: self.verbose || other.verbose,
            no_comb_vect: self.no_comb_vect || other.no_comb_vect,
        }
    }

    /// The options with one more, if there is such an option.
    fn with(self, word: &[u8]) -> Option<Options>
        ensures { option_map options result ≡ model.with_option (options self) word.now }
    {
        let mut options = self;
        if word == b"ndfa".as_slice() {
            options.ndfa = true;
        } else if word == b"no-minimization".as_slice() {
            options.no_minimization = true;
        } else if word == b"stats".as_slice() {
            options.stats = true;
        } else if word == b"v".as_slice() {
            options.verbose = true;
        } else if word == b"no-comb-vect".as_slice() {
            options.no_comb_vect = true;
        } else if !is_silent(word) {
            return None;
        }
        Some(options)
    }
}

/// Whether this is an option that changes nothing.
fn is_silent(word: &[u8]) -> bool
    ensures { result ≡ model.is_silent word.now }
{
    word == b"time".as_slice() || word == b"progress".as_slice() || word == b"w".as_slice()
}

/// The options between commas, white space round each dropped. `None` where there is no such option.
pub fn options_of(alloc: Global, bytes: &[u8]) -> Result<Option<Options>, NoMemory>
    ensures { IfOk result (λ found. option_map options found ≡ model.with_options no_options (separated bytes.now)) }
{
    let mut options = Options::none();
    for piece in &pieces(alloc, bytes)? {
        match options.with(trimmed(piece)) {
            Some(more) => options = more,
            None => return Ok(None),
        }
    }
    Ok(Some(options))
}
