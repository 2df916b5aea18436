//! The parts of an expression that stand in one pair of parentheses.

ghost use Rattle.std.specs.Prelude.{◌≡◌, ◌++◌, ◌∷◌, [], IfOk};
ghost use Rattle.hz_description_model.specs.Grammar.ExpressionTexts.{joined_by};
ghost use Rattle.hz_description_model.specs.Grammar.ExpressionSteps.{unopened, before, sequence_with};
ghost use Rattle.hz_regexp.specs.Shape.{expression, expressions};
ghost use Rattle.hz_regexp.specs.Tokens.{mark_of};
ghost use Rattle.hz_regexp.specs.Levels.{open_of};

use crate::expr::Expr;
use crate::names::NoMemory;
use crate::tokens::Mark;
use std::alloc::Global;

/// The parts before the last one: of the sequence, of its last choice, and of that one's last part.
#[derive(Drop)]
pub struct Level {
    pub sequence: Vec<Expr>,
    pub choices: Vec<Expr>,
    pub together: Vec<Expr>,
}

/// The parts with a last one, as one expression; a part with none before it stays as it is.
fn joined(mark: Mark, mut parts: Vec<Expr>, last: Expr) -> Result<Expr, NoMemory>
    ensures { IfOk result (λ whole. expression whole ≡ joined_by (mark_of mark) (expressions parts.items ++ expression last ∷ [])) }
{
    if parts.is_empty() {
        return Ok(last);
    }
    parts.push(last)?;
    Ok(match mark {
        Mark::Comma => Expr::Seq(parts),
        Mark::Bar => Expr::Oneof(parts),
        Mark::Plus => Expr::Allof(parts),
    })
}

impl Level {
    /// No part yet.
    pub fn new(alloc: Global) -> Level
        ensures { open_of result ≡ unopened }
    {
        Level {
            sequence: Vec::new(alloc),
            choices: Vec::new(alloc),
            together: Vec::new(alloc),
        }
    }

    /// The level after a part and a mark.
    pub fn before(self, alloc: Global, mark: Mark, part: Expr) -> Result<Level, NoMemory>
        ensures { IfOk result (λ level. open_of level ≡ before (mark_of mark) (open_of self) (expression part)) }
    {
        let Level {
            mut sequence,
            mut choices,
            mut together,
        } = self;
        match mark {
            Mark::Plus => together.push(part)?,
            Mark::Bar => {
                choices.push(joined(Mark::Plus, together, part)?)?;
                together = Vec::new(alloc);
            }
            Mark::Comma => {
                let all = joined(Mark::Plus, together, part)?;
                sequence.push(joined(Mark::Bar, choices, all)?)?;
                choices = Vec::new(alloc);
                together = Vec::new(alloc);
            }
        }
        Ok(Level {
            sequence,
            choices,
            together,
        })
    }

    /// The expression of all parts with a last one.
    pub fn whole(self, part: Expr) -> Result<Expr, NoMemory>
        ensures { IfOk result (λ whole. expression whole ≡ sequence_with (open_of self) (expression part)) }
    {
        let Level {
            sequence,
            choices,
            together,
        } = self;
        let all = joined(Mark::Plus, together, part)?;
        let choice = joined(Mark::Bar, choices, all)?;
        joined(Mark::Comma, sequence, choice)
    }
}
