//! Why a figure is not taken, and why a rulebook has no answer.
ghost use Rattle.std.specs.Prelude.{◌≡◌, Some};
ghost use Rattle.rulebook.specs.Faults.{figure_number, rule_number, rule_place};
ghost use Rattle.rulebook.specs.Words.{figure_words, rule_words};

use super::letters::Letter;
use std::error::Error;
use std::fmt;

#[derive(Clone, Copy, PartialEq, Eq, Debug)]
pub enum FigureFault {
    /// No figure has this letter.
    UnknownLetter,
    /// A value over the most of its letter.
    ValueOverLimit,
}

#[derive(Clone, Copy, PartialEq, Eq, Debug)]
pub enum RuleFault {
    /// The rulebook has no product of this number.
    ProductAbsent,
    /// The figure of this letter is needed and blank.
    LetterLacking(Letter),
}

impl FigureFault {
    /// The number under which it is refused.
    pub fn number(self) -> u64
        ensures { result ≡ figure_number self }
    {
        match self {
            FigureFault::UnknownLetter => 12,
            FigureFault::ValueOverLimit => 13,
        }
    }
}

impl RuleFault {
    /// The number under which it is refused.
    pub fn number(self) -> u64
        ensures { result ≡ rule_number self }
    {
        match self {
            RuleFault::ProductAbsent => 14,
            RuleFault::LetterLacking(_) => 25,
        }
    }

    /// The rank of the letter that is lacking, else 0.
    pub fn place(self) -> u64
        ensures { result ≡ rule_place self }
    {
        match self {
            RuleFault::ProductAbsent => 0,
            RuleFault::LetterLacking(letter) => letter.rank() as u64,
        }
    }
}

// By hand: a derived one would not say what it writes.
impl fmt::Display for FigureFault {
    ghost output = { λ fault. Some (figure_words fault) };

    fn fmt<W: fmt::Write>(&self, f: &mut fmt::Formatter<W>) -> fmt::Result {
        match *self {
            FigureFault::UnknownLetter => f.write_str("unknown letter"),
            FigureFault::ValueOverLimit => f.write_str("value over its limit"),
        }
    }
}

impl Error for FigureFault {}

// By hand: a derived one would not say what it writes.
impl fmt::Display for RuleFault {
    ghost output = { λ fault. Some (rule_words fault) };

    fn fmt<W: fmt::Write>(&self, f: &mut fmt::Formatter<W>) -> fmt::Result {
        match *self {
            RuleFault::ProductAbsent => f.write_str("no such product"),
            RuleFault::LetterLacking(letter) => write!(f, "figure {letter} is lacking"),
        }
    }
}

impl Error for RuleFault {}
