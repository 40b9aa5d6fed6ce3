//! The letters of the figures, in the order of their rank.
ghost use Rattle.std.specs.Prelude.{◌≡◌, Some};
ghost use Rattle.rulebook.specs.Letters.{rank, same, letter_of, most};
ghost use Rattle.rulebook.specs.Words.{letter_text};

use super::faults::FigureFault;
use std::fmt;

#[derive(Clone, Copy, PartialEq, Eq, Debug)]
pub enum Letter {
    /// Highest bid.
    B,
    /// Lowest offer.
    O,
    /// Last traded price.
    L,
    /// Reference price for price limits.
    U,
    /// Base price of the underlying security.
    V,
    /// Last price of the underlying security.
    W,
    /// Reference price for price limits of the underlying futures.
    X,
    /// Last futures price less theoretical basis.
    Y,
    /// Previous close of the index.
    Z,
    /// Theoretical price.
    H,
    /// Last index value.
    I,
    /// Previous settlement price.
    K,
    /// Choice between the mid-price and the last price.
    M,
}

impl Letter {
    pub const ALL: [Letter; 13] = [
        Letter::B,
        Letter::O,
        Letter::L,
        Letter::U,
        Letter::V,
        Letter::W,
        Letter::X,
        Letter::Y,
        Letter::Z,
        Letter::H,
        Letter::I,
        Letter::K,
        Letter::M,
    ];

    /// The letter of a character, if it has one.
    pub fn from_char(character: char) -> Option<Letter>
        ensures { result ≡ letter_of character }
    {
        match character {
            'B' => Some(Letter::B),
            'O' => Some(Letter::O),
            'L' => Some(Letter::L),
            'U' => Some(Letter::U),
            'V' => Some(Letter::V),
            'W' => Some(Letter::W),
            'X' => Some(Letter::X),
            'Y' => Some(Letter::Y),
            'Z' => Some(Letter::Z),
            'H' => Some(Letter::H),
            'I' => Some(Letter::I),
            'K' => Some(Letter::K),
            'M' => Some(Letter::M),
            _ => None,
        }
    }

    /// The place of the letter in the order, from 1.
    pub fn rank(self) -> usize
        ensures { result ≡ rank self }
    {
        self as usize + 1
    }

    pub fn is(self, other: Letter) -> bool
        ensures { result ≡ same self other }
    {
        self == other
    }

    /// The most that may be posted under the letter.
    pub fn most(self) -> u64
        ensures { result ≡ most self }
    {
        match self {
            Letter::M => 2,
            _ => 100_000_000_000,
        }
    }
}

impl TryFrom<char> for Letter {
    ghost use Rattle.std.specs.Prelude.{◌≡◌};
    ghost use Rattle.std.specs.Option.{ok_or};
    ghost use Rattle.rulebook.specs.Letters.{letter_of};
    ghost use Rattle.rulebook.specs.declared.faults.FigureFault.TheVariants.{UnknownLetter};

    type Error = FigureFault;

    ghost try_from_gives = { λ character r. r ≡ ok_or (letter_of character) UnknownLetter };

    fn try_from(character: char) -> Result<Letter, FigureFault> {
        Letter::from_char(character).ok_or(FigureFault::UnknownLetter)
    }
}

// By hand: a derived one would not say what it writes.
impl fmt::Display for Letter {
    ghost output = { λ letter. Some (letter_text letter) };

    fn fmt<W: fmt::Write>(&self, f: &mut fmt::Formatter<W>) -> fmt::Result {
        match *self {
            Letter::B => f.write_str("B"),
            Letter::O => f.write_str("O"),
            Letter::L => f.write_str("L"),
            Letter::U => f.write_str("U"),
            Letter::V => f.write_str("V"),
            Letter::W => f.write_str("W"),
            Letter::X => f.write_str("X"),
            Letter::Y => f.write_str("Y"),
            Letter::Z => f.write_str("Z"),
            Letter::H => f.write_str("H"),
            Letter::I => f.write_str("I"),
            Letter::K => f.write_str("K"),
            Letter::M => f.write_str("M"),
        }
    }
}
