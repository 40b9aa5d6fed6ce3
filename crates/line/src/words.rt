//! The words that a line begins with.
ghost use Rattle.std.specs.Prelude.{◌≡◌};
ghost use Rattle.line.specs.Words.{word_in, fields_of};

use history::Side;

/// What a line asks for.
#[derive(Clone, Copy, PartialEq, Eq, Debug)]
pub(crate) enum Word {
    List,
    Post,
    Collar,
    Clock,
    Halt,
    Lift,
    Ask,
    Enter(Side),
    Withdraw,
}

impl Word {
    /// The word that a field of exactly one byte stands for.
    pub(crate) fn read(bytes: &[u8]) -> Option<Word>
        ensures { result ≡ word_in bytes.now }
    {
        let [letter] = bytes else {
            return None;
        };
        match char::from(*letter) {
            'L' => Some(Word::List),
            'P' => Some(Word::Post),
            'K' => Some(Word::Collar),
            'C' => Some(Word::Clock),
            'H' => Some(Word::Halt),
            'G' => Some(Word::Lift),
            'A' => Some(Word::Ask),
            'B' => Some(Word::Enter(Side::Bid)),
            'S' => Some(Word::Enter(Side::Offer)),
            'W' => Some(Word::Withdraw),
            _ => None,
        }
    }

    /// How many fields its line has, the word among them.
    pub(crate) fn fields(self) -> usize
        ensures { result ≡ fields_of self }
    {
        match self {
            Word::List | Word::Clock | Word::Halt | Word::Lift => 2,
            Word::Withdraw => 3,
            Word::Post | Word::Collar | Word::Ask => 4,
            Word::Enter(_) => 6,
        }
    }
}
