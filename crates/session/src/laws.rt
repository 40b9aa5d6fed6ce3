//! The laws of a session, each on the contract of a function that does nothing else.
ghost use Rattle.session.specs.Laws.{PiecesAreTheWhole, AnswersArePrinted, RefusedLinesChangeNothing};

/// However an input is cut into pieces, it is answered as it would be whole.
pub fn pieces_are_the_whole() -> bool
    ensures { PiecesAreTheWhole }
{
    true
}

/// What is printed for lines is what the answers to their calls say.
pub fn answers_are_printed() -> bool
    ensures { AnswersArePrinted }
{
    true
}

/// A line that is refused leaves the day exactly as it was.
pub fn refused_lines_change_nothing() -> bool
    ensures { RefusedLinesChangeNothing }
{
    true
}
