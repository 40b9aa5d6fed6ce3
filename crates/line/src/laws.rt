//! The laws of fields and lines, each on the contract of a function that does nothing else.
ghost use Rattle.line.specs.Laws.{FieldsAreTheLine, LinesComeInPieces};

/// The fields of every line, joined by blanks, are the line again; none holds a blank; there is at
/// least one; and each stands in the line at its position.
pub fn fields_are_the_line() -> bool
    ensures { FieldsAreTheLine }
{
    true
}

/// However a text is cut in two, its lines are the ended lines of the first piece, and then the
/// lines of what that piece leaves with the second.
pub fn lines_come_in_pieces() -> bool
    ensures { LinesComeInPieces }
{
    true
}
