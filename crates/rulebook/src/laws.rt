//! Theorems about figures and hours. Each stands on the contract of a function that does nothing else.
ghost use Rattle.rulebook.specs.Laws.{TheFirstLackingLetterIsTold, OpenExactlyInItsHours};

/// The first letter by rank that is needed and blank is the one that is told.
pub fn first_lacking_letter() -> bool
    ensures { TheFirstLackingLetterIsTold }
{
    true
}

/// A class is open exactly while one of its hours holds the minute.
pub fn open_in_its_hours() -> bool
    ensures { OpenExactlyInItsHours }
{
    true
}
