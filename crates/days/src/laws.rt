//! What follows for worked days, on the contract of a function that does nothing else.
ghost use Rattle.days.specs.Worked.{WorkedDays};

/// The worked days are what the definitions say.
pub fn worked_days() -> bool
    ensures { WorkedDays }
{
    true
}
