//! Theorems about price sets. Each stands on the contract of a function that does nothing else.
ghost use Rattle.price.specs.Laws.{EachQuestionHasOneAnswer, SetsHoldWhatTheySay};
ghost use Rattle.price.specs.Worked.{WorkedCasesAreRight};

/// The questions of a grid, and the nearest price, have exactly one answer for every set of prices.
pub fn one_answer_each() -> bool
    ensures { EachQuestionHasOneAnswer }
{
    true
}

/// The sets of the step grid, the single price and the limit are the ones that their names tell.
pub fn sets_as_told() -> bool
    ensures { SetsHoldWhatTheySay }
{
    true
}

/// The worked cases follow from the definitions.
pub fn worked_cases() -> bool
    ensures { WorkedCasesAreRight }
{
    true
}
