//! A law of the day, on the contract of a function that does nothing else.
ghost use Rattle.trading.specs.Laws.{CallsFollowTheHistory};

/// Every call takes a day on with its history, which stays lawful and sound.
pub fn calls_follow_the_history() -> bool
    ensures { CallsFollowTheHistory }
{
    true
}
