//! A law of the day, on the contract of a function that does nothing else.
ghost use Rattle.day.specs.Laws.{EntriesFollowTheRulings};

/// The checks of an entry, as `enter` makes them, are those of the rulings.
#[tactic(auto, using(crate::proofs::Entering::entries_follow_the_rulings))]
pub fn entries_follow_the_rulings() -> bool
    ensures { EntriesFollowTheRulings }
{
    true
}
