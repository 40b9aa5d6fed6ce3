//! Trading hours, in minutes from midnight at the start of the business day.
ghost use Rattle.std.specs.Prelude.{◌≡◌, [], ◌∷◌};
ghost use Rattle.rulebook.specs.Hours.{ending, closing};

use std::ops::Range;

#[derive(Clone, Copy, PartialEq, Eq, Debug)]
pub enum HoursClass {
    A,
    B,
    C,
    D,
    E,
}

impl HoursClass {
    /// The minute at which the hours that hold `minute` end, `None` while closed.
    pub fn closing(self, minute: u64) -> Option<u64>
        ensures { result ≡ closing self minute }
    {
        match self {
            HoursClass::A => until(500..915, minute).or(until(925..1800, minute)),
            HoursClass::B => until(500..990, minute).or(until(1005..1800, minute)),
            HoursClass::C => until(500..990, minute).or(until(1005..1140, minute)),
            HoursClass::D => until(500..990, minute),
            HoursClass::E => until(500..990, minute).or(until(1005..1080, minute)),
        }
    }
}

/// The end of the hours if they hold `minute`.
fn until(hours: Range<u64>, minute: u64) -> Option<u64>
    ensures { result ≡ ending ((hours.start, hours.end) ∷ []) minute }
{
    hours.contains(&minute).then_some(hours.end)
}
