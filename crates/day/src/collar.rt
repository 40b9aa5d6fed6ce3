//! A collar: the lowest and the highest price that a contract may have, in pips.
ghost use Rattle.std.specs.Prelude.{◌≡◌, ◌*◌, ◌≤◌};

use history::DayFault;

#[derive(Clone, Copy, PartialEq, Eq, Debug)]
pub struct Collar {
    low: u64,
    high: u64,
    ghost least: { 1 ≤ low },
    ghost in_order: { low ≤ high },
    ghost most: { high ≤ 220_000_000_000 },
}

impl Collar {
    ghost use Rattle.day.specs.State.{collar_told, collar_for};

    /// The highest price that a collar can have, in pips.
    const HIGHEST: u64 = 220_000_000_000;

    /// A collar from `low` to `high`, none for 0 and 0; refused where it is out of its limits.
    pub fn new(low: u64, high: u64) -> Result<Option<Collar>, DayFault>
        ensures { collar_told result ≡ collar_for low high }
    {
        if low == 0 && high == 0 {
            return Ok(None);
        }
        if 1 <= low && low <= high && high <= Self::HIGHEST {
            Ok(Some(Collar { low, high }))
        } else {
            Err(DayFault::CollarOutsideLimits)
        }
    }

    /// Its ends in thousandths of a pip.
    pub(crate) fn ends(&self) -> (u64, u64)
        ensures value { result ≡ (1000 * self.now.low, 1000 * self.now.high) }
        ensures bound { (result.0 ≤ 220_000_000_000_000) × (result.1 ≤ 220_000_000_000_000) }
    {
        (1000 * self.low, 1000 * self.high)
    }
}
