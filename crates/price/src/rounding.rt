//! The multiples of a step beside a number.
ghost use Rattle.std.specs.Prelude.{◌+◌, ◌^◌, ◌≤◌};
ghost use Rattle.price.specs.Rounding.{LastMultiple, FirstMultiple};

/// The last multiple of `step` up to `most`, 0 where it is the only one.
pub(crate) fn last_multiple(step: u64, most: u64) -> u64
    requires { 1 ≤ step }
    ensures { LastMultiple step most result }
{
    most - most % step
}

/// The first multiple of `step` from `least` on.
pub(crate) fn first_multiple(step: u64, least: u64) -> u64
    requires positive { 1 ≤ step }
    requires small { least + step ≤ 2 ^ 63 }
    ensures { FirstMultiple step least result }
{
    least.div_ceil(step) * step
}
