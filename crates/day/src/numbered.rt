//! The item of a number, from 1.
ghost use Rattle.std.specs.Prelude.{◌≡◌};
ghost use Rattle.day.specs.State.{item_of};

/// The item of a number, if there is one.
pub(crate) fn numbered<T: Copy>(items: &[T], number: u64) -> Option<T>
    ensures { result ≡ item_of items.now number }
{
    let place = number.checked_sub(1)?;
    items.get(place as usize).copied()
}
