//! The figures of a contract, by the rank of their letters.
ghost use Rattle.std.specs.Prelude.{◌≡◌, ℕ, true, None, slice_index_or};
ghost use Rattle.rulebook.specs.Limits.{fits};

mod posting;

/// Thirteen figures, each blank or within the limits of its letter.
#[derive(Clone, Copy, PartialEq, Eq, Debug)]
pub struct Figures {
    values: [Option<u64>; 13],
    ghost within: { (place : ℕ) → fits place (slice_index_or values place None) ≡ true },
}
