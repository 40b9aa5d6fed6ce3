//! The flexible book.
ghost use Rattle.std.specs.Prelude.{◌≡◌};
ghost use Rattle.books.specs.Books.{flexible};
ghost use Rattle.books.specs.Exchange.{flexible_rule};
ghost use Rattle.books.specs.Bounds.{flexible_small};
ghost use Rattle.books.specs.Soundness.{flexible_sound};

use super::rows::Row;
use super::tables::{FLEXIBLE, Table, row_of};
use price::StepGrid;
use rulebook::{Band, Figures, HoursClass, RuleFault, Rulebook};

#[derive(Clone, Copy)]
pub struct Flexible;

impl Table for Flexible {
    ghost last = { 4 };

    ghost rule = { flexible_rule };

    ghost all_small = { flexible_small };

    #[tactic(auto, unfolding(crate::specs::Exchange::flexible_rule))]
    fn rows() -> &'static [Row] {
        &FLEXIBLE
    }
}

// Not one `impl` for every table: the trait is another crate's, and a crate may write that only for types of its own.
impl Rulebook for Flexible {
    type Grid = StepGrid;

    const HALT_BINDS: bool = true;

    ghost meaning = { λ _. flexible };

    ghost sound = { λ book. flexible_sound };

    fn is_bound_by_halts(&self) -> bool {
        Self::HALT_BINDS
    }

    fn hours(&self, product: u64) -> Result<HoursClass, RuleFault> {
        Ok(row_of::<Self>(product)?.hours)
    }

    fn band(&self, product: u64, figures: &Figures) -> Result<Band<StepGrid>, RuleFault> {
        row_of::<Self>(product)?.prices(figures)
    }
}
