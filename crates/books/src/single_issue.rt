//! The single-issue book.
ghost use Rattle.std.specs.Prelude.{◌≡◌};
ghost use Rattle.rulebook.specs.Sheets.{sheet};
ghost use Rattle.books.specs.Books.{single_issue, row_in, entry_centre};
ghost use Rattle.books.specs.Exchange.{single_issue_rule};
ghost use Rattle.books.specs.Bounds.{single_issue_small};
ghost use Rattle.books.specs.Soundness.{single_issue_sound};

use super::rows::Row;
use super::tables::{SINGLE_ISSUE, Table, row_of};
use price::StepGrid;
use rulebook::{Band, Figures, HoursClass, RuleFault, Rulebook};

#[derive(Clone, Copy)]
pub struct SingleIssue;

impl Table for SingleIssue {
    ghost last = { 22 };

    ghost rule = { single_issue_rule };

    ghost all_small = { single_issue_small };

    #[tactic(auto, unfolding(crate::specs::Exchange::single_issue_rule))]
    fn rows() -> &'static [Row] {
        &SINGLE_ISSUE
    }
}

impl SingleIssue {
    /// The price that a product's prices are measured from.
    pub fn centre(&self, product: u64, figures: &Figures) -> Result<u64, RuleFault>
        ensures { result ≡ entry_centre (row_in 22 single_issue_rule product) (sheet figures.now) }
    {
        row_of::<Self>(product)?.centre(figures)
    }
}

// Not one `impl` for every table: the trait is another crate's, and a crate may write that only for types of its own.
impl Rulebook for SingleIssue {
    type Grid = StepGrid;

    const HALT_BINDS: bool = true;

    ghost meaning = { λ _. single_issue };

    ghost sound = { λ book. single_issue_sound };

    fn is_bound_by_halts(&self) -> bool {
        Self::HALT_BINDS
    }

    fn hours(&self, product: u64) -> Result<HoursClass, RuleFault> {
        Ok(row_of::<Self>(product)?.hours)
    }

    fn band(&self, product: u64, figures: &Figures) -> Result<Band<StepGrid>, RuleFault> {
        row_of::<Self>(product)?.prices(figures)
    }
}
