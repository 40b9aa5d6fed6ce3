//! The compression book.
ghost use Rattle.std.specs.Prelude.{◌≡◌};
ghost use Rattle.books.specs.Books.{compression};
ghost use Rattle.books.specs.Soundness.{compression_sound};

use price::SinglePrice;
use rulebook::{Band, Figures, HoursClass, Letter, RuleFault, Rulebook};

#[derive(Clone, Copy)]
pub struct Compression;

impl Rulebook for Compression {
    type Grid = SinglePrice;

    const HALT_BINDS: bool = false;

    ghost meaning = { λ _. compression };

    ghost sound = { λ book. compression_sound };

    fn is_bound_by_halts(&self) -> bool {
        Self::HALT_BINDS
    }

    fn hours(&self, product: u64) -> Result<HoursClass, RuleFault> {
        match product {
            1 | 2 => Ok(HoursClass::B),
            _ => Err(RuleFault::ProductAbsent),
        }
    }

    fn band(&self, product: u64, figures: &Figures) -> Result<Band<SinglePrice>, RuleFault> {
        self.hours(product)?;
        let settlement = figures
            .get(Letter::K)
            .ok_or(RuleFault::LetterLacking(Letter::K))?;
        let grid = SinglePrice::new(settlement).unwrap();
        let end = 1000 * settlement;
        Ok(Band {
            grid,
            low: end,
            high: end,
        })
    }
}
