//! What a rulebook answers.
ghost use Rattle.std.specs.Prelude.{◌≡◌};
ghost use Rattle.rulebook.specs.Meaning.{Meaning, Sound, hours_of, prices_of, in_band};
ghost use Rattle.rulebook.specs.Sheets.{sheet};

use super::band::Band;
use super::faults::RuleFault;
use super::figures::Figures;
use super::hours::HoursClass;
use price::Grid;

pub trait Rulebook {
    type Grid: Grid + Drop;

    /// Whether a halt binds the products of this book.
    const HALT_BINDS: bool;

    ghost meaning: { Self → Meaning };

    /// The constant, where its value is to be known to a contract.
    fn is_bound_by_halts(&self) -> bool
        ensures { result ≡ (meaning self.now).halt_binds };

    /// The hours of a product.
    fn hours(&self, product: u64) -> Result<HoursClass, RuleFault>
        ensures { result ≡ hours_of (meaning self.now) product };

    /// The prices that a product has with these figures.
    fn band(&self, product: u64, figures: &Figures) -> Result<Band<Self::Grid>, RuleFault>
        ensures { in_band Self.Grid.Grid.holds result ≡ prices_of (meaning self.now) product (sheet figures.now) };

    ghost sound: { (book : Self) → Sound (meaning book) };
}
