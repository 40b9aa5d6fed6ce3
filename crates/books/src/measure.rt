//! What a row makes of the figures of a contract.
ghost use Rattle.std.specs.Prelude.{◌≡◌, ◌+◌, ◌*◌, ◌≤◌, ◌&&◌, IfSome, IfErr, OnOk, Some, None, Ok};
ghost use Rattle.price.specs.Sets.{last_price, multiples};
ghost use Rattle.rulebook.specs.Meaning.{first, lacking, in_band, prices_of_product};
ghost use Rattle.rulebook.specs.Sheets.{sheet, is_blank};
ghost use Rattle.books.specs.Books.{entry_centre};
ghost use Rattle.books.specs.Reference.{amount, nearest_multiple, mid_price, trading_price, last_or_reference};
ghost use Rattle.books.specs.Rows.{Small, needs, centre, swing, width, row_product, band_of, is_swing};

use super::rows::{Centre, Row};
use price::{Fraction, StepGrid, nearest};
use rulebook::{Band, Figures, Letter, RuleFault};

impl Row {
    /// Whether the row needs the figure of `letter`.
    fn needs(&self, letter: Letter) -> bool
        ensures { result ≡ needs self.now letter }
    {
        let of_centre = match self.centre {
            Centre::TheoreticalPrice => Letter::H,
            _ => Letter::U,
        };
        letter == of_centre || letter == self.of || is_swing(self.swing, letter)
    }

    /// Whether the row needs the figure of `letter` and it is blank.
    fn lacks(&self, figures: &Figures, letter: Letter) -> bool
        ensures { result ≡ needs self.now letter && is_blank (sheet figures.now letter) }
    {
        self.needs(letter) && figures.get(letter).is_none()
    }

    /// The first of `letters` that is lacking.
    fn first_lacking(&self, figures: &Figures, letters: &[Letter]) -> Option<Letter>
        ensures { result ≡ first (λ letter. needs self.now letter && is_blank (sheet figures.now letter)) letters.now }
    {
        // A copy, so that the row is not read again for each letter.
        let row = *self;
        letters
            .iter()
            .copied()
            .find(|letter| row.lacks(figures, *letter))
    }

    /// The first letter by rank that the row needs and that is blank.
    fn lacking_letter(&self, figures: &Figures) -> Option<Letter>
        ensures { result ≡ lacking (needs self.now) (sheet figures.now) }
    {
        self.first_lacking(figures, &Letter::ALL)
    }

    /// The first letter that is lacking, as what refuses.
    fn check_figures(&self, figures: &Figures) -> Result<(), Letter>
        ensures ok { OnOk result (lacking (needs self.now) (sheet figures.now) ≡ None) }
        ensures err { IfErr result (λ letter. lacking (needs self.now) (sheet figures.now) ≡ Some letter) }
    {
        self.lacking_letter(figures).map_or(Ok(()), Err)
    }

    /// The price that the row's prices are measured from.
    fn centre_price(&self, figures: &Figures) -> u64
        requires { Small self.now }
        ensures value { result ≡ centre self.now.centre self.now.auction_step (sheet figures.now) }
        ensures bound { result ≤ last_price }
    {
        match (self.centre, self.auction_step) {
            (Centre::TradingPrice, Some(step)) => {
                trading_price(StepGrid::new(step).unwrap(), figures)
            }
            (Centre::TradingPrice, None) => last_or_reference(figures),
            (Centre::LastPrice, _) => last_or_reference(figures),
            (Centre::ReferencePrice, _) => amount(figures, Letter::U),
            (Centre::TheoreticalPrice, _) => amount(figures, Letter::H),
        }
    }

    /// How far a price may be from the centre, in thousandths of a pip.
    fn width(&self, figures: &Figures) -> u64
        requires { Small self.now }
        ensures value { result ≡ width self.now (sheet figures.now) }
        ensures bound { result ≤ 132_000_000_000_000 }
    {
        share(self.weight, amount(figures, self.of)) + 1000 * swing_between(self.swing, figures)
    }

    /// The prices of a row whose needed figures are posted.
    fn posted_prices(&self, figures: &Figures) -> Band<StepGrid>
        requires { Small self.now }
        ensures { band_of result ≡ (row_product self.now).prices (sheet figures.now) }
    {
        let grid = StepGrid::new(self.unit).unwrap();
        let centre = 1000 * self.centre_price(figures);
        let width = self.width(figures);
        let low = centre.saturating_sub(width).max(1000 * self.unit);
        Band {
            grid,
            low,
            high: centre + width,
        }
    }

    /// The price that the prices of a row are measured from, or the first letter that it lacks.
    pub(crate) fn centre(&self, figures: &Figures) -> Result<u64, RuleFault>
        requires { Small self.now }
        ensures { result ≡ entry_centre (Ok self.now) (sheet figures.now) }
    {
        self.check_figures(figures)
            .map_err(RuleFault::LetterLacking)?;
        Ok(self.centre_price(figures))
    }

    /// The prices of a row, or the first letter that it lacks.
    pub(crate) fn prices(&self, figures: &Figures) -> Result<Band<StepGrid>, RuleFault>
        requires { Small self.now }
        ensures { in_band (λ grid. multiples grid.step) result ≡ prices_of_product (Some (row_product self.now)) (sheet figures.now) }
    {
        self.check_figures(figures)
            .map_err(RuleFault::LetterLacking)?;
        Ok(self.posted_prices(figures))
    }
}

/// The price of `grid` that is nearest to half of `sum`.
fn nearest_to_half(grid: StepGrid, sum: u64) -> Option<u64>
    requires { sum ≤ 200_000_000_000 }
    ensures value { result ≡ nearest_multiple grid.step sum }
    ensures bound { IfSome result (λ price. price ≤ last_price) }
{
    let half = Fraction::new(sum, 2).unwrap();
    let (price, _) = nearest(&grid, half)?;
    Some(price)
}

/// The mid-price on the grid of an auction step, where bid and offer are posted.
fn mid_price(grid: StepGrid, figures: &Figures) -> Option<u64>
    ensures value { result ≡ mid_price grid.step (sheet figures.now) }
    ensures bound { IfSome result (λ price. price ≤ last_price) }
{
    let bid = figures.get(Letter::B)?;
    let offer = figures.get(Letter::O)?;
    nearest_to_half(grid, bid + offer)
}

/// S: the last price, else the reference price.
fn last_or_reference(figures: &Figures) -> u64
    ensures value { result ≡ last_or_reference (sheet figures.now) }
    ensures bound { result ≤ 100_000_000_000 }
{
    figures.get(Letter::L).unwrap_or(amount(figures, Letter::U))
}

/// T: the mid-price, else the last price, else the reference price; the choice can put the last price first.
fn trading_price(grid: StepGrid, figures: &Figures) -> u64
    ensures value { result ≡ trading_price grid.step (sheet figures.now) }
    ensures bound { result ≤ last_price }
{
    let mid = mid_price(grid, figures);
    let last = figures.get(Letter::L);
    let chosen = match figures.get(Letter::M) {
        Some(2) => last.or(mid),
        _ => mid.or(last),
    };
    chosen.or(figures.get(Letter::U)).unwrap_or(0)
}

/// Whether a letter is one of two.
fn is_swing(letters: Option<(Letter, Letter)>, letter: Letter) -> bool
    ensures { result ≡ is_swing letters letter }
{
    match letters {
        Some((one, other)) => letter == one || letter == other,
        None => false,
    }
}

/// How far two figures are apart.
fn swing_between(letters: Option<(Letter, Letter)>, figures: &Figures) -> u64
    ensures value { result ≡ swing letters (sheet figures.now) }
    ensures bound { result ≤ 100_000_000_000 }
{
    letters.map_or(0, |(one, other)| {
        amount(figures, one).abs_diff(amount(figures, other))
    })
}

/// A figure as a number, 0 while blank.
fn amount(figures: &Figures, letter: Letter) -> u64
    ensures value { result ≡ amount (sheet figures.now letter) }
    ensures bound { result ≤ 100_000_000_000 }
{
    figures.get(letter).unwrap_or(0)
}

/// A share of a figure, in thousandths.
fn share(weight: u64, figure: u64) -> u64
    requires { (weight ≤ 320) × (figure ≤ 100_000_000_000) }
    ensures value { result ≡ weight * figure }
    ensures bound { result ≤ 32_000_000_000_000 }
{
    weight * figure
}
