//! Books that are tables of rows, and the rows of two of them. A product's number is its row's, from 1.
ghost use Rattle.std.specs.Prelude.{◌≡◌, ℕ, ◌+◌, ◌<◌, map, IfOk};
ghost use Rattle.std.specs.List.{range_with_len};
ghost use Rattle.books.specs.Books.{written, row_in};
ghost use Rattle.books.specs.Exchange.{Rule};
ghost use Rattle.books.specs.Rows.{Small};

use super::rows::{Centre, Row};
use rulebook::{HoursClass, Letter, RuleFault};

/// A book that is a table of rows.
pub(crate) trait Table {
    /// The number of its last product.
    ghost last: { ℕ };

    /// The exchange's rule for each product.
    ghost rule: { ℕ → Rule };

    /// The table as a whole.
    fn rows() -> &'static [Row]
        ensures { result.now ≡ map (λ product. written (rule product)) (range_with_len 1 last) };

    ghost all_small: { (index : ℕ) → index < last → Small (written (rule (index + 1))) };
}

/// The row of a product in a book that is a table.
pub(crate) fn row_of<T: Table>(product: u64) -> Result<Row, RuleFault>
    ensures value { result ≡ row_in T.last T.rule product }
    ensures small { IfOk result Small }
{
    let rows = T::rows();
    if !(1..=rows.len() as u64).contains(&product) {
        return Err(RuleFault::ProductAbsent);
    }
    Ok(rows[product as usize - 1])
}

pub(crate) const SINGLE_ISSUE: [Row; 22] = [
    // 1: 5- and 10-year JGB futures
    Row {
        unit: 1,
        centre: Centre::TradingPrice,
        weight: 5,
        of: Letter::U,
        swing: None,
        auction_step: Some(100),
        hours: HoursClass::A,
    },
    // 2: 20-year JGB futures
    Row {
        unit: 1,
        centre: Centre::TradingPrice,
        weight: 20,
        of: Letter::U,
        swing: None,
        auction_step: Some(100),
        hours: HoursClass::A,
    },
    // 3: mini 10-year JGB futures
    Row {
        unit: 1,
        centre: Centre::TradingPrice,
        weight: 5,
        of: Letter::U,
        swing: None,
        auction_step: Some(50),
        hours: HoursClass::A,
    },
    // 4: 3-Month TONA futures
    Row {
        unit: 1,
        centre: Centre::TradingPrice,
        weight: 5,
        of: Letter::U,
        swing: None,
        auction_step: Some(25),
        hours: HoursClass::A,
    },
    // 5: Nikkei 225 futures
    Row {
        unit: 1,
        centre: Centre::TradingPrice,
        weight: 80,
        of: Letter::U,
        swing: None,
        auction_step: Some(100_000),
        hours: HoursClass::B,
    },
    // 6: Nikkei 225 mini
    Row {
        unit: 1,
        centre: Centre::TradingPrice,
        weight: 80,
        of: Letter::U,
        swing: None,
        auction_step: Some(50_000),
        hours: HoursClass::B,
    },
    // 7: TOPIX futures
    Row {
        unit: 1,
        centre: Centre::TradingPrice,
        weight: 80,
        of: Letter::U,
        swing: None,
        auction_step: Some(5000),
        hours: HoursClass::B,
    },
    // 8: mini-TOPIX futures
    Row {
        unit: 1,
        centre: Centre::TradingPrice,
        weight: 80,
        of: Letter::U,
        swing: None,
        auction_step: Some(2500),
        hours: HoursClass::B,
    },
    // 9: Nikkei 225 VI futures
    Row {
        unit: 1,
        centre: Centre::TradingPrice,
        weight: 200,
        of: Letter::U,
        swing: None,
        auction_step: Some(500),
        hours: HoursClass::C,
    },
    // 10: Nikkei 225 Dividend futures
    Row {
        unit: 1,
        centre: Centre::TradingPrice,
        weight: 100,
        of: Letter::U,
        swing: None,
        auction_step: Some(1000),
        hours: HoursClass::B,
    },
    // 11: gold standard
    Row {
        unit: 10,
        centre: Centre::LastPrice,
        weight: 320,
        of: Letter::U,
        swing: None,
        auction_step: None,
        hours: HoursClass::B,
    },
    // 12: gold mini and spot, platinum, palladium
    Row {
        unit: 100,
        centre: Centre::LastPrice,
        weight: 320,
        of: Letter::U,
        swing: None,
        auction_step: None,
        hours: HoursClass::B,
    },
    // 13: silver
    Row {
        unit: 1,
        centre: Centre::LastPrice,
        weight: 320,
        of: Letter::U,
        swing: None,
        auction_step: None,
        hours: HoursClass::B,
    },
    // 14: RSS3, TSR20 rubber
    Row {
        unit: 10,
        centre: Centre::LastPrice,
        weight: 320,
        of: Letter::U,
        swing: None,
        auction_step: None,
        hours: HoursClass::C,
    },
    // 15: soybean
    Row {
        unit: 10_000,
        centre: Centre::LastPrice,
        weight: 320,
        of: Letter::U,
        swing: None,
        auction_step: None,
        hours: HoursClass::B,
    },
    // 16: azuki, corn
    Row {
        unit: 1000,
        centre: Centre::LastPrice,
        weight: 320,
        of: Letter::U,
        swing: None,
        auction_step: None,
        hours: HoursClass::B,
    },
    // 17: securities options
    Row {
        unit: 1000,
        centre: Centre::ReferencePrice,
        weight: 80,
        of: Letter::V,
        swing: Some((Letter::W, Letter::V)),
        auction_step: None,
        hours: HoursClass::D,
    },
    // 18: the same, odd trading unit
    Row {
        unit: 10_000,
        centre: Centre::ReferencePrice,
        weight: 80,
        of: Letter::V,
        swing: Some((Letter::W, Letter::V)),
        auction_step: None,
        hours: HoursClass::D,
    },
    // 19: JGB futures options
    Row {
        unit: 1,
        centre: Centre::TradingPrice,
        weight: 5,
        of: Letter::X,
        swing: None,
        auction_step: Some(100),
        hours: HoursClass::A,
    },
    // 20: Nikkei 225 options, nearest three
    Row {
        unit: 1,
        centre: Centre::ReferencePrice,
        weight: 80,
        of: Letter::Z,
        swing: Some((Letter::Y, Letter::Z)),
        auction_step: None,
        hours: HoursClass::B,
    },
    // 21: the same, other contracts
    Row {
        unit: 1,
        centre: Centre::ReferencePrice,
        weight: 110,
        of: Letter::Z,
        swing: Some((Letter::Y, Letter::Z)),
        auction_step: None,
        hours: HoursClass::B,
    },
    // 22: gold futures options
    Row {
        unit: 100,
        centre: Centre::LastPrice,
        weight: 100,
        of: Letter::X,
        swing: None,
        auction_step: None,
        hours: HoursClass::B,
    },
];

pub(crate) const FLEXIBLE: [Row; 4] = [
    // 1: index futures
    Row {
        unit: 1,
        centre: Centre::TheoreticalPrice,
        weight: 240,
        of: Letter::H,
        swing: None,
        auction_step: None,
        hours: HoursClass::B,
    },
    // 2: securities options
    Row {
        unit: 1,
        centre: Centre::TheoreticalPrice,
        weight: 200,
        of: Letter::V,
        swing: Some((Letter::W, Letter::V)),
        auction_step: None,
        hours: HoursClass::E,
    },
    // 3: Nikkei 225 and TOPIX options
    Row {
        unit: 1,
        centre: Centre::TheoreticalPrice,
        weight: 110,
        of: Letter::Z,
        swing: Some((Letter::Y, Letter::Z)),
        auction_step: None,
        hours: HoursClass::B,
    },
    // 4: TOPIX Banks and REIT options
    Row {
        unit: 1,
        centre: Centre::TheoreticalPrice,
        weight: 110,
        of: Letter::Z,
        swing: Some((Letter::I, Letter::Z)),
        auction_step: None,
        hours: HoursClass::B,
    },
];
