//! The lowest and the highest admissible price of every row, worked out from the percentages by hand.
use books::{Compression, Flexible, SingleIssue};
use price::{Fraction, Grid, nearest};
use rulebook::{FigureFault, Figures, HoursClass, Letter, RuleFault, Rulebook};
use std::process::Abort;
use std::test::Fail;

/// A product with its figures, the others blank, and the ends of its prices.
#[derive(Drop)]
struct Edges {
    product: u64,
    figures: &'static [(Letter, u64)],
    lowest: u64,
    highest: u64,
}

const SINGLE_ISSUE: [Edges; 22] = [
    Edges {
        product: 1,
        figures: &[(Letter::U, 1_400_150)],
        lowest: 1_393_150,
        highest: 1_407_150,
    },
    Edges {
        product: 2,
        figures: &[(Letter::L, 1_390_033), (Letter::U, 1_380_707)],
        lowest: 1_362_419,
        highest: 1_417_647,
    },
    Edges {
        product: 3,
        figures: &[
            (Letter::B, 1_400_150),
            (Letter::O, 1_400_250),
            (Letter::U, 1_399_999),
        ],
        lowest: 1_393_201,
        highest: 1_407_199,
    },
    Edges {
        product: 4,
        figures: &[
            (Letter::B, 992_512),
            (Letter::O, 992_526),
            (Letter::U, 992_500),
        ],
        lowest: 987_563,
        highest: 997_487,
    },
    Edges {
        product: 5,
        figures: &[
            (Letter::B, 400_000_000),
            (Letter::O, 400_100_000),
            (Letter::U, 400_000_000),
        ],
        lowest: 368_100_000,
        highest: 432_100_000,
    },
    Edges {
        product: 6,
        figures: &[
            (Letter::B, 399_960_000),
            (Letter::O, 400_010_000),
            (Letter::L, 400_300_000),
            (Letter::U, 400_000_001),
            (Letter::M, 1),
        ],
        lowest: 368_000_000,
        highest: 432_000_000,
    },
    Edges {
        product: 7,
        figures: &[
            (Letter::B, 27_000_000),
            (Letter::O, 27_010_000),
            (Letter::L, 27_123_457),
            (Letter::U, 27_000_003),
            (Letter::M, 2),
        ],
        lowest: 24_963_457,
        highest: 29_283_457,
    },
    Edges {
        product: 8,
        figures: &[
            (Letter::B, 27_001_000),
            (Letter::O, 27_002_000),
            (Letter::U, 27_000_003),
        ],
        lowest: 24_842_500,
        highest: 29_162_500,
    },
    Edges {
        product: 9,
        figures: &[(Letter::L, 250_050), (Letter::U, 249_999)],
        lowest: 200_051,
        highest: 300_049,
    },
    Edges {
        product: 10,
        figures: &[(Letter::B, 5_003_000), (Letter::U, 5_000_007)],
        lowest: 4_500_007,
        highest: 5_500_007,
    },
    Edges {
        product: 11,
        figures: &[(Letter::L, 190_012_340), (Letter::U, 189_999_990)],
        lowest: 129_212_350,
        highest: 250_812_330,
    },
    Edges {
        product: 12,
        figures: &[(Letter::U, 45_000_700)],
        lowest: 30_600_500,
        highest: 59_400_900,
    },
    Edges {
        product: 13,
        figures: &[(Letter::L, 1_500_003), (Letter::U, 1_499_999)],
        lowest: 1_020_004,
        highest: 1_980_002,
    },
    Edges {
        product: 14,
        figures: &[(Letter::L, 3_801_230), (Letter::U, 3_799_990)],
        lowest: 2_585_240,
        highest: 5_017_220,
    },
    Edges {
        product: 15,
        figures: &[(Letter::L, 1_000_000), (Letter::U, 1_000_000)],
        lowest: 680_000,
        highest: 1_320_000,
    },
    Edges {
        product: 16,
        figures: &[(Letter::U, 1_234_000)],
        lowest: 840_000,
        highest: 1_628_000,
    },
    Edges {
        product: 17,
        figures: &[
            (Letter::U, 100_000),
            (Letter::V, 20_000_000),
            (Letter::W, 20_500_000),
        ],
        lowest: 1000,
        highest: 2_200_000,
    },
    Edges {
        product: 18,
        figures: &[
            (Letter::U, 1_000_000),
            (Letter::V, 5_000_000),
            (Letter::W, 4_876_543),
        ],
        lowest: 480_000,
        highest: 1_520_000,
    },
    Edges {
        product: 19,
        figures: &[
            (Letter::B, 12_300),
            (Letter::O, 12_500),
            (Letter::U, 12_000),
            (Letter::X, 1_400_150),
        ],
        lowest: 5400,
        highest: 19_400,
    },
    Edges {
        product: 20,
        figures: &[
            (Letter::U, 7_000_000),
            (Letter::Y, 379_001_111),
            (Letter::Z, 380_001_230),
        ],
        lowest: 1,
        highest: 38_400_217,
    },
    Edges {
        product: 21,
        figures: &[
            (Letter::U, 7_000_000),
            (Letter::Y, 381_001_111),
            (Letter::Z, 380_001_230),
        ],
        lowest: 1,
        highest: 49_800_016,
    },
    Edges {
        product: 22,
        figures: &[
            (Letter::L, 1_500_000),
            (Letter::U, 1_400_000),
            (Letter::X, 190_000_000),
        ],
        lowest: 100,
        highest: 20_500_000,
    },
];

const FLEXIBLE: [Edges; 4] = [
    Edges {
        product: 1,
        figures: &[(Letter::H, 400_000_123)],
        lowest: 304_000_094,
        highest: 496_000_152,
    },
    Edges {
        product: 2,
        figures: &[
            (Letter::V, 20_000_001),
            (Letter::W, 19_876_543),
            (Letter::H, 3_333_333),
        ],
        lowest: 1,
        highest: 7_456_791,
    },
    Edges {
        product: 3,
        figures: &[
            (Letter::Y, 379_001_111),
            (Letter::Z, 380_001_233),
            (Letter::H, 123_456_789),
        ],
        lowest: 80_656_532,
        highest: 166_257_046,
    },
    Edges {
        product: 4,
        figures: &[
            (Letter::Z, 3_000_000),
            (Letter::H, 300_000),
            (Letter::I, 3_000_000),
        ],
        lowest: 1,
        highest: 630_000,
    },
];

fn posted(values: &[(Letter, u64)]) -> Result<Figures, FigureFault> {
    let mut figures = Figures::blank();
    for (letter, value) in values {
        figures.post(*letter, *value)?;
    }
    Ok(figures)
}

fn check_edges<R: Rulebook>(rt: &impl Abort, book: &R, row: &Edges) -> Result<(), Fail> {
    let band = book.band(row.product, &posted(row.figures)?)?;
    let prices = band.limit()?;
    assert!(rt; prices.has(row.lowest) && prices.has(row.highest));
    let (lowest, _) = nearest(&prices, Fraction::new(0, 1)?).ok_or(1u8)?;
    let (highest, _) = nearest(&prices, Fraction::new(1_000_000_000_000_000, 1)?).ok_or(2u8)?;
    assert_eq!(rt;
        (row.product, lowest, highest),
        (row.product, row.lowest, row.highest)
    );
    Ok(())
}

#[test]
fn single_issue_edges(rt: HostRuntime) -> Result<(), Fail> {
    for row in &SINGLE_ISSUE {
        check_edges(&rt, &SingleIssue, row)?;
    }
    Ok(())
}

#[test]
fn flexible_edges(rt: HostRuntime) -> Result<(), Fail> {
    for row in &FLEXIBLE {
        check_edges(&rt, &Flexible, row)?;
    }
    Ok(())
}

#[test]
fn compression_at_settlement(rt: HostRuntime) -> Result<(), Fail> {
    for product in [1, 2] {
        let row = Edges {
            product,
            figures: &[(Letter::K, 390_012_345)],
            lowest: 390_012_345,
            highest: 390_012_345,
        };
        check_edges(&rt, &Compression, &row)?;
    }
    let blank = Compression.band(1, &Figures::blank()).err();
    assert_eq!(rt; blank, Some(RuleFault::LetterLacking(Letter::K)));
    Ok(())
}

#[test]
fn the_first_lacking_letter(rt: HostRuntime) -> Result<(), Fail> {
    let mut figures = Figures::blank();
    assert_eq!(rt;
        SingleIssue.band(17, &figures).err(),
        Some(RuleFault::LetterLacking(Letter::U))
    );
    figures.post(Letter::U, 100_000)?;
    assert_eq!(rt;
        SingleIssue.band(17, &figures).err(),
        Some(RuleFault::LetterLacking(Letter::V))
    );
    figures.post(Letter::W, 20_500_000)?;
    assert_eq!(rt;
        SingleIssue.band(17, &figures).err(),
        Some(RuleFault::LetterLacking(Letter::V))
    );
    figures.post(Letter::V, 20_000_000)?;
    assert_eq!(rt; SingleIssue.band(17, &figures).err(), None);
    figures.post(Letter::U, 0)?;
    assert_eq!(rt;
        SingleIssue.band(17, &figures).err(),
        Some(RuleFault::LetterLacking(Letter::U))
    );
    assert_eq!(rt;
        Flexible.band(4, &figures).err(),
        Some(RuleFault::LetterLacking(Letter::Z))
    );
    Ok(())
}

#[test]
fn absent_products_and_hours(rt: HostRuntime) -> Result<(), Fail> {
    assert_eq!(rt; SingleIssue.hours(0).err(), Some(RuleFault::ProductAbsent));
    assert_eq!(rt; SingleIssue.hours(23).err(), Some(RuleFault::ProductAbsent));
    assert_eq!(rt; Flexible.hours(5).err(), Some(RuleFault::ProductAbsent));
    assert_eq!(rt; Compression.hours(3).err(), Some(RuleFault::ProductAbsent));
    assert_eq!(rt; Flexible.hours(2)?, HoursClass::E);
    assert_eq!(rt; HoursClass::A.closing(499), None);
    assert_eq!(rt; HoursClass::A.closing(500), Some(915));
    assert_eq!(rt; HoursClass::A.closing(914), Some(915));
    assert_eq!(rt; HoursClass::A.closing(915), None);
    assert_eq!(rt; HoursClass::A.closing(925), Some(1800));
    assert_eq!(rt; HoursClass::B.closing(989), Some(990));
    assert_eq!(rt; HoursClass::B.closing(1799), Some(1800));
    assert_eq!(rt; HoursClass::B.closing(1800), None);
    assert_eq!(rt; HoursClass::C.closing(1139), Some(1140));
    assert_eq!(rt; HoursClass::D.closing(1005), None);
    assert_eq!(rt; HoursClass::E.closing(1080), None);
    Ok(())
}

#[test]
fn figures_over_their_limits(rt: HostRuntime) -> Result<(), Fail> {
    let mut figures = Figures::blank();
    assert!(rt;
        figures.post(Letter::M, 3).is_err() && figures.post(Letter::K, 100_000_000_001).is_err()
    );
    assert_eq!(rt; figures.get(Letter::M), None);
    figures.post(Letter::K, 100_000_000_000)?;
    figures.post(Letter::M, 2)?;
    assert_eq!(rt; figures.get(Letter::K), Some(100_000_000_000));
    assert_eq!(rt; figures.get(Letter::M), Some(2));
    assert_eq!(rt; Letter::from_char('Z'), Some(Letter::Z));
    assert_eq!(rt; Letter::from_char('z'), None);
    Ok(())
}
