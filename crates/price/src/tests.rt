//! Prices worked out by hand.
use super::*;
use std::test::Fail;

// A soybean block: multiples of 10,000 between two ends in thousandths.
fn soybean(low: u64, high: u64) -> Result<Limit<StepGrid>, PriceFault> {
    Limit::new(StepGrid::new(10_000)?, low, high)
}

#[test]
fn the_higher_of_two_equally_near(rt: HostRuntime) -> Result<(), Fail> {
    let fives = StepGrid::new(5)?;
    assert_eq!(rt; nearest(&fives, Fraction::new(1025, 10)?), Some((105, 25)));
    assert_eq!(rt; nearest(&fives, Fraction::new(1024, 10)?), Some((100, -24)));
    assert_eq!(rt; nearest(&fives, Fraction::new(1026, 10)?), Some((105, 24)));
    let band = soybean(680_000_000, 1_320_000_000)?;
    assert_eq!(rt;
        nearest(&band, Fraction::new(1_005_000, 1)?),
        Some((1_010_000, 5_000))
    );
    assert_eq!(rt;
        nearest(&band, Fraction::new(2_009_999, 2)?),
        Some((1_000_000, -9_999))
    );
    Ok(())
}

#[test]
fn both_ends_of_the_range(rt: HostRuntime) -> Result<(), Fail> {
    let sevens = StepGrid::new(7)?;
    assert_eq!(rt; nearest(&sevens, Fraction::new(0, 1)?), Some((7, 7)));
    assert_eq!(rt;
        nearest(&sevens, Fraction::new(0, 10_000)?),
        Some((7, 70_000))
    );
    assert_eq!(rt; sevens.at_or_below(Fraction::new(69_999, 10_000)?), None);
    let widest = StepGrid::new(100_000)?;
    let most = Fraction::new(1_000_000_000_000_000, 1)?;
    assert_eq!(rt;
        nearest(&widest, most),
        Some((500_000_000_000_000, -500_000_000_000_000))
    );
    // 99,999 goes 5,000,050,000 times into the last price
    let uneven = StepGrid::new(99_999)?;
    assert_eq!(rt;
        nearest(&uneven, most),
        Some((499_999_999_950_000, -500_000_000_050_000))
    );
    assert_eq!(rt;
        uneven.at_or_above(Fraction::new(499_999_999_950_001, 1)?),
        None
    );
    assert!(rt;
        !uneven.has(500_000_000_049_999) && uneven.has(499_999_999_950_000) && !uneven.has(0)
    );
    Ok(())
}

#[test]
fn the_largest_numerator_and_divisor(rt: HostRuntime) -> Result<(), Fail> {
    let most = Fraction::new(1_000_000_000_000_000, 10_000)?;
    assert_eq!(rt;
        nearest(&StepGrid::new(100_000)?, most),
        Some((100_000_000_000, 0))
    );
    assert_eq!(rt;
        nearest(&StepGrid::new(3)?, most),
        Some((99_999_999_999, -10_000))
    );
    let first = SinglePrice::new(1)?;
    assert_eq!(rt; nearest(&first, most), Some((1, -999_999_999_990_000)));
    let last = SinglePrice::new(500_000_000_000_000)?;
    let none = Fraction::new(0, 10_000)?;
    assert_eq!(rt;
        nearest(&last, none),
        Some((500_000_000_000_000, 5_000_000_000_000_000_000))
    );
    assert_eq!(rt; last.at_or_below(none), None);
    assert_eq!(rt; last.at_or_above(none), Some(500_000_000_000_000));
    assert!(rt; last.has(500_000_000_000_000) && !last.has(499_999_999_999_999));
    Ok(())
}

#[test]
fn piles_of_limits(rt: HostRuntime) -> Result<(), Fail> {
    let asked = Fraction::new(1003, 10)?;
    let one = Limit::new(StepGrid::new(5)?, 103_000, 200_000)?;
    assert_eq!(rt; nearest(&one, asked), Some((105, 47)));
    let two = Limit::new(one, 106_000, 150_000)?;
    assert_eq!(rt; nearest(&two, asked), Some((110, 97)));
    assert!(rt; two.has(150) && !two.has(155) && !two.has(105));
    let three = Limit::new(two, 107_000, 112_000)?;
    assert_eq!(rt;
        nearest(&three, Fraction::new(1_000, 1)?),
        Some((110, -890))
    );
    assert_eq!(rt; nearest(&Limit::new(three, 111_000, 140_000)?, asked), None);
    Ok(())
}

#[test]
fn a_limit_to_the_thousandth(rt: HostRuntime) -> Result<(), Fail> {
    let low = Fraction::new(1, 1)?;
    let high = Fraction::new(5_000_000, 1)?;
    let band = soybean(680_000_000, 1_320_000_000)?;
    assert_eq!(rt; nearest(&band, low), Some((680_000, 679_999)));
    assert_eq!(rt; nearest(&band, high), Some((1_320_000, -3_680_000)));
    let tighter = soybean(680_000_001, 1_319_999_999)?;
    assert_eq!(rt; nearest(&tighter, low), Some((690_000, 689_999)));
    assert_eq!(rt; nearest(&tighter, high), Some((1_310_000, -3_690_000)));
    assert_eq!(rt;
        nearest(&soybean(13_600_000, 26_400_000)?, low),
        Some((20_000, 19_999))
    );
    Ok(())
}

#[test]
fn no_price(rt: HostRuntime) -> Result<(), Fail> {
    let asked = Fraction::new(15_000, 1)?;
    assert_eq!(rt; nearest(&soybean(10_200_000, 19_800_000)?, asked), None);
    let crossed = soybean(20_000_000, 10_000_000)?;
    assert_eq!(rt; nearest(&crossed, asked), None);
    assert_eq!(rt; crossed.at_or_below(asked), None);
    assert_eq!(rt; crossed.at_or_above(asked), None);
    assert!(rt; !crossed.has(10_000) && !crossed.has(20_000));
    let one = Limit::new(SinglePrice::new(7)?, 7_001, 9_000)?;
    assert_eq!(rt; nearest(&one, asked), None);
    Ok(())
}

#[test]
fn refusals(rt: HostRuntime) {
    let fraction = Some(PriceFault::FractionOutsideLimits);
    assert_eq!(rt; Fraction::new(1_000_000_000_000_001, 1).err(), fraction);
    assert_eq!(rt; Fraction::new(5, 0).err(), fraction);
    assert_eq!(rt; Fraction::new(5, 10_001).err(), fraction);
    let grid = Some(PriceFault::GridOutOfBounds);
    assert_eq!(rt; StepGrid::new(0).err(), grid);
    assert_eq!(rt; StepGrid::new(100_001).err(), grid);
    assert_eq!(rt; SinglePrice::new(0).err(), grid);
    assert_eq!(rt; SinglePrice::new(500_000_000_000_001).err(), grid);
    assert_eq!(rt; soybean(220_000_000_000_001, 0).err(), grid);
    assert_eq!(rt; soybean(0, 220_000_000_000_001).err(), grid);
    assert_eq!(rt;
        soybean(220_000_000_000_000, 220_000_000_000_000).err(),
        None
    );
}
