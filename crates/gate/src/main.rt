//! Quotes single-issue blocks: what a product lacks, or its centre, its band and the nearest price to what is asked for.
#![tactic(auto)]

mod quote;

use books::SingleIssue;
use price::{Grid, Limit};
use quote::Quote;
use rulebook::{Figures, Letter, Rulebook};

/// Posts `value` under `letter`, and says so.
fn post(rt: &impl Print, figures: &mut Figures, letter: Letter, value: u64) -> anyhow::Result<()> {
    figures.post(letter, value)?;
    println!(rt; "Posted {letter} {value}.")?;
    Ok(())
}

/// Says what the product lacks, or answers a broker who asks for each of `asked`.
fn answer(
    rt: &impl Print,
    product: u64,
    figures: &Figures,
    asked: &[(u64, u64)],
) -> anyhow::Result<()> {
    let (centre, band) = match (
        SingleIssue.centre(product, figures),
        SingleIssue.band(product, figures),
    ) {
        (Ok(centre), Ok(band)) => (centre, band),
        (Err(fault), _) | (_, Err(fault)) => {
            println!(rt; "No price: {fault}.")?;
            return Ok(());
        }
    };
    let low = band.low;
    let high = band.high;
    println!(rt; "Centre {centre}, band {low} to {high} thousandths of a pip.")?;
    quote_each(rt, &band.limit()?, asked)
}

/// Quotes the nearest of `prices` to each of `asked`.
fn quote_each<G: Grid>(rt: &impl Print, prices: &G, asked: &[(u64, u64)]) -> anyhow::Result<()> {
    for (n, d) in asked {
        let quote = Quote::new(prices, *n, *d)?;
        rt.println(quote)?;
    }
    Ok(())
}

/// Quotes inside the band of a product and inside a collar from `lowest` to `highest` pips.
fn answer_in_collar(
    rt: &impl Print,
    product: u64,
    figures: &Figures,
    lowest: u32,
    highest: u32,
    asked: &[(u64, u64)],
) -> anyhow::Result<()> {
    println!(rt; "Collar {lowest} to {highest}.")?;
    let band = match SingleIssue.band(product, figures) {
        Ok(band) => band,
        Err(fault) => {
            println!(rt; "No price: {fault}.")?;
            return Ok(());
        }
    };
    let (low, high) = (1000 * u64::from(lowest), 1000 * u64::from(highest));
    let prices = Limit::new(band.limit()?, low, high)?;
    quote_each(rt, &prices, asked)
}

fn soybeans(rt: &impl Print) -> anyhow::Result<()> {
    println!(rt; "Soybeans, product 15.")?;
    let mut figures = Figures::blank();
    answer(rt, 15, &figures, &[(1_005_000, 1)])?;
    post(rt, &mut figures, Letter::L, 1_000_000)?;
    post(rt, &mut figures, Letter::U, 1_000_000)?;
    let asked = [(1_005_000, 1), (2_009_999, 2)];
    answer(rt, 15, &figures, &asked)?;
    answer_in_collar(rt, 15, &figures, 1_000_000, 1_000_000, &asked)?;
    post(rt, &mut figures, Letter::L, 15_000)?;
    post(rt, &mut figures, Letter::U, 15_000)?;
    answer(rt, 15, &figures, &[(15_000, 1)])
}

fn nikkei_futures(rt: &impl Print) -> anyhow::Result<()> {
    println!(rt; "Nikkei 225 futures, product 5.")?;
    let mut figures = Figures::blank();
    post(rt, &mut figures, Letter::B, 400_000_000)?;
    post(rt, &mut figures, Letter::O, 400_100_000)?;
    answer(rt, 5, &figures, &[(368_099_999, 1)])?;
    post(rt, &mut figures, Letter::U, 400_000_000)?;
    answer(
        rt,
        5,
        &figures,
        &[(368_099_999, 1), (800_123_457, 2), (432_100_001, 1)],
    )
}

fn gold_options(rt: &impl Print) -> anyhow::Result<()> {
    println!(rt; "Gold futures options, product 22.")?;
    let mut figures = Figures::blank();
    post(rt, &mut figures, Letter::U, 1_400_000)?;
    answer(rt, 22, &figures, &[(1_500_050, 1)])?;
    post(rt, &mut figures, Letter::X, 190_000_000)?;
    post(rt, &mut figures, Letter::L, 1_500_000)?;
    answer(rt, 22, &figures, &[(1_500_050, 1)])
}

fn quotes(rt: &impl Print) -> anyhow::Result<()> {
    soybeans(rt)?;
    nikkei_futures(rt)?;
    gold_options(rt)?;
    println!(rt; "Product 23.")?;
    answer(rt, 23, &Figures::blank(), &[(1, 1)])
}

fn main(rt: HostRuntime) -> anyhow::Result<()> {
    quotes(&rt)
}
