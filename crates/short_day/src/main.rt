//! Runs a short single-issue day, and prints its calls and their answers.
#![tactic(auto)]

use books::SingleIssue;
use day::Day;
use history::{Call, Entry, Side};
use trading::run;

/// Nikkei 225 futures: two orders trade, a third lapses at the end of its hours.
const CALLS: [Call; 13] = [
    Call::List(5),
    Call::Ask(1, 5, 1),
    Call::Post(1, 'U', 400_000_000),
    Call::Clock(500),
    Call::Enter(Entry {
        side: Side::Offer,
        contract: 1,
        price: 390_000_000,
        quantity: 10,
        participant: 7,
        counterparty: 8,
    }),
    Call::Enter(Entry {
        side: Side::Bid,
        contract: 1,
        price: 390_000_000,
        quantity: 10,
        participant: 8,
        counterparty: 7,
    }),
    Call::Ask(1, 431_999_999, 1),
    Call::Clock(400),
    Call::Withdraw(2, 8),
    Call::Clock(989),
    Call::Enter(Entry {
        side: Side::Bid,
        contract: 1,
        price: 368_000_000,
        quantity: 10,
        participant: 8,
        counterparty: 7,
    }),
    Call::Clock(1_005),
    Call::Withdraw(3, 8),
];

fn run_day(rt: &HostRuntime) -> anyhow::Result<()> {
    let mut day = Day::open(rt.alloc(), SingleIssue)?;
    let mut answers = Vec::with_capacity(rt.alloc(), CALLS.len())?;
    run(&mut day, &CALLS, &mut answers)?;
    for (call, answer) in CALLS.iter().zip(answers.iter()) {
        println!(rt; "{call:?}: {answer:?}")?;
    }
    Ok(())
}

fn main(rt: HostRuntime) -> anyhow::Result<()> {
    run_day(&rt)
}
