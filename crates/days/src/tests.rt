//! Days over the three books, with answers worked out by hand.
use books::{Compression, Flexible, SingleIssue};
use day::Day;
use history::{Answer, Call, DayFault, Entry, EntryField, Side};
use price::PriceFault;
use rulebook::{FigureFault, Letter, RuleFault, Rulebook};
use std::alloc::Global;
use std::process::Abort;
use std::test::Fail;
use trading::{make, run};

/// Sends a fresh day calls, each told with the answer that is due.
fn agrees<R: Rulebook + Drop>(
    rt: &impl Abort,
    heap: Global,
    book: R,
    day: &[(Call, Answer)],
) -> Result<(), Fail> {
    let calls: Vec<Call> = day.iter().map(|(call, _)| *call).collect(heap)?;
    let due: Vec<Answer> = day.iter().map(|(_, answer)| *answer).collect(heap)?;
    let mut opened = Day::open(heap, book)?;
    let mut answers = Vec::with_capacity(heap, calls.len())?;
    run(&mut opened, calls.as_slice(), &mut answers)?;
    assert_eq!(rt; answers.as_slice(), due.as_slice());
    Ok(())
}

/// An order for contract 1.
fn order(side: Side, price: u64, quantity: u64, participant: u64, counterparty: u64) -> Call {
    Call::Enter(Entry {
        side,
        contract: 1,
        price,
        quantity,
        participant,
        counterparty,
    })
}

fn offer(price: u64, quantity: u64, participant: u64, counterparty: u64) -> Call {
    order(Side::Offer, price, quantity, participant, counterparty)
}

fn bid(price: u64, quantity: u64, participant: u64, counterparty: u64) -> Call {
    order(Side::Bid, price, quantity, participant, counterparty)
}

fn refused(fault: DayFault) -> Answer {
    Answer::Refused(fault)
}

/// Nikkei 225 futures: one trade, and what is refused around it.
#[test]
fn one_trade(rt: HostRuntime) -> Result<(), Fail> {
    agrees(
        &rt,
        rt.alloc(),
        SingleIssue,
        &[
            (Call::List(5), Answer::Listed(1)),
            (
                Call::Ask(1, 5, 1),
                refused(DayFault::Rule(RuleFault::LetterLacking(Letter::U))),
            ),
            (Call::Post(1, 'U', 400_000_000), Answer::Done),
            (Call::Clock(500), Answer::Lapsed(0)),
            (offer(390_000_000, 10, 7, 8), Answer::Ordered(1, 0)),
            (bid(390_000_000, 10, 8, 7), Answer::Ordered(2, 1)),
            (Call::Ask(1, 431_999_999, 1), Answer::Price(431_999_999, 0)),
            (Call::Clock(400), refused(DayFault::MinuteBeforePresent)),
            (Call::Withdraw(2, 8), refused(DayFault::NotWaiting)),
        ],
    )
}

/// The earliest of several counter orders is taken; quantity, price and counterparty have to agree; one participant may
/// be on both sides; what is withdrawn or lapsed is not taken.
#[test]
fn pairing(rt: HostRuntime) -> Result<(), Fail> {
    agrees(
        &rt,
        rt.alloc(),
        SingleIssue,
        &[
            (Call::List(5), Answer::Listed(1)),
            (Call::Post(1, 'U', 400_000_000), Answer::Done),
            (Call::Clock(600), Answer::Lapsed(0)),
            (offer(390_000_000, 10, 7, 8), Answer::Ordered(1, 0)),
            (offer(390_000_000, 10, 7, 8), Answer::Ordered(2, 0)),
            (offer(390_000_000, 10, 9, 8), Answer::Ordered(3, 0)),
            (bid(390_000_000, 10, 8, 7), Answer::Ordered(4, 1)),
            (Call::Withdraw(2, 8), refused(DayFault::AnotherParticipants)),
            (bid(390_000_000, 11, 8, 7), Answer::Ordered(5, 0)),
            (bid(390_000_000, 10, 8, 7), Answer::Ordered(6, 2)),
            (Call::Withdraw(1, 7), refused(DayFault::NotWaiting)),
            (Call::Withdraw(3, 9), Answer::Done),
            (bid(390_000_000, 10, 8, 9), Answer::Ordered(7, 0)),
            (offer(390_000_001, 10, 9, 8), Answer::Ordered(8, 0)),
            (bid(390_000_000, 10, 5, 5), Answer::Ordered(9, 0)),
            (offer(390_000_000, 10, 5, 5), Answer::Ordered(10, 9)),
            (Call::Clock(989), Answer::Lapsed(0)),
            (Call::Clock(990), Answer::Lapsed(3)),
            (Call::Withdraw(7, 8), refused(DayFault::NotWaiting)),
            (offer(390_000_000, 11, 7, 8), refused(DayFault::NotOpen)),
            (Call::Clock(1_005), Answer::Lapsed(0)),
            (offer(390_000_000, 11, 7, 8), Answer::Ordered(11, 0)),
            (bid(390_000_000, 11, 8, 7), Answer::Ordered(12, 11)),
            (Call::Withdraw(13, 8), refused(DayFault::NoSuchOrder)),
        ],
    )
}

/// A halt stops a single-issue contract; its ask still answers. A collar narrows the band.
#[test]
fn halt_and_collar(rt: HostRuntime) -> Result<(), Fail> {
    agrees(
        &rt,
        rt.alloc(),
        SingleIssue,
        &[
            (Call::List(15), Answer::Listed(1)),
            (Call::Post(1, 'U', 1_000_000), Answer::Done),
            (Call::Clock(500), Answer::Lapsed(0)),
            (Call::Halt(1), Answer::Done),
            (Call::Halt(1), refused(DayFault::HaltUnchanged)),
            (bid(1_000_000, 1, 1, 2), refused(DayFault::Halted)),
            (Call::Ask(1, 1_005_000, 1), Answer::Price(1_010_000, 5_000)),
            (Call::Lift(1), Answer::Done),
            (Call::Lift(1), refused(DayFault::HaltUnchanged)),
            (Call::Ask(1, 2_009_999, 2), Answer::Price(1_000_000, -9_999)),
            (Call::Collar(1, 995_000, 1_004_999), Answer::Done),
            (Call::Ask(1, 1_005_000, 1), Answer::Price(1_000_000, -5_000)),
            (
                bid(1_010_000, 1, 1, 2),
                refused(DayFault::PriceNotAdmissible),
            ),
            (bid(1_000_000, 1, 1, 2), Answer::Ordered(1, 0)),
            (Call::Collar(1, 1_000_001, 1_009_999), Answer::Done),
            (
                Call::Ask(1, 1_005_000, 1),
                refused(DayFault::NoAdmissiblePrice),
            ),
            (
                offer(1_000_000, 1, 2, 1),
                refused(DayFault::PriceNotAdmissible),
            ),
            (Call::Collar(1, 0, 0), Answer::Done),
            (offer(1_000_000, 1, 2, 1), Answer::Ordered(2, 1)),
        ],
    )
}

/// Compression trading is at the settlement price alone, and goes on during a halt.
#[test]
fn compression(rt: HostRuntime) -> Result<(), Fail> {
    agrees(
        &rt,
        rt.alloc(),
        Compression,
        &[
            (
                Call::List(3),
                refused(DayFault::Rule(RuleFault::ProductAbsent)),
            ),
            (Call::List(1), Answer::Listed(1)),
            (
                Call::Ask(1, 1, 1),
                refused(DayFault::Rule(RuleFault::LetterLacking(Letter::K))),
            ),
            (Call::Post(1, 'K', 1_000_000), Answer::Done),
            (Call::Clock(700), Answer::Lapsed(0)),
            (Call::Halt(1), Answer::Done),
            (offer(1_000_000, 5, 1, 2), Answer::Ordered(1, 0)),
            (bid(1_000_000, 5, 2, 1), Answer::Ordered(2, 1)),
            (
                bid(1_000_001, 5, 2, 1),
                refused(DayFault::PriceNotAdmissible),
            ),
            (Call::Ask(1, 7, 3), Answer::Price(1_000_000, 2_999_993)),
            (Call::Collar(1, 1, 999_999), Answer::Done),
            (Call::Ask(1, 7, 3), refused(DayFault::NoAdmissiblePrice)),
        ],
    )
}

/// Securities options in flexible trading close at 1,080.
#[test]
fn flexible(rt: HostRuntime) -> Result<(), Fail> {
    agrees(
        &rt,
        rt.alloc(),
        Flexible,
        &[
            (Call::List(2), Answer::Listed(1)),
            (Call::Post(1, 'H', 100_000), Answer::Done),
            (Call::Post(1, 'V', 1_000_000), Answer::Done),
            (
                Call::Ask(1, 5, 1),
                refused(DayFault::Rule(RuleFault::LetterLacking(Letter::W))),
            ),
            (Call::Post(1, 'W', 1_100_000), Answer::Done),
            (Call::Ask(1, 1, 2), Answer::Price(1, 1)),
            (Call::Ask(1, 400_001, 1), Answer::Price(400_000, -1)),
            (Call::Clock(1_079), Answer::Lapsed(0)),
            (bid(400_000, 10_000, 9_999, 1), Answer::Ordered(1, 0)),
            (
                bid(400_001, 10_000, 9_999, 1),
                refused(DayFault::PriceNotAdmissible),
            ),
            (Call::Clock(1_080), Answer::Lapsed(1)),
            (offer(400_000, 10_000, 1, 9_999), refused(DayFault::NotOpen)),
            (Call::Withdraw(1, 9_999), refused(DayFault::NotWaiting)),
        ],
    )
}

/// The smaller number goes first.
#[test]
fn order_of_refusals(rt: HostRuntime) -> Result<(), Fail> {
    agrees(
        &rt,
        rt.alloc(),
        SingleIssue,
        &[
            (
                Call::Ask(9, 1, 0),
                refused(DayFault::Price(PriceFault::FractionOutsideLimits)),
            ),
            (
                Call::Post(9, 'Q', 1),
                refused(DayFault::Figure(FigureFault::UnknownLetter)),
            ),
            (
                Call::Post(9, 'M', 3),
                refused(DayFault::Figure(FigureFault::ValueOverLimit)),
            ),
            (
                Call::Post(9, 'B', 100_000_000_001),
                refused(DayFault::Figure(FigureFault::ValueOverLimit)),
            ),
            (
                Call::Post(9, 'B', 100_000_000_000),
                refused(DayFault::ContractNotListed),
            ),
            (
                Call::List(0),
                refused(DayFault::Rule(RuleFault::ProductAbsent)),
            ),
            (
                Call::List(23),
                refused(DayFault::Rule(RuleFault::ProductAbsent)),
            ),
            (Call::Clock(1_801), refused(DayFault::MinuteOverLimit)),
            (
                Call::Collar(9, 0, 1),
                refused(DayFault::CollarOutsideLimits),
            ),
            (
                Call::Collar(9, 2, 1),
                refused(DayFault::CollarOutsideLimits),
            ),
            (
                Call::Collar(9, 1, 220_000_000_001),
                refused(DayFault::CollarOutsideLimits),
            ),
            (
                Call::Collar(9, 1, 220_000_000_000),
                refused(DayFault::ContractNotListed),
            ),
            (Call::Halt(1), refused(DayFault::ContractNotListed)),
            (Call::Lift(0), refused(DayFault::ContractNotListed)),
            (
                bid(1, 0, 0, 0),
                refused(DayFault::EntryOutsideLimits(EntryField::Quantity)),
            ),
            (
                bid(1, 10_001, 1, 1),
                refused(DayFault::EntryOutsideLimits(EntryField::Quantity)),
            ),
            (
                bid(1, 10_000, 10_000, 0),
                refused(DayFault::EntryOutsideLimits(EntryField::Participant)),
            ),
            (
                bid(1, 10_000, 9_999, 10_000),
                refused(DayFault::EntryOutsideLimits(EntryField::Counterparty)),
            ),
            (
                bid(1, 10_000, 9_999, 9_999),
                refused(DayFault::ContractNotListed),
            ),
            (Call::List(1), Answer::Listed(1)),
            (
                bid(1, 1, 1, 1),
                refused(DayFault::Rule(RuleFault::LetterLacking(Letter::U))),
            ),
            (Call::Post(1, 'U', 1_400_150), Answer::Done),
            (Call::Halt(1), Answer::Done),
            (bid(1, 1, 1, 1), refused(DayFault::NotOpen)),
            (Call::Clock(914), Answer::Lapsed(0)),
            (bid(1, 1, 1, 1), refused(DayFault::Halted)),
            (Call::Lift(1), Answer::Done),
            (bid(1, 1, 1, 1), refused(DayFault::PriceNotAdmissible)),
            (bid(1_393_150, 1, 1, 1), Answer::Ordered(1, 0)),
            (Call::Clock(1_800), Answer::Lapsed(1)),
            (Call::Withdraw(0, 1), refused(DayFault::NoSuchOrder)),
        ],
    )
}

/// Thirty-two contracts and 256 orders, and not one more. Where the room for answers is too little, no call is made.
#[test]
fn full_day(rt: HostRuntime) -> Result<(), Fail> {
    let heap = rt.alloc();
    let mut day = Day::open(heap, SingleIssue)?;
    for i in 1..33u64 {
        assert!(rt; day.list(5) == Ok(i));
    }
    assert!(rt; day.list(5) == Err(DayFault::ContractsFull));
    assert!(rt; day.list(23) == Err(DayFault::Rule(RuleFault::ProductAbsent)));
    assert!(rt; day.post(1, 'U', 400_000_000).is_ok());
    assert!(rt; day.clock(500) == Ok(0));
    for i in 1..256u64 {
        assert!(rt; make(&mut day, bid(400_000_000, 1, 1, 2)) == Answer::Ordered(i, 0));
    }
    let mut answers = Vec::with_capacity(heap, 1)?;
    let last = [offer(400_000_000, 1, 2, 1), offer(400_000_000, 1, 2, 1)];
    let room = answers.capacity();
    assert!(rt; room >= 1);
    answers.resize(room - 1, Answer::Done)?;
    assert!(rt; run(&mut day, &last, &mut answers).is_err());
    assert!(rt; answers.len() == room - 1);
    assert!(rt; run(&mut day, &last[..1], &mut answers).is_ok());
    assert!(rt; answers.last().copied() == Some(Answer::Ordered(256, 1)));
    assert!(rt; make(&mut day, last[1]) == refused(DayFault::OrdersFull));
    assert!(rt; day.clock(990) == Ok(254));
    Ok(())
}
