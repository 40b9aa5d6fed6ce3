//! Lines and replies worked out by hand.
use history::{Call, DayFault, Entry, EntryField, Side};
use line::{LineReader, command, number};
use reply::{LONGEST_REPLY, LineFault, Reply};
use rulebook::{Letter, RuleFault};
use std::alloc::Global;
use std::test::Fail;

fn fault(line: &[u8]) -> Option<LineFault> {
    command(line).err()
}

fn entry(line: &[u8]) -> Option<Entry> {
    match command(line) {
        Ok(Call::Enter(entry)) => Some(entry),
        _ => None,
    }
}

fn writes(heap: Global, reply: Reply, expected: &[u8]) -> Result<bool, Fail> {
    let mut out = Vec::with_capacity(heap, LONGEST_REPLY)?;
    reply.write_to(&mut out)?;
    Ok(out.as_slice() == expected)
}

#[test]
fn lines_end_at_byte_ten_or_at_the_end(rt: HostRuntime) {
    let mut reader = LineReader::new(b"C 1\n\nL 5");
    assert!(rt; reader.next_line() == Some(b"C 1"));
    assert!(rt; reader.next_line() == Some(b""));
    assert!(rt; reader.next_line() == Some(b"L 5"));
    assert!(rt; reader.next_line() == None);
    let mut reader = LineReader::new(b"L 5\n");
    assert!(rt; reader.next_line() == Some(b"L 5"));
    assert!(rt; reader.next_line() == None);
    assert!(rt; LineReader::new(b"").next_line() == None);
}

#[test]
fn a_piece_leaves_what_is_not_ended(rt: HostRuntime) {
    let mut reader = LineReader::new(b"C 1\n\nL");
    assert!(rt; reader.next_ended() == Some(b"C 1"));
    assert!(rt; reader.next_ended() == Some(b""));
    assert!(rt; reader.next_ended() == None);
    assert!(rt; reader.rest() == b"L".as_slice());
    assert!(rt; reader.next_line() == Some(b"L"));
    assert!(rt; reader.rest() == b"".as_slice());
}

#[test]
fn numbers_have_one_to_sixteen_digits(rt: HostRuntime) {
    assert_eq!(rt; number(b"0"), Some(0));
    assert_eq!(rt; number(b"0000000000000042"), Some(42));
    assert_eq!(rt; number(b"9999999999999999"), Some(9_999_999_999_999_999));
    assert_eq!(rt; number(b"00000000000000042"), None);
    assert_eq!(rt; number(b""), None);
    assert_eq!(rt; number(b"+1"), None);
    assert_eq!(rt; number(b"1a"), None);
}

#[test]
fn refusals_in_their_order(rt: HostRuntime) {
    let full = b"L 0000000000000000000000000000000000000000000000000000000000000000000000000000001";
    assert_eq!(rt; full.len(), 81);
    assert_eq!(rt; fault(full), Some(LineFault::LineTooLong));
    assert_eq!(rt; fault(&full[1..]), Some(LineFault::NotACommand));
    assert_eq!(rt; fault(&full[0..80]), Some(LineFault::BadField(3)));
    assert_eq!(rt; fault(b""), Some(LineFault::NotACommand));
    assert_eq!(rt; fault(b"l 5"), Some(LineFault::NotACommand));
    assert_eq!(rt; fault(b"LL 5"), Some(LineFault::NotACommand));
    assert_eq!(rt; fault(b"L x y"), Some(LineFault::WrongNumberOfFields));
    assert_eq!(rt; fault(b"L"), Some(LineFault::WrongNumberOfFields));
    assert_eq!(rt; fault(b"K 1  3"), Some(LineFault::BadField(5)));
    assert_eq!(rt; fault(b"K 1 2 "), Some(LineFault::BadField(7)));
    assert_eq!(rt; fault(b"P x UU y"), Some(LineFault::BadField(3)));
    assert_eq!(rt; fault(b"P 1 UU y"), Some(LineFault::BadField(5)));
    assert_eq!(rt; fault(b"P 1 U y"), Some(LineFault::BadField(7)));
}

#[test]
fn sides_by_their_letters(rt: HostRuntime) -> Result<(), Fail> {
    let bid = entry(b"B 1 2 3 4 5").ok_or("no bid")?;
    assert_eq!(rt; bid.side, Side::Bid);
    assert!(rt; bid.contract == 1 && bid.price == 2 && bid.quantity == 3);
    assert!(rt; bid.participant == 4 && bid.counterparty == 5);
    assert_eq!(rt; entry(b"S 1 2 3 4 5").ok_or("no offer")?.side, Side::Offer);
    Ok(())
}

#[test]
fn numbers_as_they_are_written(rt: HostRuntime) -> Result<(), Fail> {
    let heap = rt.alloc();
    assert!(rt;
        writes(
            heap,
            Reply::Priced(0, i64::MIN),
            b"A 0 -9223372036854775808\n",
        )?
    );
    assert!(rt; writes(heap, Reply::Priced(10, 0), b"A 10 0\n")?);
    assert!(rt;
        writes(
            heap,
            Reply::Ordered(u64::MAX, u64::MAX),
            b"E 18446744073709551615 18446744073709551615\n",
        )?
    );
    assert!(rt; writes(heap, Reply::Withdrawn, b"W\n")?);
    Ok(())
}

#[test]
fn refusals_as_they_are_written(rt: HostRuntime) -> Result<(), Fail> {
    let heap = rt.alloc();
    let lacking = DayFault::Rule(RuleFault::LetterLacking(Letter::M));
    let quantity = DayFault::EntryOutsideLimits(EntryField::Quantity);
    assert!(rt; writes(heap, Reply::Refused(LineFault::BadField(81)), b"X L 4 81\n")?);
    assert!(rt;
        writes(
            heap,
            Reply::Refused(LineFault::Day(lacking)),
            b"X R 25 13\n",
        )?
    );
    assert!(rt;
        writes(
            heap,
            Reply::Refused(LineFault::Day(quantity)),
            b"X D 17 1\n",
        )?
    );
    Ok(())
}
