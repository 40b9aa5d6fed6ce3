//! Runs stored sessions through the library, whole and in pieces, and compares what is printed with the right answers.
#![tactic(auto)]

use anyhow::anyhow;
use books::SingleIssue;
use day::Day;
use reply::LONGEST_REPLY;
use session::{INPUT_LIMIT, Session, answer_all};
use std::alloc::Global;
use std::fs;

/// Each has its lines in NAME.in and the right answers in NAME.out.
const SESSIONS: [&str; 22] = [
    "bad_lines",
    "blank_lines",
    "day_01",
    "day_02",
    "day_03",
    "day_04",
    "day_05",
    "day_06",
    "day_07",
    "day_08",
    "day_09",
    "day_10",
    "day_11",
    "day_12",
    "empty",
    "every_row",
    "first_session",
    "full_book",
    "hours",
    "mid_price",
    "pairing",
    "past_the_end",
];

/// The size of the pieces in which a session is fed a second time, so that most lines are cut.
const PIECE: usize = 7;

/// What a fresh day prints for the first bytes of an input, as many as are read.
fn printed_whole(heap: Global, input: &[u8]) -> anyhow::Result<Vec<u8>> {
    let read = &input[..input.len().min(INPUT_LIMIT)];
    let mut day = Day::open(heap, SingleIssue)?;
    let mut printed = Vec::with_capacity(heap, INPUT_LIMIT * LONGEST_REPLY)?;
    answer_all(&mut day, read, &mut printed)?;
    Ok(printed)
}

/// What a fresh session prints for an input in pieces.
fn printed_in_pieces(heap: Global, input: &[u8]) -> anyhow::Result<Vec<u8>> {
    let mut session = Session::open(heap, SingleIssue)?;
    let mut printed = Vec::new(heap);
    for piece in input.chunks(PIECE) {
        session.feed(piece);
        printed.extend_from_slice(session.replies())?;
    }
    session.close();
    printed.extend_from_slice(session.replies())?;
    Ok(printed)
}

/// Runs a session, and says how it agrees with its right answers.
fn agrees(rt: &HostRuntime, name: &str) -> anyhow::Result<bool> {
    let heap = rt.alloc();
    let input = fs::read(rt, format!(in heap; "{name}.in")?)?;
    let right = fs::read(rt, format!(in heap; "{name}.out")?)?;
    let whole = printed_whole(heap, input.as_slice())?.as_slice() == right.as_slice();
    let pieces = printed_in_pieces(heap, input.as_slice())?.as_slice() == right.as_slice();
    println!(rt; "{name}: whole {whole}, in pieces {pieces}")?;
    Ok(whole && pieces)
}

fn run(rt: &HostRuntime) -> anyhow::Result<()> {
    let mut agreed: usize = 0;
    for name in SESSIONS {
        if agrees(rt, name)? {
            agreed = agreed.saturating_add(1);
        }
    }
    let count = SESSIONS.len();
    println!(rt; "{agreed} of {count} sessions agree")?;
    if agreed < count {
        return Err(anyhow!("a session differs from its right answers"));
    }
    Ok(())
}

fn main(rt: HostRuntime) -> anyhow::Result<()> {
    run(&rt)
}
