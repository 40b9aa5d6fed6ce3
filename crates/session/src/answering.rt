//! Lines answered in room that was reserved for their replies.
ghost use Rattle.std.specs.Prelude.{◌≡◌, ◌+◌, ◌-◌, ◌*◌, ◌/◌, ◌≤◌, [], ◌++◌, length, is_ok, if◌then◌else◌, vec_len, vec_capacity, OnOk, nat_le};
ghost use Rattle.day.specs.State.{view};
ghost use Rattle.line.specs.Lines.{lines, ended, unended};
ghost use Rattle.reply.specs.Replies.{text};
ghost use Rattle.session.specs.Talk.{reply, left_by_line, printed, left_by_lines, LawfulOn};

use super::carrying::reply_to;
use day::Day;
use history::TooLittleRoom;
use line::LineReader;
use reply::LONGEST_REPLY;
use rulebook::Rulebook;

/// Answers a line: its reply is added to `out`, in room that its owner has reserved. Where that is less than the longest
/// reply takes, the line is not carried out.
pub fn answer_line<R: Rulebook>(
    day: &mut Day<R>,
    line: &[u8],
    out: &mut Vec<u8>,
) -> Result<(), TooLittleRoom>
    ensures room { is_ok result ≡ nat_le 44 (vec_capacity out.old - vec_len out.old) }
    ensures bytes { out.new.items ≡ out.old.items ++ (if is_ok result then text (reply (R.Rulebook.meaning day.old.book) (view day.old) line.now) else []) }
    ensures within { vec_len out.new ≤ vec_len out.old + 44 }
    ensures capacity { vec_capacity out.new ≡ vec_capacity out.old }
    ensures after { view day.new ≡ (if is_ok result then left_by_line (R.Rulebook.meaning day.old.book) (view day.old) line.now else view day.old) }
    ensures book { day.new.book ≡ day.old.book }
{
    if LONGEST_REPLY > out.capacity() - out.len() {
        return Err(TooLittleRoom);
    }
    reply_to(day, line).write_to(out)
}

/// Answers the lines of an input that a byte 10 ends, for whose replies there is room, and hands back what follows them.
pub(crate) fn answer_ended<'a, R: Rulebook>(
    day: &mut Day<R>,
    input: &'a [u8],
    out: &mut Vec<u8>,
) -> &'a [u8]
    requires { 44 * length (ended input.now) + vec_len out.old ≤ vec_capacity out.old }
    ensures rest { result.now ≡ unended input.now }
    ensures bytes { out.new.items ≡ out.old.items ++ printed (R.Rulebook.meaning day.old.book) (view day.old) (ended input.now) }
    ensures within { vec_len out.new ≤ vec_len out.old + 44 * length (ended input.now) }
    ensures capacity { vec_capacity out.new ≡ vec_capacity out.old }
    ensures after { view day.new ≡ left_by_lines (R.Rulebook.meaning day.old.book) (view day.old) (ended input.now) }
    ensures book { day.new.book ≡ day.old.book }
{
    let mut reader = LineReader::new(input);
    // No `for`: the reader iterates over all lines, and what is left is asked for after the loop.
    while let Some(line) = reader.next_ended() {
        answer_line(day, line, out).unwrap();
    }
    reader.rest()
}

/// Answers every line of an input, for whose replies there is room.
pub(crate) fn answer_lines<R: Rulebook>(day: &mut Day<R>, input: &[u8], out: &mut Vec<u8>)
    requires { 44 * length (lines input.now) + vec_len out.old ≤ vec_capacity out.old }
    ensures bytes { out.new.items ≡ out.old.items ++ printed (R.Rulebook.meaning day.old.book) (view day.old) (lines input.now) }
    ensures capacity { vec_capacity out.new ≡ vec_capacity out.old }
    ensures after { view day.new ≡ left_by_lines (R.Rulebook.meaning day.old.book) (view day.old) (lines input.now) }
    ensures book { day.new.book ≡ day.old.book }
{
    for line in LineReader::new(input) {
        answer_line(day, line, out).unwrap();
    }
}

/// Answers every line of an input: the replies are added to `out`, in room that its owner has reserved. Where that is
/// too little for them all, no line is carried out.
pub fn answer_all<R: Rulebook>(
    day: &mut Day<R>,
    input: &[u8],
    out: &mut Vec<u8>,
) -> Result<(), TooLittleRoom>
    ensures room { is_ok result ≡ nat_le (length (lines input.now)) ((vec_capacity out.old - vec_len out.old) / 44) }
    ensures bytes { out.new.items ≡ out.old.items ++ (if is_ok result then printed (R.Rulebook.meaning day.old.book) (view day.old) (lines input.now) else []) }
    ensures after { view day.new ≡ (if is_ok result then left_by_lines (R.Rulebook.meaning day.old.book) (view day.old) (lines input.now) else view day.old) }
    ensures capacity { vec_capacity out.new ≡ vec_capacity out.old }
    ensures book { day.new.book ≡ day.old.book }
    ensures law { OnOk result (LawfulOn (R.Rulebook.meaning day.old.book) (view day.old) (lines input.now) (view day.new)) }
{
    if line_count(input) > (out.capacity() - out.len()) / LONGEST_REPLY {
        return Err(TooLittleRoom);
    }
    answer_lines(day, input, out);
    Ok(())
}

/// How many lines an input has.
fn line_count(input: &[u8]) -> usize
    ensures { result ≡ length (lines input.now) }
{
    LineReader::new(input).count()
}
