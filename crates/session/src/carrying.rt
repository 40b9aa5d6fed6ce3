//! A line on a day: the call that it says is made, and replied.
ghost use Rattle.std.specs.Prelude.{◌≡◌};
ghost use Rattle.day.specs.State.{view};
ghost use Rattle.day.specs.Following.{answered, left};
ghost use Rattle.session.specs.Talk.{replied, reply_of, reply, left_by_line};

use day::Day;
use history::Call;
use line::command;
use reply::{LineFault, Reply};
use rulebook::Rulebook;

/// Makes a call, and tells its reply, or why it is refused.
fn carry_out<R: Rulebook>(day: &mut Day<R>, call: Call) -> Result<Reply, LineFault>
    ensures answer { reply_of result ≡ replied call (answered (R.Rulebook.meaning day.old.book) (view day.old) call) }
    ensures after { view day.new ≡ left (R.Rulebook.meaning day.old.book) (view day.old) call }
    ensures book { day.new.book ≡ day.old.book }
{
    match call {
        Call::List(product) => Ok(Reply::Listed(day.list(product)?)),
        Call::Post(contract, letter, value) => {
            day.post(contract, letter, value)?;
            Ok(Reply::Posted)
        }
        Call::Collar(contract, low, high) => {
            day.collar(contract, low, high)?;
            Ok(Reply::Collared)
        }
        Call::Clock(minute) => Ok(Reply::Lapsed(day.clock(minute)?)),
        Call::Halt(contract) => {
            day.halt(contract)?;
            Ok(Reply::Halted)
        }
        Call::Lift(contract) => {
            day.lift(contract)?;
            Ok(Reply::Lifted)
        }
        Call::Ask(contract, n, d) => {
            let (price, distance) = day.ask(contract, n, d)?;
            Ok(Reply::Priced(price, distance))
        }
        Call::Enter(entry) => {
            let (order, partner) = day.enter(entry)?;
            Ok(Reply::Ordered(order, partner))
        }
        Call::Withdraw(order, participant) => {
            day.withdraw(order, participant)?;
            Ok(Reply::Withdrawn)
        }
    }
}

/// Carries a line out, and tells its reply, or why it is refused.
fn carry_line_out<R: Rulebook>(day: &mut Day<R>, line: &[u8]) -> Result<Reply, LineFault>
    ensures answer { reply_of result ≡ reply (R.Rulebook.meaning day.old.book) (view day.old) line.now }
    ensures after { view day.new ≡ left_by_line (R.Rulebook.meaning day.old.book) (view day.old) line.now }
    ensures book { day.new.book ≡ day.old.book }
{
    let call = command(line)?;
    carry_out(day, call)
}

/// Carries a line out, and tells its reply.
pub(crate) fn reply_to<R: Rulebook>(day: &mut Day<R>, line: &[u8]) -> Reply
    ensures answer { result ≡ reply (R.Rulebook.meaning day.old.book) (view day.old) line.now }
    ensures after { view day.new ≡ left_by_line (R.Rulebook.meaning day.old.book) (view day.old) line.now }
    ensures book { day.new.book ≡ day.old.book }
{
    carry_line_out(day, line).unwrap_or_else(Reply::Refused)
}
