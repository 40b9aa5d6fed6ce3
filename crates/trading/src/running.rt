//! Calls one by one, and a list of them.
ghost use Rattle.std.specs.Prelude.{◌≡◌, ◌-◌, ◌≤◌, List, [], ◌++◌, length, is_ok, if◌then◌else◌, vec_len, vec_capacity, OnOk, nat_le};
ghost use Rattle.history.specs.declared.Answer.{Answer};
ghost use Rattle.history.specs.History.{History};
ghost use Rattle.history.specs.Law.{added};
ghost use Rattle.day.specs.Following.{answered, left, Brings};
ghost use Rattle.trading.specs.Runs.{answer_of, all_answered, all_left, Upheld};
ghost use Rattle.day.specs.State.{view};

use day::Day;
use history::{Answer, Call, DayFault, TooLittleRoom};
use rulebook::Rulebook;

/// Makes a call, and answers it.
pub fn make<R: Rulebook>(day: &mut Day<R>, call: Call) -> Answer
    ensures answer { result ≡ answered (R.Rulebook.meaning day.old.book) (view day.old) call }
    ensures after { view day.new ≡ left (R.Rulebook.meaning day.old.book) (view day.old) call }
    ensures book { day.new.book ≡ day.old.book }
{
    carry_out(day, call).unwrap_or_else(Answer::Refused)
}

/// Makes a call: its answer, or why it is refused.
fn carry_out<R: Rulebook>(day: &mut Day<R>, call: Call) -> Result<Answer, DayFault>
    ensures answer { answer_of result ≡ answered (R.Rulebook.meaning day.old.book) (view day.old) call }
    ensures after { view day.new ≡ left (R.Rulebook.meaning day.old.book) (view day.old) call }
    ensures book { day.new.book ≡ day.old.book }
{
    match call {
        Call::List(product) => day.list(product).map(Answer::Listed),
        Call::Post(contract, letter, value) => day
            .post(contract, letter, value)
            .map(|()| Answer::Done),
        Call::Collar(contract, low, high) => day.collar(contract, low, high).map(|()| Answer::Done),
        Call::Clock(to) => day.clock(to).map(Answer::Lapsed),
        Call::Halt(contract) => day.halt(contract).map(|()| Answer::Done),
        Call::Lift(contract) => day.lift(contract).map(|()| Answer::Done),
        Call::Ask(contract, n, d) => day
            .ask(contract, n, d)
            .map(|(price, distance)| Answer::Price(price, distance)),
        Call::Enter(entry) => day
            .enter(entry)
            .map(|(order, partner)| Answer::Ordered(order, partner)),
        Call::Withdraw(order, participant) => day
            .withdraw(order, participant)
            .map(|()| Answer::Done),
    }
}

/// Makes every call of a list, in turn, and adds the answers to `answers`, in room that its owner has reserved.
/// Where that is too little for them all, no call is made.
pub fn run<R: Rulebook>(
    day: &mut Day<R>,
    calls: &[Call],
    answers: &mut Vec<Answer>,
) -> Result<(), TooLittleRoom>
    ensures room { is_ok result ≡ nat_le (length calls.now) (vec_capacity answers.old - vec_len answers.old) }
    ensures answers { answers.new.items ≡ answers.old.items ++ (if is_ok result then all_answered (R.Rulebook.meaning day.old.book) (view day.old) calls.now else []) }
    ensures after { view day.new ≡ (if is_ok result then all_left (R.Rulebook.meaning day.old.book) (view day.old) calls.now else view day.old) }
    ensures book { day.new.book ≡ day.old.book }
    ensures capacity { vec_capacity answers.new ≡ vec_capacity answers.old }
    ensures law { OnOk result ((h : History) (given : List Answer) → Brings (R.Rulebook.meaning day.old.book) h (view day.old)
        → answers.new.items ≡ answers.old.items ++ given
        → Upheld (R.Rulebook.meaning day.old.book) (added h calls.now given) (view day.new)) }
{
    if calls.len() > answers.capacity() - answers.len() {
        return Err(TooLittleRoom);
    }
    make_all(day, calls, answers);
    Ok(())
}

/// Makes calls for whose answers there is room.
fn make_all<R: Rulebook>(day: &mut Day<R>, calls: &[Call], answers: &mut Vec<Answer>)
    requires { length calls.now ≤ vec_capacity answers.old - vec_len answers.old }
    ensures answers { answers.new.items ≡ answers.old.items ++ all_answered (R.Rulebook.meaning day.old.book) (view day.old) calls.now }
    ensures after { view day.new ≡ all_left (R.Rulebook.meaning day.old.book) (view day.old) calls.now }
    ensures book { day.new.book ≡ day.old.book }
    ensures capacity { vec_capacity answers.new ≡ vec_capacity answers.old }
{
    for call in calls {
        let answer = make(day, *call);
        answers.push_reserved(answer);
    }
}
