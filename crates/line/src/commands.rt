//! What a line asks for.
ghost use Rattle.std.specs.Prelude.{◌≡◌};
ghost use Rattle.line.specs.Commands.{word_first, number_first, letter_first, call, said};
ghost use Rattle.line.specs.Firsts.{others};
ghost use Rattle.line.specs.Readers.{fields_left};

use super::fields::{Field, FieldReader, field_count};
use super::numbers::number;
use super::words::Word;
use history::{Call, Entry};
use reply::LineFault;

/// A line that has more bytes is refused.
pub const LONGEST_LINE: usize = 80;

/// The call that a line writes, or why it is refused: the line is too long, its first field is no
/// command, it has another number of fields, or a field is not what it should be.
pub fn command(line: &[u8]) -> Result<Call, LineFault>
    ensures { result ≡ said line.now }
{
    if line.len() > LONGEST_LINE {
        return Err(LineFault::LineTooLong);
    }
    let mut fields = FieldReader::new(line);
    let word = take_word(&mut fields)?;
    if field_count(line) != word.fields() {
        return Err(LineFault::WrongNumberOfFields);
    }
    take_call(word, &mut fields)
}

fn take_word(fields: &mut FieldReader) -> Result<Word, LineFault>
    ensures value { result ≡ word_first (fields_left fields.old) }
    ensures rest { fields_left fields.new ≡ others (fields_left fields.old) }
{
    let Some(Field::Command(part)) = fields.next_command() else {
        return Err(LineFault::NotACommand);
    };
    Word::read(part.bytes).ok_or(LineFault::NotACommand)
}

fn take_number(fields: &mut FieldReader) -> Result<u64, LineFault>
    ensures value { result ≡ number_first (fields_left fields.old) }
    ensures rest { fields_left fields.new ≡ others (fields_left fields.old) }
{
    let Some(Field::Number(part)) = fields.next_number() else {
        return Err(LineFault::WrongNumberOfFields);
    };
    number(part.bytes).ok_or(part.fault())
}

fn take_letter(fields: &mut FieldReader) -> Result<char, LineFault>
    ensures value { result ≡ letter_first (fields_left fields.old) }
    ensures rest { fields_left fields.new ≡ others (fields_left fields.old) }
{
    let Some(Field::Letter(part)) = fields.next_letter() else {
        return Err(LineFault::WrongNumberOfFields);
    };
    match part.bytes {
        [letter] => Ok(char::from(*letter)),
        _ => Err(part.fault()),
    }
}

/// The call of a word with the fields after it.
fn take_call(word: Word, fields: &mut FieldReader) -> Result<Call, LineFault>
    ensures { result ≡ call word (fields_left fields.old) }
{
    Ok(match word {
        Word::List => Call::List(take_number(fields)?),
        Word::Post => Call::Post(
            take_number(fields)?,
            take_letter(fields)?,
            take_number(fields)?,
        ),
        Word::Collar => Call::Collar(
            take_number(fields)?,
            take_number(fields)?,
            take_number(fields)?,
        ),
        Word::Clock => Call::Clock(take_number(fields)?),
        Word::Halt => Call::Halt(take_number(fields)?),
        Word::Lift => Call::Lift(take_number(fields)?),
        Word::Ask => Call::Ask(
            take_number(fields)?,
            take_number(fields)?,
            take_number(fields)?,
        ),
        Word::Enter(side) => Call::Enter(Entry {
            side,
            contract: take_number(fields)?,
            price: take_number(fields)?,
            quantity: take_number(fields)?,
            participant: take_number(fields)?,
            counterparty: take_number(fields)?,
        }),
        Word::Withdraw => Call::Withdraw(take_number(fields)?, take_number(fields)?),
    })
}
