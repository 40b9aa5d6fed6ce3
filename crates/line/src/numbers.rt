//! Numbers as a line has them.
ghost use Rattle.std.specs.Prelude.{◌≡◌, ◌≤◌, length};
ghost use Rattle.line.specs.Numbers.{digits_in, number_in};

/// A number has at most so many digits, leading zeros among them.
const MOST_DIGITS: usize = 16;

/// The number that 1 to 16 digits write in base ten, or `None`.
pub fn number(bytes: &[u8]) -> Option<u64>
    ensures { result ≡ number_in bytes.now }
{
    if bytes.is_empty() || bytes.len() > MOST_DIGITS {
        return None;
    }
    read_digits(bytes)
}

/// What digits write in base ten, or `None` where a byte is no digit.
fn read_digits(bytes: &[u8]) -> Option<u64>
    requires { length bytes.now ≤ MOST_DIGITS }
    ensures { result ≡ digits_in bytes.now }
{
    let mut n: u64 = 0;
    for byte in bytes {
        let digit = char::from(*byte).to_digit(10)?;
        n = n * 10 + u64::from(digit);
    }
    Some(n)
}
