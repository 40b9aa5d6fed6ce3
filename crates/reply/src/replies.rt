//! What a line is replied, as bytes. No `Result`: a refusal is a reply, a line like the others.
ghost use Rattle.std.specs.Prelude.{◌≡◌, ◌+◌, ◌-◌, ◌<◌, ◌≤◌, [], ◌++◌, length, codes, is_ok, if◌then◌else◌, vec_len, vec_capacity, nat_le};
ghost use Rattle.reply.specs.Replies.{text};

use super::faults::LineFault;
use history::TooLittleRoom;
use itoa::{Buffer, Integer};

/// No reply has more bytes: a letter and a blank, 20 bytes, a blank, 20 bytes, and byte 10.
pub const LONGEST_REPLY: usize = 44;

#[derive(Clone, Copy, PartialEq, Eq, Debug)]
pub enum Reply {
    /// The number of the contract that was listed.
    Listed(u64),
    Posted,
    Collared,
    /// How many orders lapsed.
    Lapsed(u64),
    Halted,
    Lifted,
    /// A price and its signed distance.
    Priced(u64, i64),
    /// The number of an order, and of its partner, 0 while it waits, as it is printed.
    Ordered(u64, u64),
    Withdrawn,
    Refused(LineFault),
}

impl Reply {
    /// Writes the reply after what `out` holds, where the room that its owner has reserved is enough for
    /// every reply.
    pub fn write_to(self, out: &mut Vec<u8>) -> Result<(), TooLittleRoom>
        ensures room { is_ok result ≡ nat_le 44 (vec_capacity out.old - vec_len out.old) }
        ensures items { out.new.items ≡ out.old.items ++ (if is_ok result then text self else []) }
        ensures within { vec_len out.new ≤ vec_len out.old + 44 }
        ensures capacity { vec_capacity out.new ≡ vec_capacity out.old }
    {
        if LONGEST_REPLY > out.capacity() - out.len() {
            return Err(TooLittleRoom);
        }
        self.write_unended(out);
        out.push_reserved(b'\n');
        Ok(())
    }

    /// Adds the reply without the byte 10 that closes it, where there is room for every reply.
    fn write_unended(self, out: &mut Vec<u8>)
        requires { vec_len out.old + 44 ≤ vec_capacity out.old }
        ensures items { out.new.items ++ codes "\n" ≡ out.old.items ++ text self }
        ensures within { vec_len out.new < vec_len out.old + 44 }
        ensures capacity { vec_capacity out.new ≡ vec_capacity out.old }
    {
        match self {
            Reply::Listed(contract) => write_number(out, b"L", contract),
            Reply::Posted => write_bytes(out, b"P"),
            Reply::Collared => write_bytes(out, b"K"),
            Reply::Lapsed(orders) => write_number(out, b"C", orders),
            Reply::Halted => write_bytes(out, b"H"),
            Reply::Lifted => write_bytes(out, b"G"),
            Reply::Priced(price, distance) => {
                write_number(out, b"A", price);
                write_number(out, b"", distance);
            }
            Reply::Ordered(order, partner) => {
                write_number(out, b"E", order);
                write_number(out, b"", partner);
            }
            Reply::Withdrawn => write_bytes(out, b"W"),
            Reply::Refused(fault) => {
                let head = [b'X', b' ', fault.layer().letter()];
                write_number(out, &head, fault.number() as u8);
                write_number(out, b"", fault.place());
            }
        }
    }
}

/// Adds a head, a blank and a number, for which there is room.
fn write_number<I: Integer>(out: &mut Vec<u8>, head: &[u8], number: I)
    requires { vec_len out.old + length head.now + I.Integer.MAX_STR_LEN < vec_capacity out.old }
    ensures items { out.new.items ≡ out.old.items ++ head.now ++ codes " " ++ I.Integer.text number }
    ensures within { vec_len out.new ≤ vec_len out.old + length head.now + I.Integer.MAX_STR_LEN + 1 }
    ensures capacity { vec_capacity out.new ≡ vec_capacity out.old }
{
    let mut digits = Buffer::new();
    write_bytes(out, head);
    out.push_reserved(b' ');
    write_bytes(out, digits.format(number).as_bytes());
}

/// Adds bytes for which there is room.
fn write_bytes(out: &mut Vec<u8>, bytes: &[u8])
    requires { vec_len out.old + length bytes.now ≤ vec_capacity out.old }
    ensures items { out.new.items ≡ out.old.items ++ bytes.now }
    ensures len { vec_len out.new ≡ vec_len out.old + length bytes.now }
    ensures capacity { vec_capacity out.new ≡ vec_capacity out.old }
{
    for byte in bytes {
        out.push_reserved(*byte);
    }
}
