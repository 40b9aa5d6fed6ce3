//! A day whose input comes in pieces.
ghost use Rattle.std.specs.Prelude.{◌≤◌, vec_len, vec_capacity};
ghost use Rattle.session.specs.declared.session.TheConstants.{INPUT_LIMIT, REPLIES_LIMIT};

use day::Day;
use reply::LONGEST_REPLY;
use rulebook::Rulebook;

mod feeding;

/// How many bytes of an input are read.
pub const INPUT_LIMIT: usize = 65_536;

/// How many bytes the replies to an input take at most: each line takes a byte at least.
const REPLIES_LIMIT: usize = INPUT_LIMIT * LONGEST_REPLY;

/// All the memory that the session can need is there from its opening on.
#[derive(Drop)]
pub struct Session<R: Rulebook> {
    day: Day<R>,
    input: Vec<u8>,
    /// Where the bytes begin that come after the last ended line.
    at: usize,
    /// The replies to the last piece.
    replies: Vec<u8>,
    ghost input_room: { INPUT_LIMIT ≤ vec_capacity input },
    ghost input_few: { vec_len input ≤ INPUT_LIMIT },
    ghost at_inside: { at ≤ vec_len input },
    ghost replies_room: { REPLIES_LIMIT ≤ vec_capacity replies },
}
