//! Why answers are not given.
ghost use Rattle.std.specs.Prelude.{Some, codes};

use std::error::Error;
use std::fmt;

/// The room that was reserved for answers is too little.
#[derive(Clone, Copy, PartialEq, Eq, Debug)]
pub struct TooLittleRoom;

// By hand: a derived one would not say what it writes.
impl fmt::Display for TooLittleRoom {
    ghost output = { λ _. Some (codes "too little room for the answers") };

    fn fmt<W: fmt::Write>(&self, f: &mut fmt::Formatter<W>) -> fmt::Result {
        write!(f, "too little room for the answers")
    }
}

impl Error for TooLittleRoom {}
