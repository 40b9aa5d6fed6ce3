//! Opening a session, and the pieces of its input.
ghost use Rattle.std.specs.Prelude.{◌≡◌, ◌++◌, IfOk};
ghost use Rattle.history.specs.History.{opened};
ghost use Rattle.day.specs.Following.{Brings};
ghost use Rattle.line.specs.Lines.{lines, ended};
ghost use Rattle.session.specs.Talk.{LawfulOn};
ghost use Rattle.session.specs.Pieces.{standing, beginning, read_of, held_with, fed, fed_text, closed, closed_text};

use super::{INPUT_LIMIT, REPLIES_LIMIT, Session};
use crate::answering::{answer_ended, answer_lines};
use day::Day;
use rulebook::Rulebook;
use std::alloc::{AllocError, Global};

impl<R: Rulebook + Drop> Session<R> {
    /// A session on a fresh day under `book`, or want of memory.
    pub fn open(heap: Global, book: R) -> Result<Session<R>, AllocError>
        ensures standing { IfOk result (λ session. standing session ≡ beginning) }
        ensures book { IfOk result (λ session. session.day.book ≡ book) }
        ensures history { IfOk result (λ session. Brings (R.Rulebook.meaning book) opened (standing session).day) }
    {
        let day = Day::open(heap, book)?;
        let input = Vec::with_capacity(heap, INPUT_LIMIT)?;
        let replies = Vec::with_capacity(heap, REPLIES_LIMIT)?;
        Ok(Session {
            day,
            input,
            at: 0,
            replies,
        })
    }
}

impl<R: Rulebook> Session<R> {
    /// The next piece of the input: the lines that are now ended are answered. Bytes past the limit are not read.
    pub fn feed(&mut self, piece: &[u8])
        ensures standing { standing self.new ≡ fed (R.Rulebook.meaning self.old.day.book) (standing self.old) piece.now }
        ensures replies { self.new.replies.items ≡ fed_text (R.Rulebook.meaning self.old.day.book) (standing self.old) piece.now }
        ensures book { self.new.day.book ≡ self.old.day.book }
        ensures law { LawfulOn (R.Rulebook.meaning self.old.day.book) (standing self.old).day (ended (held_with (standing self.old) piece.now)) (standing self.new).day }
    {
        self.hold(piece);
        self.replies.clear();
        let held = &self.input[self.at..];
        let left = answer_ended(&mut self.day, held, &mut self.replies).len();
        self.at = self.input.len() - left;
    }

    /// The end of the input: what follows the last ended line is answered.
    pub fn close(&mut self)
        ensures standing { standing self.new ≡ closed (R.Rulebook.meaning self.old.day.book) (standing self.old) }
        ensures replies { self.new.replies.items ≡ closed_text (R.Rulebook.meaning self.old.day.book) (standing self.old) }
        ensures book { self.new.day.book ≡ self.old.day.book }
        ensures law { LawfulOn (R.Rulebook.meaning self.old.day.book) (standing self.old).day (lines (standing self.old).held) (standing self.new).day }
    {
        self.replies.clear();
        let held = &self.input[self.at..];
        answer_lines(&mut self.day, held, &mut self.replies);
        self.at = self.input.len();
    }

    /// The replies to the last piece, or to the end.
    pub fn replies(&self) -> &[u8]
        ensures { result.now ≡ self.now.replies.items }
    {
        self.replies.as_slice()
    }

    /// Adds the part of a piece that is still read to the input.
    fn hold(&mut self, piece: &[u8])
        ensures input { self.new.input.items ≡ self.old.input.items ++ read_of (standing self.old) piece.now }
        ensures day { self.new.day ≡ self.old.day }
        ensures at { self.new.at ≡ self.old.at }
    {
        let count = piece.len().min(INPUT_LIMIT - self.input.len());
        self.input.extend_from_slice(&piece[..count]).unwrap();
    }
}
