//! The lines of a lent input, one by one. Nothing is copied.
ghost use Rattle.std.specs.Prelude.{◌≡◌};
ghost use Rattle.std.specs.Option.{option_map};
ghost use Rattle.std.specs.Iterator.{YieldsFirstBy, item_count};
ghost use Rattle.line.specs.Firsts.{first, others};
ghost use Rattle.line.specs.Lines.{past_first, ended, unended};
ghost use Rattle.line.specs.Readers.{lines_left, unread};

use super::cutting::before_first;

#[derive(Drop)]
pub struct LineReader<'a> {
    input: &'a [u8],
    /// Where the next line begins; at the input's end or past it where none is left.
    at: usize,
}

impl<'a> LineReader<'a> {
    /// Reads `input` from its first line on.
    pub fn new(input: &'a [u8]) -> LineReader<'a>
        ensures { unread result ≡ input.now }
    {
        LineReader { input, at: 0 }
    }

    /// The next line, without the byte 10 that ends it, or `None` where no line is left.
    #[tactic(auto, using(crate::proofs::Reading::lines_cut, crate::proofs::Reading::left_on))]
    pub fn next_line(&mut self) -> Option<&'a [u8]>
        ensures line { option_map (λ x. x.now) result ≡ first (lines_left self.old) }
        ensures rest { lines_left self.new ≡ others (lines_left self.old) }
        ensures after { unread self.new ≡ past_first (unread self.old) }
    {
        let rest = self.rest();
        if rest.is_empty() {
            return None;
        }
        let n = before_first(rest, b'\n');
        self.at += n + 1;
        Some(&rest[..n])
    }

    /// The next line that a byte 10 ends, or `None` where none is left: what follows the last
    /// byte 10 stays unread.
    #[tactic(auto, using(crate::proofs::Reading::none_ended, crate::proofs::Reading::ended_cut, crate::proofs::Reading::unended_cut, crate::proofs::Reading::left_on))]
    pub fn next_ended(&mut self) -> Option<&'a [u8]>
        ensures line { option_map (λ x. x.now) result ≡ first (ended (unread self.old)) }
        ensures rest { ended (unread self.new) ≡ others (ended (unread self.old)) }
        ensures kept { unended (unread self.new) ≡ unended (unread self.old) }
    {
        let rest = self.rest();
        let n = before_first(rest, b'\n');
        if n == rest.len() {
            return None;
        }
        self.at += n + 1;
        Some(&rest[..n])
    }

    /// What is left to be read.
    pub fn rest(&self) -> &'a [u8]
        ensures { result.now ≡ unread self.now }
    {
        let start = self.at.min(self.input.len());
        &self.input[start..]
    }
}

impl<'a> Iterator for LineReader<'a> {
    type Item = &'a [u8];

    ghost next_gives = { YieldsFirstBy (λ line. line.now) lines_left };

    ghost remaining = { item_count lines_left };

    /// The same as `next_line`, which stays as a call of its own.
    fn next(&mut self) -> Option<&'a [u8]> {
        self.next_line()
    }
}
