//! The fields of a line, one by one, each with its position. Nothing is copied.
ghost use Rattle.std.specs.Prelude.{◌≡◌, length};
ghost use Rattle.std.specs.Option.{option_map};
ghost use Rattle.std.specs.Iterator.{YieldsFirstBy, item_count};
ghost use Rattle.line.specs.Fields.{fields, a_command, a_letter, a_number};
ghost use Rattle.line.specs.Firsts.{first, others};
ghost use Rattle.line.specs.Readers.{fields_left, part_read, field_read};

use super::cutting::before_first;
use reply::LineFault;

/// A part of a line between blanks.
#[derive(Clone, Copy, PartialEq, Eq, Debug)]
pub(crate) struct Part<'a> {
    pub(crate) bytes: &'a [u8],
    /// The place in the line, from 1, where its first byte stands or, if it is empty, would stand.
    pub(crate) position: usize,
}

impl Part<'_> {
    /// The fault of a part that is not what it should be.
    pub(crate) fn fault(&self) -> LineFault
        ensures { result ≡ LineFault.BadField self.now.position }
    {
        LineFault::BadField(self.position as u64)
    }
}

/// A part, and what it is read as.
#[derive(Clone, Copy, PartialEq, Eq, Debug)]
pub(crate) enum Field<'a> {
    Command(Part<'a>),
    Letter(Part<'a>),
    Number(Part<'a>),
}

#[derive(Drop)]
pub(crate) struct FieldReader<'a> {
    line: &'a [u8],
    /// Where the next field begins; past the line's length where none is left.
    at: usize,
}

impl<'a> FieldReader<'a> {
    /// Reads `line` from its first field on.
    pub(crate) fn new(line: &'a [u8]) -> FieldReader<'a>
        ensures { fields_left result ≡ fields line.now }
    {
        FieldReader { line, at: 0 }
    }

    // A call for each kind, as fields are tokens of their kind: docs/DECISIONS.md, "Forms".

    /// The next field as the line's command.
    pub(crate) fn next_command(&mut self) -> Option<Field<'a>>
        ensures field { option_map field_read result ≡ option_map a_command (first (fields_left self.old)) }
        ensures rest { fields_left self.new ≡ others (fields_left self.old) }
    {
        self.next().map(Field::Command)
    }

    /// The next field as a letter.
    pub(crate) fn next_letter(&mut self) -> Option<Field<'a>>
        ensures field { option_map field_read result ≡ option_map a_letter (first (fields_left self.old)) }
        ensures rest { fields_left self.new ≡ others (fields_left self.old) }
    {
        self.next().map(Field::Letter)
    }

    /// The next field as a number.
    pub(crate) fn next_number(&mut self) -> Option<Field<'a>>
        ensures field { option_map field_read result ≡ option_map a_number (first (fields_left self.old)) }
        ensures rest { fields_left self.new ≡ others (fields_left self.old) }
    {
        self.next().map(Field::Number)
    }
}

impl<'a> Iterator for FieldReader<'a> {
    type Item = Part<'a>;

    ghost next_gives = { YieldsFirstBy part_read fields_left };

    ghost remaining = { item_count fields_left };

    #[tactic(auto, using(crate::proofs::Splitting::fields_cut, std::proofs::lemmas::List::take_rest))]
    fn next(&mut self) -> Option<Part<'a>> {
        let rest = self.line.get(self.at..)?;
        let bytes = &rest[..before_first(rest, b' ')];
        let position = self.at + 1;
        self.at += bytes.len() + 1;
        Some(Part { bytes, position })
    }
}

/// How many fields a line has: one more than blanks.
pub(crate) fn field_count(line: &[u8]) -> usize
    ensures { result ≡ length (fields line.now) }
{
    line.iter().filter(|byte| **byte == b' ').count() + 1
}
