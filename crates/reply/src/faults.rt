//! Why a line is refused, by which layer, and at which place.
ghost use Rattle.std.specs.Prelude.{◌≡◌};
ghost use Rattle.reply.specs.Faults.{letter, number, place, layer};
ghost use Rattle.reply.specs.declared.faults.LineFault.TheVariants.{Day as OfDay};

use history::DayFault;

/// Who refuses.
#[derive(Clone, Copy, PartialEq, Eq, Debug)]
pub enum Layer {
    Line,
    Rulebook,
    Day,
}

#[derive(Clone, Copy, PartialEq, Eq, Debug)]
pub enum LineFault {
    /// More than 80 bytes.
    LineTooLong,
    /// The first field is no command.
    NotACommand,
    WrongNumberOfFields,
    /// A field that is no number, or a letter that is not one byte: its position.
    BadField(u64),
    /// The day refuses the call.
    Day(DayFault),
}

impl Layer {
    /// The letter that stands for the layer in a reply.
    pub fn letter(self) -> u8
        ensures { result ≡ letter self }
    {
        match self {
            Layer::Line => b'L',
            Layer::Rulebook => b'R',
            Layer::Day => b'D',
        }
    }
}

impl LineFault {
    /// The number under which it is refused.
    pub fn number(self) -> u64
        ensures { result ≡ number self }
    {
        match self {
            LineFault::LineTooLong => 1,
            LineFault::NotACommand => 2,
            LineFault::WrongNumberOfFields => 3,
            LineFault::BadField(_) => 4,
            LineFault::Day(fault) => fault.number(),
        }
    }

    /// The place that goes with the number: of a bad field its position, of the day's fault its
    /// place, else 0.
    pub fn place(self) -> u64
        ensures { result ≡ place self }
    {
        match self {
            LineFault::BadField(position) => position,
            LineFault::Day(fault) => fault.place(),
            _ => 0,
        }
    }

    /// The layer that refuses: a fault that a rulebook raised is the rulebook's.
    pub fn layer(self) -> Layer
        ensures { result ≡ layer self }
    {
        match self {
            LineFault::Day(DayFault::Rule(_)) => Layer::Rulebook,
            LineFault::Day(_) => Layer::Day,
            _ => Layer::Line,
        }
    }
}

// By hand: a derived one would not say what it gives.
impl From<DayFault> for LineFault {
    ghost from_gives = { λ fault r. r ≡ OfDay fault };

    fn from(raised: DayFault) -> LineFault {
        LineFault::Day(raised)
    }
}
