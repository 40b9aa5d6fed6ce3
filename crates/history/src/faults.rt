//! Why a call is refused.
ghost use Rattle.std.specs.Prelude.{◌≡◌};
ghost use Rattle.history.specs.declared.faults.DayFault.TheVariants.{Price, Figure, Rule};
ghost use Rattle.history.specs.Faults.{number, field_place, place};

use price::PriceFault;
use rulebook::{FigureFault, RuleFault};

/// The fields of an entry that have limits.
#[derive(Clone, Copy, PartialEq, Eq, Debug)]
pub enum EntryField {
    Quantity,
    Participant,
    Counterparty,
}

#[derive(Clone, Copy, PartialEq, Eq, Debug)]
pub enum DayFault {
    /// A fraction outside its limits.
    Price(PriceFault),
    /// An unknown letter, or a value over its limit.
    Figure(FigureFault),
    /// A product that is absent, or a letter that is lacking.
    Rule(RuleFault),
    MinuteOverLimit,
    CollarOutsideLimits,
    EntryOutsideLimits(EntryField),
    ContractNotListed,
    ContractsFull,
    MinuteBeforePresent,
    /// Halted already, or lifted while not halted.
    HaltUnchanged,
    NoAdmissiblePrice,
    NotOpen,
    Halted,
    PriceNotAdmissible,
    OrdersFull,
    NoSuchOrder,
    AnotherParticipants,
    NotWaiting,
}

impl EntryField {
    /// The place of the field in an entry's checks.
    pub fn place(self) -> u64
        ensures { result ≡ field_place self }
    {
        match self {
            EntryField::Quantity => 1,
            EntryField::Participant => 2,
            EntryField::Counterparty => 3,
        }
    }
}

impl DayFault {
    /// The number under which it is refused.
    pub fn number(self) -> u64
        ensures { result ≡ number self }
    {
        match self {
            DayFault::Price(price) => price.number(),
            DayFault::Figure(figure) => figure.number(),
            DayFault::Rule(rule) => rule.number(),
            DayFault::MinuteOverLimit => 15,
            DayFault::CollarOutsideLimits => 16,
            DayFault::EntryOutsideLimits(_) => 17,
            DayFault::ContractNotListed => 21,
            DayFault::ContractsFull => 22,
            DayFault::MinuteBeforePresent => 23,
            DayFault::HaltUnchanged => 24,
            DayFault::NoAdmissiblePrice => 26,
            DayFault::NotOpen => 27,
            DayFault::Halted => 28,
            DayFault::PriceNotAdmissible => 29,
            DayFault::OrdersFull => 30,
            DayFault::NoSuchOrder => 31,
            DayFault::AnotherParticipants => 32,
            DayFault::NotWaiting => 33,
        }
    }

    /// The place that goes with the number: of a lacking letter its rank, of a field out of its
    /// limits that field's, else 0.
    pub fn place(self) -> u64
        ensures { result ≡ place self }
    {
        match self {
            DayFault::Rule(rule) => rule.place(),
            DayFault::EntryOutsideLimits(field) => field.place(),
            _ => 0,
        }
    }
}

// By hand: a derived one would not say what it gives.
impl From<PriceFault> for DayFault {
    ghost from_gives = { λ fault r. r ≡ Price fault };

    fn from(fault: PriceFault) -> DayFault {
        DayFault::Price(fault)
    }
}

impl From<FigureFault> for DayFault {
    ghost from_gives = { λ fault r. r ≡ Figure fault };

    fn from(fault: FigureFault) -> DayFault {
        DayFault::Figure(fault)
    }
}

impl From<RuleFault> for DayFault {
    ghost from_gives = { λ fault r. r ≡ Rule fault };

    fn from(fault: RuleFault) -> DayFault {
        DayFault::Rule(fault)
    }
}
