//! What a day can be asked.

#[derive(Clone, Copy, PartialEq, Eq, Debug)]
pub enum Side {
    Bid,
    Offer,
}

/// What an order says.
#[derive(Clone, Copy, PartialEq, Eq, Debug)]
pub struct Entry {
    pub side: Side,
    pub contract: u64,
    /// In pips.
    pub price: u64,
    pub quantity: u64,
    pub participant: u64,
    pub counterparty: u64,
}

impl Entry {
    pub const MOST_QUANTITY: u64 = 10_000;

    /// The last number that a participant may have.
    pub const LAST_PARTICIPANT: u64 = 9_999;
}

#[derive(Clone, Copy, PartialEq, Eq, Debug)]
pub enum Call {
    /// A product is listed as the next contract.
    List(u64),
    /// A contract's figure: contract, letter, value.
    Post(u64, char, u64),
    /// A contract's collar: contract, low, high, in pips.
    Collar(u64, u64, u64),
    /// The minute.
    Clock(u64),
    /// A contract is halted.
    Halt(u64),
    /// A contract's halt is lifted.
    Lift(u64),
    /// The nearest admissible price of a contract to a fraction: contract, numerator, divisor.
    Ask(u64, u64, u64),
    Enter(Entry),
    /// An order is withdrawn: order, participant.
    Withdraw(u64, u64),
}
