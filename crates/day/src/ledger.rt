//! The ledger of a day: the minute, the contracts and the orders, by their numbers from 1.
ghost use Rattle.day.specs.declared.ledger.TheConstants.{MOST_CONTRACTS, MOST_ORDERS};
ghost use Rattle.std.specs.Prelude.{◌≡◌, suc, ◌<◌, ◌≤◌, false, length, vec_len, vec_capacity, IfSome, IfOk};

use super::contract::Contract;
use super::matching::{count_due, earliest_countering, lapse_due};
use super::numbered::numbered;
use super::order::{Order, Status};
use history::{DayFault, Entry};
use std::alloc::{AllocError, Global};

/// So many contracts can be listed.
pub(crate) const MOST_CONTRACTS: usize = 32;

/// So many orders can be accepted.
pub(crate) const MOST_ORDERS: usize = 256;

/// All the memory that it can need is there from its making on.
#[derive(Drop)]
pub(crate) struct Ledger {
    minute: u64,
    contracts: Vec<Contract>,
    orders: Vec<Order>,
    ghost contracts_room: { MOST_CONTRACTS ≤ vec_capacity contracts },
    ghost contracts_few: { vec_len contracts ≤ MOST_CONTRACTS },
    ghost orders_room: { MOST_ORDERS ≤ vec_capacity orders },
    ghost orders_few: { vec_len orders ≤ MOST_ORDERS },
}

impl Ledger {
    ghost use Rattle.std.specs.Option.{unwrap_or};
    ghost use Rattle.history.specs.Orders.{how_many};
    ghost use Rattle.history.specs.Board.{lapses_on};
    ghost use Rattle.history.specs.Rulings.{outside};
    ghost use Rattle.day.specs.Calls.{found, finding, ordering, with_one_more, with_terms, with_clocked, with_marked, with_order, at_minute, partner_on, paired};
    ghost use Rattle.day.specs.State.{terms, state_of, fresh, board_of};

    /// Minute 0, with no contract and no order, or want of memory.
    pub(crate) fn empty(heap: Global) -> Result<Ledger, AllocError>
        ensures { IfOk result (λ ledger. state_of ledger ≡ fresh) }
    {
        let contracts = Vec::with_capacity(heap, MOST_CONTRACTS)?;
        let orders = Vec::with_capacity(heap, MOST_ORDERS)?;
        Ok(Ledger {
            minute: 0,
            contracts,
            orders,
        })
    }

    /// The present minute.
    pub(crate) fn minute(&self) -> u64
        ensures { result ≡ (state_of self.now).minute }
    {
        self.minute
    }

    /// Makes `to` the present minute.
    pub(crate) fn set_minute(&mut self, to: u64)
        ensures { state_of self.new ≡ at_minute (state_of self.old) to }
    {
        self.minute = to;
    }

    /// How many contracts are listed.
    pub(crate) fn listed(&self) -> usize
        ensures { result ≡ length (state_of self.now).contracts }
    {
        self.contracts.len()
    }

    /// The contract of a number.
    pub(crate) fn find(&self, contract: u64) -> Result<Contract, DayFault>
        ensures { found result ≡ finding (state_of self.now) contract }
    {
        numbered(self.contracts.as_slice(), contract).ok_or(DayFault::ContractNotListed)
    }

    /// One contract more, for which there is room.
    pub(crate) fn add(&mut self, contract: Contract)
        requires { length (state_of self.old).contracts < MOST_CONTRACTS }
        ensures { state_of self.new ≡ with_one_more (state_of self.old) (terms contract) }
    {
        self.contracts.push_reserved(contract);
    }

    /// Puts `changed` in the place of a contract that is listed.
    pub(crate) fn put(&mut self, contract: u64, changed: Contract)
        requires { outside (length (state_of self.old).contracts) contract ≡ false }
        ensures { state_of self.new ≡ with_terms (state_of self.old) contract (terms changed) }
    {
        self.contracts[contract as usize - 1] = changed;
    }

    /// How many orders were accepted.
    pub(crate) fn accepted(&self) -> usize
        ensures { result ≡ length (state_of self.now).orders }
    {
        self.orders.len()
    }

    /// The order of a number.
    pub(crate) fn order(&self, number: u64) -> Result<Order, DayFault>
        ensures { result ≡ ordering (state_of self.now) number }
    {
        numbered(self.orders.as_slice(), number).ok_or(DayFault::NoSuchOrder)
    }

    /// How many orders lapse by the minute `to`.
    pub(crate) fn due(&self, to: u64) -> u64
        ensures { result ≡ how_many (lapses_on (board_of (state_of self.now)) to) (length (state_of self.now).orders) }
    {
        count_due(self.orders.as_slice(), to)
    }

    /// Lapses the orders that are due by the minute `to`.
    pub(crate) fn lapse(&mut self, to: u64)
        ensures { state_of self.new ≡ with_clocked (state_of self.old) to }
    {
        lapse_due(self.orders.as_mut_slice(), to);
    }

    /// Gives an accepted order another status.
    pub(crate) fn mark(&mut self, number: u64, status: Status)
        requires { outside (length (state_of self.old).orders) number ≡ false }
        ensures { state_of self.new ≡ with_marked (state_of self.old) number status }
    {
        self.orders[number as usize - 1].status = status;
    }

    /// Books an order for which there is room: it trades with its partner or waits. Its number and its partner's, 0
    /// while it waits.
    pub(crate) fn pair(&mut self, entry: Entry, until: u64) -> (u64, u64)
        requires { length (state_of self.old).orders < MOST_ORDERS }
        ensures value { result ≡ (suc (length (state_of self.old).orders), partner_on (state_of self.old) entry) }
        ensures after { state_of self.new ≡ paired (state_of self.old) (partner_on (state_of self.old) entry) entry until }
    {
        let number = self.accepted() as u64 + 1;
        let partner = self.partner(&entry);
        let status = match partner {
            Some(partner) => {
                self.mark(partner, Status::Traded);
                Status::Traded
            }
            None => Status::Waiting,
        };
        self.accept(Order {
            entry,
            until,
            status,
        });
        (number, partner.unwrap_or(0))
    }

    /// The number of the earliest waiting order that counters an entry.
    fn partner(&self, incoming: &Entry) -> Option<u64>
        ensures value { unwrap_or result 0 ≡ partner_on (state_of self.now) incoming.now }
        ensures known { IfSome result (λ number. outside (length (state_of self.now).orders) number ≡ false) }
    {
        earliest_countering(self.orders.as_slice(), incoming)
    }

    /// One order more, for which there is room.
    fn accept(&mut self, order: Order)
        requires { length (state_of self.old).orders < MOST_ORDERS }
        ensures { state_of self.new ≡ with_order (state_of self.old) order }
    {
        self.orders.push_reserved(order);
    }
}
