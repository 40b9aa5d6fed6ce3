//! Orders that counter an entry, and orders that lapse.
ghost use Rattle.std.specs.Prelude.{◌≡◌, false, map, length, IfSome};
ghost use Rattle.std.specs.Option.{unwrap_or};
ghost use Rattle.history.specs.Orders.{first, how_many};
ghost use Rattle.history.specs.Rulings.{outside};
ghost use Rattle.day.specs.Calls.{meets_at, due_at, clocked};

use super::order::Order;
use history::Entry;

/// The number of the earliest waiting order that counters an entry.
#[tactic(auto, using(history::proofs::Firsts::first_on, history::proofs::Firsts::first_there, crate::proofs::Numbering::order_next), unfolding(history::specs::Orders::first))]
pub(crate) fn earliest_countering(orders: &[Order], incoming: &Entry) -> Option<u64>
    ensures value { unwrap_or result 0 ≡ first (meets_at orders.now incoming.now) (length orders.now) }
    ensures known { IfSome result (λ number. outside (length orders.now) number ≡ false) }
{
    // A loop with an index is asked for here: docs/DECISIONS.md, "Forms".
    for i in 0..orders.len() {
        if orders[i].meets(incoming) {
            return Some(i as u64 + 1);
        }
    }
    None
}

/// How many orders lapse by the minute `to`.
#[tactic(auto, using(crate::proofs::Numbering::many_due))]
pub(crate) fn count_due(orders: &[Order], to: u64) -> u64
    ensures { result ≡ how_many (due_at orders.now to) (length orders.now) }
{
    orders.iter().filter(|order| order.is_due(to)).count() as u64
}

/// Lapses the orders that are due by the minute `to`.
pub(crate) fn lapse_due(orders: &mut [Order], to: u64)
    ensures { orders.new ≡ map (clocked to) orders.old }
{
    for order in orders.iter_mut() {
        order.clock(to);
    }
}
