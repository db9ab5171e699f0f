// The first of several things, under any order.
ghost use Rattle.std.specs.Prelude.{◌≡◌, length, MatchOption};
ghost use Rattle.cards.specs.First.{IsFirst};

use super::order::Order;

// Where the earliest item stands that none is ahead of, or none where there are no items.
pub fn first<O: Order>(order: &O, items: &[O::Item]) -> Option<usize>
    ensures { MatchOption result (length items.now ≡ 0) (λ i. IsFirst (O.Order.ahead order.now) items.now i) }
{
    if items.is_empty() {
        return None;
    }
    let mut best = 0;
    // From the second on, by index: an iterator over all would compare the first with itself, and
    // the proof over one that skips the first is longer.
    for i in 1..items.len() {
        if order.ahead(&items[i], &items[best]) {
            best = i;
        }
    }
    Some(best)
}
