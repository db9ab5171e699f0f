// The standing of several places: who is ahead of whom, and which rank that gives.
ghost use Rattle.std.specs.Prelude.{◌≡◌, length, MatchOption};
ghost use Rattle.cards.specs.First.{IsFirst};
ghost use Rattle.ranking.specs.Standings.{is_ahead, rank_answer, EarliestOfRankOne};
ghost use Rattle.ranking.specs.Orders.{ahead_irreflexive, ahead_transitive, ahead_weak};

use cards::first::first;
use cards::order::Order;
use cards::refusals::Refusal;
use cards::units::Rating;
use std::cmp::Reverse;

// What a place is ranked by.
#[derive(Clone, Copy, Debug, Default, PartialEq, Eq, Drop)]
pub struct Entry {
    pub rating: Rating,
    pub won: u32,
    pub lost: u32,
}

// Ahead is the higher rating, then more games won, then fewer lost.
#[derive(Clone, Copy, Drop)]
pub struct ByRating;

impl Order for ByRating {
    type Item = Entry;

    ghost ahead = { λ _ a b. is_ahead a b };

    ghost irreflexive = { λ _. ahead_irreflexive };

    ghost transitive = { λ _. ahead_transitive };

    ghost weak = { λ _. ahead_weak };

    fn ahead(&self, a: &Entry, b: &Entry) -> bool {
        (b.rating.0, b.won, Reverse(b.lost)) < (a.rating.0, a.won, Reverse(a.lost))
    }
}

// The rank of an entry: 1 and one more for each entry ahead of it.
pub fn rank(entries: &[Entry], i: usize) -> Result<usize, Refusal>
    ensures { result ≡ rank_answer entries.now i }
{
    let entry = entries.get(i).ok_or(Refusal::NoSuchEntry)?;
    let mut ahead = 0;
    for other in entries {
        ahead += usize::from(ByRating.ahead(other, entry));
    }
    Ok(1 + ahead)
}

// Where the first entry stands: the earliest that none is ahead of.
pub fn first_entry(entries: &[Entry]) -> Option<usize>
    ensures { MatchOption result (length entries.now ≡ 0) (λ i. IsFirst is_ahead entries.now i × EarliestOfRankOne entries.now i) }
{
    first(&ByRating, entries)
}
