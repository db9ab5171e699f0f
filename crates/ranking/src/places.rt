// The standing of the places of a list.
ghost use Rattle.std.specs.Prelude.{◌≡◌};
ghost use Rattle.cards.specs.First.{IsFirst};
ghost use Rattle.series.specs.Rows.{places_number};
ghost use Rattle.ranking.specs.Reports.{entry_of, entries_of};
ghost use Rattle.ranking.specs.Standings.{is_ahead, rank_answer, EarliestOfRankOne};

use super::standings::{Entry, first_entry, rank};
use arrayvec::ArrayVec;
use cards::refusals::Refusal;
use series::lists::ClosedList;
use series::totals::Totals;

impl From<Totals> for Entry {
    ghost from_gives = { λ totals entry. entry ≡ entry_of totals };

    // What totals are ranked by.
    fn from(totals: Totals) -> Entry {
        Entry {
            rating: totals.rating,
            won: totals.won,
            lost: totals.lost,
        }
    }
}

// The entries of all places of a list.
fn entries(list: &ClosedList) -> ArrayVec<Entry, 4>
    ensures { result.items ≡ entries_of (places_number list.now.sheet.places) list.now.sheet.rows.items }
{
    let mut entries = ArrayVec::new();
    // A range over the places; nothing is indexed.
    for place in 0..u8::from(list.places()) {
        entries.push(Entry::from(list.totals(place).unwrap()));
    }
    entries
}

// The rank of a place of a list.
pub fn rank_of(list: &ClosedList, place: u8) -> Result<usize, Refusal>
    ensures { result ≡ rank_answer (entries_of (places_number list.now.sheet.places) list.now.sheet.rows.items) place }
{
    rank(entries(list).as_slice(), place as usize)
}

// The place of a list that is first.
pub fn first_place(list: &ClosedList) -> u8
    ensures first { IsFirst is_ahead (entries_of (places_number list.now.sheet.places) list.now.sheet.rows.items) result }
    ensures rank { EarliestOfRankOne (entries_of (places_number list.now.sheet.places) list.now.sheet.rows.items) result }
{
    first_entry(entries(list).as_slice()).unwrap() as u8
}
