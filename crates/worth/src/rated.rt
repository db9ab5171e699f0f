// Kinds that can also say what their game is worth.
ghost use Rattle.std.specs.Prelude.{◌≡◌, ℕ, ◌<◌, ◌≤◌, true, length, MatchOption, slice_index_or};
ghost use Rattle.cards.specs.declared.deck.Card.{Card};
ghost use Rattle.cards.specs.Units.{is_game_value};
ghost use Rattle.worth.specs.declared.finished.Finished.{Finished};
ghost use Rattle.worth.specs.Rated.{Worth};

use super::finished::Finished;
use cards::deck::Card;
use cards::units::GamePoints;
use kinds::kind::Kind;

// A kind with the run of trumps that tops are counted on, from the club jack down, and with
// what its game counts.
pub trait RatedKind: Kind {
    // The length of the longest run of tops.
    const RUN: usize;

    ghost rated: { Self → Worth };

    fn run_length(&self) -> usize
        ensures { result ≡ length (rated self.now).run };

    // The trump at this place of the run, from the top.
    fn top(&self, i: usize) -> Option<Card>
        ensures { MatchOption result (length (rated self.now).run ≤ i) (λ card. (i < length (rated self.now).run) × ((d : Card) → slice_index_or (rated self.now).run i d ≡ card)) };

    // What the finished game counts with so many tops.
    fn worth(&self, tops: u8, game: &Finished) -> GamePoints
        ensures { result.0 ≡ (rated self.now).counts tops game.now };

    // There are at most eleven trumps.
    ghost short: { (kind : Self) → length (rated kind).run ≤ 11 };

    // A game counts from −540 to 264, and never 0.
    ghost bounded: { (kind : Self) (tops : ℕ) (game : Finished) → tops ≤ length (rated kind).run → is_game_value ((rated kind).counts tops game) ≡ true };
}
