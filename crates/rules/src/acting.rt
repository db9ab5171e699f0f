// The seven acting calls.
ghost use Rattle.std.specs.Prelude.{◌≡◌, true};
ghost use Rattle.cards.specs.Refusals.{answered};
ghost use Rattle.cards.specs.Seats.{seat_at};
ghost use Rattle.kinds.specs.Meanings.{Meaning};
ghost use Rattle.cards.specs.Deck.{card_number};
ghost use Rattle.worth.specs.Announced.{game_number};
ghost use Rattle.worth.specs.Levels.{level_number};
ghost use Rattle.rules.specs.declared.calls.Call.TheVariants.{Take, Put, Announce};
ghost use Rattle.rules.specs.Acts.{call_of};
ghost use Rattle.rules.specs.Moments.{in_row};
ghost use Rattle.rules.specs.Refusing.{refusal_by};
ghost use Rattle.rules.specs.Steps.{step, after_call, Few};

use super::announcing::twelve_cards;
use super::calls::{Act, Call};
use super::deals::{Deal, Pile};
use super::moments::Moment;
use super::piles::place_of;
use cards::deck::Card;
use cards::refusals::Refusal;
use cards::seats::Seat;
use kinds::kind::Kind;
use worth::announced::Game;
use worth::levels::Level;

impl Deal {
    // The declarer takes the skat.
    fn take(&mut self, seat: Seat)
        ensures { (m : Meaning) → self.new ≡ step m self.old seat Take }
    {
        for pile in self.piles.iter_mut() {
            *pile = pile.lifted(seat);
        }
        self.common = self.common.takes_skat(seat, Moment::Putting);
    }

    // The declarer puts two cards where the skat lay.
    #[tactic(auto, unfolding(crate::specs::Steps::next, crate::specs::Steps::moved))]
    fn put(&mut self, seat: Seat, a: Card, b: Card)
        ensures { (m : Meaning) → self.new ≡ step m self.old seat (Put (card_number a) (card_number b)) }
    {
        self.piles[place_of(a)] = Pile::InSkat;
        self.piles[place_of(b)] = Pile::InSkat;
        self.common = self.common.takes_skat(seat, Moment::Announcing);
    }

    // The declarer announces a game, and the twelve cards are copied.
    #[tactic(auto, unfolding(crate::specs::Steps::next, crate::specs::Steps::moved))]
    fn announce(&mut self, seat: Seat, game: Game, level: Level)
        ensures { (m : Meaning) → self.new ≡ step m self.old seat (Announce (game_number game) (level_number level)) }
    {
        self.twelve = Some(twelve_cards(&self.piles, seat));
        self.common = self.common.announces(seat, game, level);
    }

    // Moves the deal by a call that is refused for nothing. `Few` is no ghost field: the record of a
    // deal is plain, and the law builds it field by field, so that each would carry a proof.
    #[tactic(auto, unfolding(crate::specs::Steps::next, crate::specs::Steps::moved))]
    fn apply<K: Kind>(&mut self, kind: &K, seat: Seat, act: Act)
        requires row { in_row self.old.common.moment (call_of act) ≡ true }
        requires few { Few self.old }
        ensures { self.new ≡ step (K.Kind.meaning kind.now) self.old seat (call_of act) }
    {
        match (self.common.moment, act) {
            (Moment::Bidding, Act::Bid(bid)) => self.common = self.common.hears(bid),
            (Moment::Hearing, Act::Hold) => self.common = self.common.bids_next(self.common.pair),
            (Moment::Alone, Act::Hold) => self.common = self.common.declares(Seat::Forehand, 18),
            (Moment::Bidding, Act::Pass) => self.common = self.common.bidder_passes(),
            (Moment::Hearing, Act::Pass) => self.common = self.common.hearer_passes(),
            (Moment::Alone, Act::Pass) => self.common = self.common.passed_in(),
            (Moment::Deciding, Act::Take) => self.take(seat),
            (Moment::Putting, Act::Put(a, b)) => self.put(seat, a, b),
            (Moment::Deciding, Act::Announce(game, level)) => self.announce(seat, game, level),
            (Moment::Announcing, Act::Announce(game, level)) => self.announce(seat, game, level),
            (Moment::Playing, Act::Play(card)) => self.play(kind, seat, card),
            // Nothing else stands in its moment's row.
            _ => {}
        }
    }

    // Answers an acting call by the seat of a number, for any number may call: a refusal leaves the
    // deal as it is. `Few` is
    // asked and kept here for the same reason as of `apply`.
    pub fn act<K: Kind>(&mut self, kind: &K, seat: u8, call: Call) -> Result<(), Refusal>
        requires few { Few self.old }
        ensures answer { result ≡ answered (refusal_by (K.Kind.meaning kind.now) self.old (seat_at seat) call) tt }
        ensures deal { self.new ≡ after_call (K.Kind.meaning kind.now) self.old (seat_at seat) call }
        ensures few { Few self.new }
    {
        let seat = Seat::try_from(seat)?;
        let act = self.admit(kind, seat, call)?;
        self.apply(kind, seat, act);
        Ok(())
    }
}
