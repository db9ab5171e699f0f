// What an acting call is refused for, and what it comes to otherwise.
ghost use Rattle.std.specs.Prelude.{Bool, List};
ghost use Rattle.kinds.specs.Meanings.{Meaning};
ghost use Rattle.rules.specs.declared.calls.Call.TheVariants.{Put, Play};
ghost use Rattle.rules.specs.Acts.{Admits, AdmitsOwn};
ghost use Rattle.rules.specs.Piles.{holding};
ghost use Rattle.rules.specs.Refusing.{refusal_of};

use super::calls::{Act, Call};
use super::deals::{Common, Deal};
use super::piles::Hand;
use super::serving::is_of_class;
use cards::deck::Card;
use cards::refusals::Refusal;
use cards::seats::Seat;
use kinds::kind::Kind;
use worth::bids::Bid;

impl Common {
    // The bid of this value, if it can be made. The value is what the seat named; from here on it
    // is a bid.
    fn admit_bid(self, value: u16) -> Result<Act, Refusal>
        ensures { (m : Meaning) (own : List Bool) → AdmitsOwn m self own (Call.Bid value) result }
    {
        let bid = Bid::try_from(value)?;
        if value <= self.bid {
            return Err(Refusal::BidTooLow);
        }
        Ok(Act::Bid(bid))
    }
}

impl Deal {
    // The cards of these numbers, if a seat can put them. The numbers are what the seat named; from
    // here on they are cards.
    fn admit_put(&self, seat: Seat, a: u8, b: u8) -> Result<Act, Refusal>
        ensures { (m : Meaning) → AdmitsOwn m self.now.common (holding seat self.now.piles) (Put a b) result }
    {
        let a = Card::try_from(a)?;
        let b = Card::try_from(b)?;
        if a == b {
            return Err(Refusal::SameCardTwice);
        }
        let hand = Hand {
            piles: &self.piles,
            seat,
        };
        if !(hand.holds(a) && hand.holds(b)) {
            return Err(Refusal::CardNotHeld);
        }
        Ok(Act::Put(a, b))
    }

    // The card of this number, if a seat can play it. The number is what the seat named; from here
    // on it is a card.
    fn admit_play<K: Kind>(&self, kind: &K, seat: Seat, card: u8) -> Result<Act, Refusal>
        ensures { AdmitsOwn (K.Kind.meaning kind.now) self.now.common (holding seat self.now.piles) (Play card) result }
    {
        let card = Card::try_from(card)?;
        let hand = Hand {
            piles: &self.piles,
            seat,
        };
        if !hand.holds(card) {
            return Err(Refusal::CardNotHeld);
        }
        let class = hand.class_to_serve(kind, self.common.board.trick);
        if !is_of_class(kind, class, card) {
            return Err(Refusal::LedClassHeld);
        }
        Ok(Act::Play(card))
    }

    // What a call comes to in its moment, if nothing is wrong with it.
    fn admit_own<K: Kind>(&self, kind: &K, seat: Seat, call: Call) -> Result<Act, Refusal>
        ensures { AdmitsOwn (K.Kind.meaning kind.now) self.now.common (holding seat self.now.piles) call result }
    {
        match call {
            Call::Bid(value) => self.common.admit_bid(value),
            Call::Hold => Ok(Act::Hold),
            Call::Pass => Ok(Act::Pass),
            Call::Take => Ok(Act::Take),
            Call::Put(a, b) => self.admit_put(seat, a, b),
            Call::Announce(game, level) => self.common.admit_announce(game, level),
            Call::Play(card) => self.admit_play(kind, seat, card),
        }
    }

    // What a seat's call comes to, or what it is refused for.
    #[tactic(auto, unfolding(crate::specs::Refusing::refusal_of))]
    pub fn admit<K: Kind>(&self, kind: &K, seat: Seat, call: Call) -> Result<Act, Refusal>
        ensures { Admits call (refusal_of (K.Kind.meaning kind.now) self.now.common (holding seat self.now.piles) seat call) result }
    {
        if self.common.moment.is_settled() {
            return Err(Refusal::DealIsSettled);
        }
        if seat != self.common.turn {
            return Err(Refusal::NotThisSeatsTurn);
        }
        if !self.common.moment.admits(call) {
            return Err(Refusal::NotInThisMoment);
        }
        self.admit_own(kind, seat, call)
    }
}
