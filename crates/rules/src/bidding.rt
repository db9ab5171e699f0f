// Who bids to whom, and what every seat sees after each call of the auction.
ghost use Rattle.std.specs.Prelude.{◌≡◌};
ghost use Rattle.rules.specs.Bidding.{bidder as bidder_of, hearer as hearer_of, fresh_board};
ghost use Rattle.rules.specs.Bidding.{waits, bids_next, hears as hears_at, declares as declares_at, leaves_forehand, passed_in, bidder_passes, hearer_passes};

use super::deals::{Board, Common, Contract, Pair, Taken, Trick};
use super::moments::Moment;
use cards::seats::Seat;
use worth::bids::Bid;

impl Pair {
    // Who of the pair bids.
    fn bidder(self) -> Seat
        ensures { result ≡ bidder_of self }
    {
        match self {
            Pair::MiddlehandToForehand => Seat::Middlehand,
            Pair::RearhandToForehand | Pair::RearhandToMiddlehand => Seat::Rearhand,
        }
    }

    // Who of the pair answers.
    fn hearer(self) -> Seat
        ensures { result ≡ hearer_of self }
    {
        match self {
            Pair::MiddlehandToForehand | Pair::RearhandToForehand => Seat::Forehand,
            Pair::RearhandToMiddlehand => Seat::Middlehand,
        }
    }
}

impl Board {
    // No card is played yet, and forehand is to lead.
    pub(super) fn fresh() -> Board
        ensures { result ≡ fresh_board }
    {
        Board {
            taken: Taken {
                declarer: 0,
                defenders: 0,
            },
            leader: Seat::Forehand,
            trick: Trick::Empty,
        }
    }
}

impl Common {
    // The deal waits for this seat in this moment, before any card is played.
    pub(super) fn waits(self, moment: Moment, turn: Seat, contract: Contract) -> Common
        ensures { result ≡ waits self moment turn contract }
    {
        Common {
            moment,
            turn,
            contract,
            board: Board::fresh(),
            ..self
        }
    }

    // This pair bids, from the highest bid so far.
    pub(super) fn bids_next(self, pair: Pair) -> Common
        ensures { result ≡ bids_next self pair }
    {
        Common {
            pair,
            ..self.waits(Moment::Bidding, pair.bidder(), Contract::Undecided)
        }
    }

    // The hearer is to answer a bid.
    pub(super) fn hears(self, bid: Bid) -> Common
        ensures { result ≡ hears_at self bid.value }
    {
        Common {
            bid: u16::from(bid),
            ..self.waits(Moment::Hearing, self.pair.hearer(), Contract::Undecided)
        }
    }

    // A seat has won the auction at this bid, a number as in `Common`.
    pub(super) fn declares(self, seat: Seat, value: u16) -> Common
        ensures { result ≡ declares_at self seat value }
    {
        Common {
            bid: value,
            ..self.waits(Moment::Deciding, seat, Contract::Won(seat))
        }
    }

    // Nothing was bid, and forehand alone is left.
    fn leaves_forehand(self) -> Common
        ensures { result ≡ leaves_forehand self }
    {
        Common {
            bid: 0,
            ..self.waits(Moment::Alone, Seat::Forehand, Contract::Undecided)
        }
    }

    // Nobody wants the deal.
    pub(super) fn passed_in(self) -> Common
        ensures { result ≡ passed_in self }
    {
        Common {
            bid: 0,
            ..self.waits(Moment::Settled, Seat::Forehand, Contract::Undecided)
        }
    }

    // The bidder passes and the hearer is left: to rearhand's bids, or as declarer.
    pub(super) fn bidder_passes(self) -> Common
        ensures { result ≡ bidder_passes self self.pair }
    {
        match self.pair {
            Pair::MiddlehandToForehand => self.bids_next(Pair::RearhandToForehand),
            Pair::RearhandToForehand if self.bid == 0 => self.leaves_forehand(),
            Pair::RearhandToForehand => self.declares(Seat::Forehand, self.bid),
            Pair::RearhandToMiddlehand => self.declares(Seat::Middlehand, self.bid),
        }
    }

    // The hearer passes and the bidder is left: to rearhand's bids, or as declarer.
    pub(super) fn hearer_passes(self) -> Common
        ensures { result ≡ hearer_passes self self.pair }
    {
        match self.pair {
            Pair::MiddlehandToForehand => self.bids_next(Pair::RearhandToMiddlehand),
            Pair::RearhandToForehand | Pair::RearhandToMiddlehand => {
                self.declares(Seat::Rearhand, self.bid)
            }
        }
    }
}
