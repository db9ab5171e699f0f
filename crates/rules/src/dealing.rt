// A deal newly set from a cut pack.
ghost use Rattle.std.specs.Prelude.{◌≡◌};
ghost use Rattle.rules.specs.Dealing.{pile_for, opening as opening_of, start};

use super::deals::{Board, Common, Contract, Deal, Pair, Pile};
use super::moments::Moment;
use cards::dealing::Dealt;
use cards::packs::CutPack;
use cards::seats::Seat;
use std::array;

impl Common {
    // Middlehand first bids to forehand.
    fn opening() -> Common
        ensures { result ≡ opening_of }
    {
        Common {
            moment: Moment::Bidding,
            turn: Seat::Middlehand,
            pair: Pair::MiddlehandToForehand,
            bid: 0,
            contract: Contract::Undecided,
            board: Board::fresh(),
        }
    }
}

impl From<Dealt> for Pile {
    ghost from_gives = { λ dealt pile. pile ≡ pile_for dealt };

    // The pile of a card that was dealt so.
    fn from(dealt: Dealt) -> Pile {
        match dealt {
            Dealt::Hand(seat) => Pile::InHand(seat),
            Dealt::Skat => Pile::InSkat,
        }
    }
}

impl Deal {
    // A deal of this pack, which is spent.
    pub fn set(pack: CutPack) -> Deal
        ensures { result ≡ start pack.cards }
    {
        let dealt = pack.deal();
        Deal {
            common: Common::opening(),
            piles: array::from_fn(|i| Pile::from(dealt[i])),
            twelve: None,
        }
    }
}
