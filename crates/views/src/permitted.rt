// The cards that a seat may play now.
ghost use Rattle.std.specs.Prelude.{◌≡◌, ◌&&◌};
ghost use Rattle.cards.specs.Seats.{seat_at};
ghost use Rattle.rules.specs.Moments.{is_at};
ghost use Rattle.rules.specs.Permitted.{permitted_by};
ghost use Rattle.rules.specs.Piles.{is_seat, holding};
ghost use Rattle.views.specs.Permitted.{playable_of};

use cards::deck::Card;
use cards::seats::Seat;
use kinds::kind::Kind;
use rules::deals::{Common, Deal, Pile};
use rules::moments::Moment;
use rules::piles::Hand;
use rules::serving::is_of_class;

// Whether a seat is to play a card.
fn is_to_play(common: &Common, seat: Seat) -> bool
    ensures { result ≡ (is_at 6 common.now.moment && is_seat seat common.now.turn) }
{
    common.moment == Moment::Playing && seat == common.turn
}

// The cards that a seat holds and that are of the class to serve, as bits. Classes are numbers here,
// as they are in a kind's meaning: see `Kind`. The piles stand alone: the check does not know that
// those in a `Hand` are 32.
fn playable<K: Kind>(kind: &K, piles: &[Pile; 32], seat: Seat, class: Option<u8>) -> u32
    ensures { result ≡ playable_of (K.Kind.meaning kind.now) (holding seat piles.now) class }
{
    let deck = Card::deck();
    let mut bits = 0;
    for (number, pile) in piles.iter().enumerate() {
        if pile.is_held(seat) && is_of_class(kind, class, deck[number]) {
            bits |= 1 << number;
        }
    }
    bits
}

// The cards that a seat may play, as bits by the cards' numbers. The seat is a number, for any
// number may ask, and is answered.
pub fn permitted<K: Kind>(deal: &Deal, kind: &K, seat: u8) -> u32
    ensures { result ≡ permitted_by (K.Kind.meaning kind.now) deal.now (seat_at seat) }
{
    let Ok(seat) = Seat::try_from(seat) else {
        return 0;
    };
    if !is_to_play(&deal.common, seat) {
        return 0;
    }
    let hand = Hand {
        piles: &deal.piles,
        seat,
    };
    let class = hand.class_to_serve(kind, deal.common.board.trick);
    playable(kind, &deal.piles, seat, class)
}
