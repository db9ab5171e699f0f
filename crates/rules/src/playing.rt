// The play: a card laid to the open trick, and a trick that is full.
ghost use Rattle.std.specs.Prelude.{◌≡◌, ◌+◌, ◌<◌};
ghost use Rattle.cards.specs.Deck.{card_number};
ghost use Rattle.cards.specs.Seats.{following};
ghost use Rattle.rules.specs.declared.calls.Call.TheVariants.{Play};
ghost use Rattle.rules.specs.Board.{taker_of};
ghost use Rattle.rules.specs.Steps.{lays as lays_to, settles as settles_at, fills as fills_by, step};

use super::deals::{Board, Common, Deal, Pile, Trick};
use super::moments::Moment;
use super::piles::place_of;
use cards::deck::Card;
use cards::seats::Seat;
use kinds::kind::Kind;
use kinds::tricks::taker;

// The next seat in the order forehand, middlehand, rearhand, forehand.
pub fn seat_after(seat: Seat) -> Seat
    ensures { result ≡ following seat }
{
    match seat {
        Seat::Forehand => Seat::Middlehand,
        Seat::Middlehand => Seat::Rearhand,
        Seat::Rearhand => Seat::Forehand,
    }
}

// Whether the deal is settled after so many tricks: after ten, or after one of the declarer where
// the kind says so.
fn settles<K: Kind>(kind: &K, by_declarer: bool, tricks: u8) -> bool
    ensures { result ≡ settles_at (K.Kind.meaning kind.now) by_declarer tricks }
{
    tricks == 10 || kind.ends() && by_declarer
}

impl Common {
    // A card is laid to the open trick, and the next seat is to play.
    fn lays(self, seat: Seat, leader: Seat, trick: Trick) -> Common
        ensures { result ≡ lays_to self seat leader trick }
    {
        Common {
            moment: Moment::Playing,
            turn: seat_after(seat),
            board: Board {
                taken: self.board.taken,
                leader,
                trick,
            },
            ..self
        }
    }

    // A third card fills the trick: its taker has one trick more and leads next. That there are
    // fewer than ten tricks is asked here and in `play`, since the record of a deal is plain.
    fn fills<K: Kind>(self, kind: &K, taker: Seat, a: Card, b: Card, card: Card) -> Common
        requires { self.board.taken.declarer + self.board.taken.defenders < 10 }
        ensures { result ≡ fills_by (K.Kind.meaning kind.now) self taker a b card }
    {
        let by_declarer = self.contract.is_declarer(taker);
        let mut taken = self.board.taken;
        let over = settles(kind, by_declarer, taken.declarer + taken.defenders + 1);
        if by_declarer {
            taken.declarer += 1;
        } else {
            taken.defenders += 1;
        }
        Common {
            moment: if over {
                Moment::Settled
            } else {
                Moment::Playing
            },
            turn: taker,
            board: Board {
                taken,
                leader: taker,
                trick: Trick::Full(a, b, card),
            },
            ..self
        }
    }
}

// Who takes a trick, its first card led by the leader.
fn taking_seat<K: Kind>(kind: &K, leader: Seat, a: Card, b: Card, c: Card) -> Seat
    ensures { result ≡ taker_of (K.Kind.meaning kind.now) leader a b c }
{
    match taker(kind, [a, b, c]) {
        0 => leader,
        1 => seat_after(leader),
        _ => seat_after(seat_after(leader)),
    }
}

impl Deal {
    // Lays a card that the seat may play; the third of a trick gives it to a side.
    pub(super) fn play<K: Kind>(&mut self, kind: &K, seat: Seat, card: Card)
        requires few { self.old.common.board.taken.declarer + self.old.common.board.taken.defenders < 10 }
        ensures { self.new ≡ step (K.Kind.meaning kind.now) self.old seat (Play (card_number card)) }
    {
        let common = self.common;
        let leader = common.board.leader;
        self.piles[place_of(card)] = Pile::InTrick;
        match common.board.trick {
            Trick::Empty | Trick::Full(_, _, _) => {
                self.common = common.lays(seat, seat, Trick::One(card));
            }
            Trick::One(a) => {
                self.common = common.lays(seat, leader, Trick::Two(a, card));
            }
            Trick::Two(a, b) => {
                let taker = taking_seat(kind, leader, a, b, card);
                let by_declarer = common.contract.is_declarer(taker);
                for pile in self.piles.iter_mut() {
                    *pile = pile.gathered(by_declarer);
                }
                self.common = common.fills(kind, taker, a, b, card);
            }
        }
    }
}
