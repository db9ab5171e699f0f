// What a pile says of a card, how cards move between piles, and who the declarer is.
ghost use Rattle.std.specs.Prelude.{◌≡◌, ◌<◌, false, slice_index_or};
ghost use Rattle.cards.specs.Deck.{card_number};
ghost use Rattle.rules.specs.Piles.{is_held, is_in_skat, is_held_or_in_skat, holding, pile_in};
ghost use Rattle.rules.specs.Steps.{lifted as lifted_to, gathered as gathered_for};
ghost use Rattle.rules.specs.Board.{declarer_of, is_declarer};

use super::deals::{Contract, Pile};
use cards::deck::Card;
use cards::seats::Seat;

impl Pile {
    // Whether a card here is in this seat's hand.
    pub fn is_held(self, seat: Seat) -> bool
        ensures { result ≡ is_held seat self }
    {
        self == Pile::InHand(seat)
    }

    // Whether a card here is in the skat or put away.
    pub fn is_in_skat(self) -> bool
        ensures { result ≡ is_in_skat self }
    {
        self == Pile::InSkat
    }

    // Whether a card here is in this seat's hand, or in the skat or put away.
    pub fn is_held_or_in_skat(self, seat: Seat) -> bool
        ensures { result ≡ is_held_or_in_skat seat self }
    {
        self.is_held(seat) || self.is_in_skat()
    }

    // Where a card lies once this seat has taken the skat.
    pub(super) fn lifted(self, seat: Seat) -> Pile
        ensures { result ≡ lifted_to seat self }
    {
        match self {
            Pile::InSkat => Pile::InHand(seat),
            _ => self,
        }
    }

    // Where a card lies once a side has taken the trick.
    pub(super) fn gathered(self, by_declarer: bool) -> Pile
        ensures { result ≡ gathered_for by_declarer self }
    {
        match self {
            Pile::InTrick if by_declarer => Pile::WithDeclarer,
            Pile::InTrick => Pile::WithDefenders,
            _ => self,
        }
    }
}

// Where a card stands among the piles, which are listed by the cards' numbers.
pub(super) fn place_of(card: Card) -> usize
    ensures number { result ≡ card_number card }
    ensures within { result < 32 }
{
    u8::from(card) as usize
}

// Where a card lies. The piles stand alone: the check does not know that those in a `Hand` are 32.
fn pile_of(piles: &[Pile; 32], card: Card) -> Pile
    ensures { result ≡ pile_in piles.now card }
{
    piles[place_of(card)]
}

// A seat's cards, told from the piles.
#[derive(Clone, Copy, Drop)]
pub struct Hand<'a> {
    pub piles: &'a [Pile; 32],
    pub seat: Seat,
}

impl<'a> Hand<'a> {
    // Whether the seat holds a card.
    pub fn holds(self, card: Card) -> bool
        ensures { result ≡ slice_index_or (holding self.entry.seat self.entry.piles.now) (card_number card) false }
    {
        pile_of(self.piles, card).is_held(self.seat)
    }
}

impl Contract {
    // The declarer, if there is one.
    pub fn declarer(self) -> Option<Seat>
        ensures { result ≡ declarer_of self }
    {
        match self {
            Contract::Undecided => None,
            Contract::Won(seat) | Contract::SkatTaken(seat) => Some(seat),
            Contract::Announced(announcement) => Some(announcement.declarer),
        }
    }

    // Whether this seat is the declarer.
    pub fn is_declarer(self, seat: Seat) -> bool
        ensures { result ≡ is_declarer self seat }
    {
        self.declarer() == Some(seat)
    }
}
