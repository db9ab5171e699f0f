// Serving the led class.
ghost use Rattle.std.specs.Prelude.{◌≡◌};
ghost use Rattle.cards.specs.Deck.{card_number};
ghost use Rattle.rules.specs.Board.{any_of_class};
ghost use Rattle.rules.specs.Piles.{holding, marked};
ghost use Rattle.rules.specs.Serving.{class_to_serve, is_of_class};

use super::deals::Trick;
use super::piles::Hand;
use cards::deck::Card;
use kinds::kind::Kind;

// Classes are numbers here, as they are in a kind's meaning: see `Kind`.
impl<'a> Hand<'a> {
    // Whether the seat holds a card of a class.
    pub fn holds_class<K: Kind>(self, kind: &K, class: u8) -> bool
        ensures { result ≡ any_of_class (K.Kind.meaning kind.now) class (marked (holding self.entry.seat self.entry.piles.now)) }
    {
        let deck = Card::deck();
        let Hand { piles, seat } = self;
        let mut cards = piles.iter().zip(&deck);
        cards.any(|(pile, card)| pile.is_held(seat) && kind.class(*card) == class)
    }

    // The class that the seat has to serve: the led card's, where it holds a card of it.
    pub fn class_to_serve<K: Kind>(self, kind: &K, trick: Trick) -> Option<u8>
        ensures { result ≡ class_to_serve (K.Kind.meaning kind.now) (holding self.entry.seat self.entry.piles.now) trick }
    {
        let (Trick::One(led) | Trick::Two(led, _)) = trick else {
            return None;
        };
        let class = kind.class(led);
        self.holds_class(kind, class).then_some(class)
    }
}

// Whether a card is of the class to serve, if there is one. The class is a number, as above.
pub fn is_of_class<K: Kind>(kind: &K, class: Option<u8>, card: Card) -> bool
    ensures { result ≡ is_of_class (K.Kind.meaning kind.now) class (card_number card) }
{
    class.is_none_or(|class| kind.class(card) == class)
}
