// The games of the order: four suits, grand and null.
ghost use Rattle.kinds.specs.Games.{suit_meaning, grand_meaning, null_meaning, plain_rank as plain_rank_of, null_rank as null_rank_in};
ghost use Rattle.std.specs.Prelude.{◌≡◌};
ghost use Rattle.kinds.specs.GameLaws.{suit_apart, suit_small, grand_apart, grand_small, null_apart, null_small};

use super::kind::Kind;
use cards::deck::{Card, Place, Suit};

// Trumps are the jacks and the cards of one suit.
#[derive(Clone, Copy, Debug, PartialEq, Eq, Drop)]
pub struct SuitGame {
    pub trump: Suit,
}

// Only the jacks are trump.
#[derive(Clone, Copy, Debug, PartialEq, Eq, Drop)]
pub struct Grand;

// There is no trump, and a trick of the declarer ends it.
#[derive(Clone, Copy, Debug, PartialEq, Eq, Drop)]
pub struct Null;

// The rank in a suit from which the jack is taken: ace, ten, king, queen, nine, eight, seven.
// A jack is never asked about. A rank is a number, as in `Kind`.
fn plain_rank(place: Place) -> u8
    ensures { result ≡ plain_rank_of place }
{
    match place {
        Place::Seven | Place::Jack => 0,
        Place::Eight => 1,
        Place::Nine => 2,
        Place::Queen => 3,
        Place::King => 4,
        Place::Ten => 5,
        Place::Ace => 6,
    }
}

// The rank in null: ace, king, queen, jack, ten, nine, eight, seven. A number, as in `Kind`.
fn null_rank(place: Place) -> u8
    ensures { result ≡ null_rank_in place }
{
    match place {
        Place::Seven => 0,
        Place::Eight => 1,
        Place::Nine => 2,
        Place::Ten => 3,
        Place::Jack => 4,
        Place::Queen => 5,
        Place::King => 6,
        Place::Ace => 7,
    }
}

impl Kind for SuitGame {
    ghost meaning = { λ game. suit_meaning game.trump };

    ghost apart = { λ game. suit_apart game.trump };

    ghost small = { λ game. suit_small game.trump };

    fn class(&self, card: Card) -> u8 {
        if card.place == Place::Jack || card.suit == self.trump {
            4
        } else {
            u8::from(card.suit)
        }
    }

    fn rank(&self, card: Card) -> u8 {
        if card.place == Place::Jack {
            7 + u8::from(card.suit)
        } else {
            plain_rank(card.place)
        }
    }

    fn ends(&self) -> bool {
        false
    }
}

impl Kind for Grand {
    ghost meaning = { λ _. grand_meaning };

    ghost apart = { λ _. grand_apart };

    ghost small = { λ _. grand_small };

    fn class(&self, card: Card) -> u8 {
        if card.place == Place::Jack {
            4
        } else {
            u8::from(card.suit)
        }
    }

    fn rank(&self, card: Card) -> u8 {
        if card.place == Place::Jack {
            u8::from(card.suit)
        } else {
            plain_rank(card.place)
        }
    }

    fn ends(&self) -> bool {
        false
    }
}

impl Kind for Null {
    ghost meaning = { λ _. null_meaning };

    ghost apart = { λ _. null_apart };

    ghost small = { λ _. null_small };

    fn class(&self, card: Card) -> u8 {
        u8::from(card.suit)
    }

    fn rank(&self, card: Card) -> u8 {
        null_rank(card.place)
    }

    fn ends(&self) -> bool {
        true
    }
}
