// The 32 cards: a suit and a place each.
ghost use Rattle.std.specs.Prelude.{◌≡◌, ◌/◌, ◌%◌, ◌<◌, ◌≤◌, map, MatchOption, MatchResult};
ghost use Rattle.cards.specs.declared.refusals.Refusal.TheVariants.{NoSuchCard};
ghost use Rattle.std.specs.List.{range_with_len};
ghost use Rattle.cards.specs.Deck.{suit_number, place_number, card_number, card_at, eyes_of};

use super::refusals::Refusal;
use super::units::Eyes;

// The suits from the lowest to the highest.
#[derive(Clone, Copy, Debug, PartialEq, Eq, Drop)]
pub enum Suit {
    Diamonds,
    Hearts,
    Spades,
    Clubs,
}

// The places of a suit: what stands on a card beside its suit.
#[derive(Clone, Copy, Debug, PartialEq, Eq, Drop)]
pub enum Place {
    Seven,
    Eight,
    Nine,
    Queen,
    King,
    Ten,
    Ace,
    Jack,
}

// One of the 32 cards.
#[derive(Clone, Copy, Debug, PartialEq, Eq, Drop)]
pub struct Card {
    pub suit: Suit,
    pub place: Place,
}

// The card of a suit and a place, so that the table below has one card a line.
macro_rules! card {
    ($suit:ident, $place:ident) => {
        Card {
            suit: Suit::$suit,
            place: Place::$place,
        }
    };
}

// All cards in the order of their numbers.
const DECK: [Card; 32] = [
    card!(Diamonds, Seven),
    card!(Diamonds, Eight),
    card!(Diamonds, Nine),
    card!(Diamonds, Queen),
    card!(Diamonds, King),
    card!(Diamonds, Ten),
    card!(Diamonds, Ace),
    card!(Diamonds, Jack),
    card!(Hearts, Seven),
    card!(Hearts, Eight),
    card!(Hearts, Nine),
    card!(Hearts, Queen),
    card!(Hearts, King),
    card!(Hearts, Ten),
    card!(Hearts, Ace),
    card!(Hearts, Jack),
    card!(Spades, Seven),
    card!(Spades, Eight),
    card!(Spades, Nine),
    card!(Spades, Queen),
    card!(Spades, King),
    card!(Spades, Ten),
    card!(Spades, Ace),
    card!(Spades, Jack),
    card!(Clubs, Seven),
    card!(Clubs, Eight),
    card!(Clubs, Nine),
    card!(Clubs, Queen),
    card!(Clubs, King),
    card!(Clubs, Ten),
    card!(Clubs, Ace),
    card!(Clubs, Jack),
];

impl Card {
    // All cards in the order of their numbers.
    pub fn deck() -> [Card; 32]
        ensures { result ≡ map card_at (range_with_len 0 32) }
    {
        DECK
    }

    // What the card counts in a trick.
    pub fn eyes(self) -> Eyes
        ensures { result.0 ≡ eyes_of self }
    {
        Eyes(match self.place {
            Place::Seven | Place::Eight | Place::Nine => 0,
            Place::Queen => 3,
            Place::King => 4,
            Place::Ten => 10,
            Place::Ace => 11,
            Place::Jack => 2,
        })
    }
}

// Suits, places and cards convert alike, and so do seats, games and levels. Each has its own impl,
// since none may be written by a macro.
impl From<Suit> for u8 {
    ghost from_gives = { λ suit number. number ≡ suit_number suit };

    // The suit's number, from 0 for diamonds.
    fn from(suit: Suit) -> u8 {
        suit as u8
    }
}

impl TryFrom<u8> for Suit {
    type Error = Refusal;

    ghost try_from_gives = { λ number result. MatchResult result (λ suit. suit_number suit ≡ number) (λ refusal. (refusal ≡ NoSuchCard) × (4 ≤ number)) };

    // The suit of this number, if there is one.
    fn try_from(number: u8) -> Result<Suit, Refusal> {
        match number {
            0 => Ok(Suit::Diamonds),
            1 => Ok(Suit::Hearts),
            2 => Ok(Suit::Spades),
            3 => Ok(Suit::Clubs),
            _ => Err(Refusal::NoSuchCard),
        }
    }
}

impl From<Place> for u8 {
    ghost from_gives = { λ place number. number ≡ place_number place };

    // The place's number, from 0 for the seven.
    fn from(place: Place) -> u8 {
        place as u8
    }
}

impl TryFrom<u8> for Place {
    type Error = Refusal;

    ghost try_from_gives = { λ number result. MatchResult result (λ place. place_number place ≡ number) (λ refusal. (refusal ≡ NoSuchCard) × (8 ≤ number)) };

    // The place of this number, if there is one.
    fn try_from(number: u8) -> Result<Place, Refusal> {
        match number {
            0 => Ok(Place::Seven),
            1 => Ok(Place::Eight),
            2 => Ok(Place::Nine),
            3 => Ok(Place::Queen),
            4 => Ok(Place::King),
            5 => Ok(Place::Ten),
            6 => Ok(Place::Ace),
            7 => Ok(Place::Jack),
            _ => Err(Refusal::NoSuchCard),
        }
    }
}

impl From<Card> for u8 {
    ghost from_gives = { λ card number. number ≡ card_number card };

    // The card's number: 8 times its suit's and its place's.
    fn from(card: Card) -> u8 {
        8 * u8::from(card.suit) + u8::from(card.place)
    }
}

impl TryFrom<u8> for Card {
    type Error = Refusal;

    ghost try_from_gives = { λ number result. MatchResult result (λ card. card_number card ≡ number) (λ refusal. (refusal ≡ NoSuchCard) × (32 ≤ number)) };

    // The card of this number, if there is one.
    fn try_from(number: u8) -> Result<Card, Refusal> {
        let suit = Suit::try_from(number / 8)?;
        let place = Place::try_from(number % 8)?;
        Ok(Card { suit, place })
    }
}
