// What suit games, grand and null are worth.
ghost use Rattle.worth.specs.Rated.{suit_rated, grand_rated, null_rated};
ghost use Rattle.worth.specs.Bounds.{suit_short, grand_short, null_short, suit_in, grand_in, null_in};

use super::finished::Finished;
use super::rated::RatedKind;
use super::values::{Base, null_worth, trump_worth};
use cards::deck::{Card, Place, Suit};
use cards::units::GamePoints;
use kinds::games::{Grand, Null, SuitGame};

// Each kind answers the length of its own run. It is a method too, since a `Game` is of one of
// three lengths, which no constant of its tells.
impl RatedKind for SuitGame {
    const RUN: usize = 11;

    ghost rated = { λ game. suit_rated game.trump };

    ghost short = { λ kind. suit_short kind.trump };

    ghost bounded = { λ kind tops game few. suit_in tops game kind.trump few };

    fn run_length(&self) -> usize {
        Self::RUN
    }

    fn top(&self, i: usize) -> Option<Card> {
        let (suit, place) = match i {
            0 => (Suit::Clubs, Place::Jack),
            1 => (Suit::Spades, Place::Jack),
            2 => (Suit::Hearts, Place::Jack),
            3 => (Suit::Diamonds, Place::Jack),
            4 => (self.trump, Place::Ace),
            5 => (self.trump, Place::Ten),
            6 => (self.trump, Place::King),
            7 => (self.trump, Place::Queen),
            8 => (self.trump, Place::Nine),
            9 => (self.trump, Place::Eight),
            10 => (self.trump, Place::Seven),
            _ => return None,
        };
        Some(Card { suit, place })
    }

    fn worth(&self, tops: u8, game: &Finished) -> GamePoints {
        trump_worth(Base::from(self.trump), tops, game)
    }
}

impl RatedKind for Grand {
    const RUN: usize = 4;

    ghost rated = { λ _. grand_rated };

    ghost short = { λ _. grand_short };

    ghost bounded = { λ kind tops game few. grand_in tops game few };

    fn run_length(&self) -> usize {
        Self::RUN
    }

    fn top(&self, i: usize) -> Option<Card> {
        let suit = match i {
            0 => Suit::Clubs,
            1 => Suit::Spades,
            2 => Suit::Hearts,
            3 => Suit::Diamonds,
            _ => return None,
        };
        Some(Card {
            suit,
            place: Place::Jack,
        })
    }

    fn worth(&self, tops: u8, game: &Finished) -> GamePoints {
        trump_worth(Base::grand(), tops, game)
    }
}

impl RatedKind for Null {
    const RUN: usize = 0;

    ghost rated = { λ _. null_rated };

    ghost short = { λ _. null_short };

    ghost bounded = { λ kind tops game few. null_in game };

    fn run_length(&self) -> usize {
        Self::RUN
    }

    fn top(&self, _i: usize) -> Option<Card> {
        None
    }

    fn worth(&self, _tops: u8, game: &Finished) -> GamePoints {
        null_worth(game)
    }
}
