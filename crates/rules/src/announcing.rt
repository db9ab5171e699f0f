// What the declarer does: take the skat or not, and announce a game.
ghost use Rattle.std.specs.Prelude.{◌≡◌, Bool, List, ◌==◌};
ghost use Rattle.kinds.specs.Meanings.{Meaning};
ghost use Rattle.worth.specs.Announced.{game_number};
ghost use Rattle.worth.specs.Levels.{level_number, is_open_level};
ghost use Rattle.rules.specs.declared.calls.Call.TheVariants.{Announce};
ghost use Rattle.rules.specs.Acts.{AdmitsOwn};
ghost use Rattle.rules.specs.Steps.{takes_skat, announces as announces_by, twelve_of};

use super::calls::Act;
use super::deals::{Announcement, Common, Contract, Pile};
use super::moments::Moment;
use cards::deck::{Card, Place, Suit};
use cards::refusals::Refusal;
use cards::seats::Seat;
use worth::announced::Game;
use worth::levels::Level;
use worth::values::null_value;

const LOWEST: Card = Card {
    suit: Suit::Diamonds,
    place: Place::Seven,
};

// Whether a game is null: one pattern and no equality, since the game inside is not read.
fn is_null(game: Game) -> bool
    ensures { result ≡ (game_number game == 5) }
{
    matches!(game, Game::Null(_))
}

// Whether a level is open to null or another game, by hand or not.
fn is_open_level(level: Level, null: bool, hand: bool) -> bool
    ensures { result ≡ is_open_level null hand level }
{
    match level {
        Level::Plain => true,
        Level::Schneider | Level::Schwarz => hand && !null,
        Level::Ouvert => hand || null,
    }
}

impl Common {
    // The declarer has taken the skat.
    pub(super) fn takes_skat(self, seat: Seat, moment: Moment) -> Common
        ensures { result ≡ takes_skat self seat moment }
    {
        self.waits(moment, seat, Contract::SkatTaken(seat))
    }

    // The declarer has announced, by hand where the skat was not taken; forehand leads.
    pub(super) fn announces(self, seat: Seat, game: Game, level: Level) -> Common
        ensures { result ≡ announces_by self seat (game_number game) (level_number level) }
    {
        let contract = Contract::Announced(Announcement {
            declarer: seat,
            game,
            level,
            hand: self.moment.is_deciding(),
        });
        self.waits(Moment::Playing, Seat::Forehand, contract)
    }

    // The game and the level of these numbers, if they can be announced. The numbers are what the
    // seat named; from here on they are a game and a level.
    pub(super) fn admit_announce(self, game: u8, level: u8) -> Result<Act, Refusal>
        ensures { (m : Meaning) (own : List Bool) → AdmitsOwn m self own (Announce game level) result }
    {
        let game = Game::try_from(game)?;
        let level = Level::try_from(level)?;
        let null = is_null(game);
        let hand = self.moment.is_deciding();
        if !is_open_level(level, null, hand) {
            return Err(Refusal::LevelNotOpen);
        }
        if null && null_value(level, hand) < u32::from(self.bid) {
            return Err(Refusal::NullBelowBid);
        }
        Ok(Act::Announce(game, level))
    }
}

// The first twelve cards that a seat holds or that lie in the skat, rising: twelve cards by value,
// as the rules ask. A `Hand` would be taken apart at once.
pub(super) fn twelve_cards(piles: &[Pile; 32], seat: Seat) -> [Card; 12]
    ensures { result ≡ twelve_of seat piles.now }
{
    let deck = Card::deck();
    let cards = piles.iter().zip(&deck);
    let own = cards.filter(|(pile, _)| pile.is_held_or_in_skat(seat));
    let mut twelve = [LOWEST; 12];
    for (place, (_, card)) in own.take(12).enumerate() {
        twelve[place] = *card;
    }
    twelve
}
