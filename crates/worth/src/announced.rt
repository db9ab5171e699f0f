// The games that can be announced, each the kind that it names.
ghost use Rattle.std.specs.Prelude.{◌≡◌, ℕ, ◌≤◌, true, MatchResult};
ghost use Rattle.cards.specs.Units.{is_game_value};
ghost use Rattle.cards.specs.declared.refusals.Refusal.TheVariants.{NoSuchGame};
ghost use Rattle.worth.specs.Announced.{game_number, game_meaning, game_rated, game_run, game_counts};
ghost use Rattle.worth.specs.Examples.{AllHold, examples as worked_examples};
ghost use Rattle.worth.specs.GameLaws.{game_apart, game_small, game_short, game_in};
ghost use Rattle.worth.specs.Tops.{tops_of};
ghost use Rattle.worth.specs.WorthLaws.{WorthLaws};

use super::finished::Finished;
use super::rated::RatedKind;
use super::tops::result;
use cards::deck::{Card, Suit};
use cards::refusals::Refusal;
use cards::units::GamePoints;
use kinds::games::{Grand, Null, SuitGame};
use kinds::kind::Kind;

#[derive(Clone, Copy, Debug, PartialEq, Eq, Drop)]
pub enum Game {
    Suit(SuitGame),
    Grand(Grand),
    Null(Null),
}

impl From<Game> for u8 {
    ghost from_gives = { λ game number. number ≡ game_number game };

    // The game's number: 0 to 3 for the suits, 4 for grand, 5 for null.
    fn from(game: Game) -> u8 {
        match game {
            Game::Suit(game) => u8::from(game.trump),
            Game::Grand(_) => 4,
            Game::Null(_) => 5,
        }
    }
}

impl TryFrom<u8> for Game {
    type Error = Refusal;

    ghost try_from_gives = { λ number result. MatchResult result (λ game. game_number game ≡ number) (λ refusal. (refusal ≡ NoSuchGame) × (6 ≤ number)) };

    // The game of this number, if there is one.
    fn try_from(number: u8) -> Result<Game, Refusal> {
        match number {
            4 => Ok(Game::Grand(Grand)),
            5 => Ok(Game::Null(Null)),
            _ => {
                let trump = Suit::try_from(number).map_err(|_| Refusal::NoSuchGame)?;
                Ok(Game::Suit(SuitGame { trump }))
            }
        }
    }
}

// Each method asks the game that it is. They differ in what they call and not in a type, so one
// function for them would be no plainer.
impl Kind for Game {
    ghost meaning = { game_meaning };

    ghost apart = { game_apart };

    ghost small = { game_small };

    fn class(&self, card: Card) -> u8 {
        match self {
            Game::Suit(game) => game.class(card),
            Game::Grand(game) => game.class(card),
            Game::Null(game) => game.class(card),
        }
    }

    fn rank(&self, card: Card) -> u8 {
        match self {
            Game::Suit(game) => game.rank(card),
            Game::Grand(game) => game.rank(card),
            Game::Null(game) => game.rank(card),
        }
    }

    fn ends(&self) -> bool {
        match self {
            Game::Suit(game) => game.ends(),
            Game::Grand(game) => game.ends(),
            Game::Null(game) => game.ends(),
        }
    }
}

// As above.
impl RatedKind for Game {
    const RUN: usize = 11;

    ghost rated = { game_rated };

    ghost short = { game_short };

    ghost bounded = { game_in };

    fn run_length(&self) -> usize {
        match self {
            Game::Suit(game) => game.run_length(),
            Game::Grand(game) => game.run_length(),
            Game::Null(game) => game.run_length(),
        }
    }

    fn top(&self, i: usize) -> Option<Card> {
        match self {
            Game::Suit(game) => game.top(i),
            Game::Grand(game) => game.top(i),
            Game::Null(game) => game.top(i),
        }
    }

    fn worth(&self, tops: u8, game: &Finished) -> GamePoints {
        match self {
            Game::Suit(kind) => kind.worth(tops, game),
            Game::Grand(kind) => kind.worth(tops, game),
            Game::Null(kind) => kind.worth(tops, game),
        }
    }
}

impl Game {
    // What the finished game counts, by the twelve cards that the declarer was dealt or had in
    // the skat.
    pub fn result(self, twelve: &[Card; 12], finished: &Finished) -> GamePoints
        ensures value { result.0 ≡ game_counts self (tops_of (game_run self) twelve.now) finished.now }
        ensures range { is_game_value result.0 ≡ true }
        ensures laws { (tops : ℕ) → WorthLaws self tops finished.now }
        ensures examples { AllHold worked_examples }
    {
        result(&self, twelve, finished)
    }
}
