// What a finished game counts.
ghost use Rattle.std.specs.Prelude.{◌≡◌, ◌*◌, ◌<◌, ◌≤◌, pos, neg_ℤ};
ghost use Rattle.worth.specs.Bases.{suit_base, grand_base, null_value_at};
ghost use Rattle.worth.specs.Worth.{is_schneider, is_schwarz, steps_at, factor as factor_of, is_reached, times_in, trump_worth, null_worth};

use super::finished::Finished;
use super::levels::Level;
use cards::deck::Suit;
use cards::units::GamePoints;

// What a suit or grand game counts once.
#[derive(Clone, Copy, Drop)]
pub(super) struct Base {
    points: u32,
    ghost low: { 1 ≤ points },
    ghost high: { points ≤ 24 },
}

// What a game counts before it is known to be won or lost.
#[derive(Clone, Copy, Drop)]
struct Value {
    points: u32,
    ghost high: { points ≤ 1573440 },
}

impl From<Suit> for Base {
    ghost from_gives = { λ suit base. base.points ≡ suit_base suit };

    // The base of the game in which this suit is trump.
    fn from(suit: Suit) -> Base {
        let points = match suit {
            Suit::Diamonds => 9,
            Suit::Hearts => 10,
            Suit::Spades => 11,
            Suit::Clubs => 12,
        };
        Base { points }
    }
}

impl Base {
    // The base of grand.
    pub(super) fn grand() -> Base
        ensures { result.points ≡ grand_base }
    {
        Base { points: 24 }
    }

    // The base so many times.
    fn times(self, times: u32) -> Value
        requires { times ≤ 65560 }
        ensures { result.points ≡ self.points * times }
    {
        Value {
            points: self.points * times,
        }
    }

    // How often the base goes into the bid, rounded up.
    fn times_in(self, bid: u16) -> u32
        ensures value { result ≡ times_in self.points bid }
        ensures bound { result ≤ 65560 }
    {
        u32::from(bid).div_ceil(self.points)
    }
}

impl Value {
    // What the game counts if it is won.
    fn won(self) -> GamePoints
        ensures { result.0 ≡ pos self.points }
    {
        GamePoints(self.points as i32)
    }

    // What the game counts if it is lost: minus twice as much.
    fn lost(self) -> GamePoints
        ensures { result.0 ≡ neg_ℤ (pos (2 * self.points)) }
    {
        GamePoints(-((2 * self.points) as i32))
    }
}

// Whether either side has at most 30 eyes.
fn is_schneider(game: &Finished) -> bool
    ensures { result ≡ is_schneider game.now }
{
    game.declarer.eyes.0 <= 30 || game.defenders.eyes.0 <= 30
}

// Whether either side took no trick.
fn is_schwarz(game: &Finished) -> bool
    ensures { result ≡ is_schwarz game.now }
{
    game.declarer.tricks.0 == 0 || game.defenders.tricks.0 == 0
}

// The steps of a level: what was reached, and what was announced.
fn steps(level: Level, schneider: bool, schwarz: bool) -> u32
    ensures value { result ≡ steps_at level schneider schwarz }
    ensures bound { result ≤ 5 }
{
    match level {
        Level::Plain => u32::from(schneider) + u32::from(schwarz),
        Level::Schneider => 2 + u32::from(schwarz),
        Level::Schwarz => 4,
        Level::Ouvert => 5,
    }
}

// Tops, one for the game, one for a hand game, and the steps of the level.
fn factor(tops: u8, game: &Finished) -> u32
    ensures value { result ≡ factor_of tops game.now }
    ensures bound { result ≤ 262 }
{
    let steps = steps(game.level, is_schneider(game), is_schwarz(game));
    u32::from(tops) + 1 + u32::from(game.hand) + steps
}

// Whether the declarer has what the level asks for.
fn is_reached(game: &Finished) -> bool
    ensures { result ≡ is_reached game.now }
{
    match game.level {
        Level::Plain => game.declarer.eyes.0 >= 61,
        Level::Schneider => game.declarer.eyes.0 >= 90,
        Level::Schwarz | Level::Ouvert => game.defenders.tricks.0 == 0,
    }
}

// What a suit or grand game of this base counts.
pub(super) fn trump_worth(base: Base, tops: u8, game: &Finished) -> GamePoints
    ensures { result.0 ≡ trump_worth base.points tops game.now }
{
    let bid = u16::from(game.bid);
    let factor = factor(tops, game);
    let value = base.times(factor);
    if is_reached(game) && value.points >= u32::from(bid) {
        value.won()
    } else {
        base.times(factor.max(base.times_in(bid))).lost()
    }
}

// What null is worth.
pub fn null_value(level: Level, hand: bool) -> u32
    ensures value { result ≡ null_value_at level hand }
    ensures bound { result ≤ 59 }
{
    match (level, hand) {
        (Level::Ouvert, true) => 59,
        (Level::Ouvert, false) => 46,
        (_, true) => 35,
        (_, false) => 23,
    }
}

// What a null game counts.
pub(super) fn null_worth(game: &Finished) -> GamePoints
    ensures { result.0 ≡ null_worth game.now }
{
    let value = Value {
        points: null_value(game.level, game.hand),
    };
    if game.declarer.tricks.0 == 0 {
        value.won()
    } else {
        value.lost()
    }
}
