// The rows of a list, and how many places it has.
ghost use Rattle.std.specs.Prelude.{◌≡◌, false, MatchResult};
ghost use Rattle.cards.specs.declared.refusals.Refusal.TheVariants.{NotAList};
ghost use Rattle.cards.specs.Units.{is_game_value};
ghost use Rattle.series.specs.Rows.{places_number, is_places, DeclarerNamed, RowMade, RowOf};

use cards::refusals::Refusal;
use cards::seats::Seat;
use cards::units::GamePoints;

// The most rows that a list has.
pub(super) const MOST_ROWS: usize = 48;

// How many places a list has.
#[derive(Clone, Copy, Debug, PartialEq, Eq, Drop)]
pub enum Places {
    Three = 3,
    Four = 4,
}

// A row of a list: a deal that was passed in, or a game with its declarer and what it counts.
// Its points are any number, since anyone may make a row; that a row is allowed is said in
// contracts (`is_row`), and lists keep it.
#[derive(Clone, Copy, Debug, Default, PartialEq, Eq, Drop)]
pub enum Row {
    #[default]
    PassedIn,
    Game(Seat, GamePoints),
}

impl From<Places> for u8 {
    ghost from_gives = { λ places number. number ≡ places_number places };

    // The number of places. Each is named, so that the compiler knows it to be 3 or 4 where rows
    // are divided among the places.
    fn from(places: Places) -> u8 {
        match places {
            Places::Three => 3,
            Places::Four => 4,
        }
    }
}

impl TryFrom<u8> for Places {
    type Error = Refusal;

    ghost try_from_gives = { λ number result. MatchResult result (λ places. places_number places ≡ number) (λ refusal. (refusal ≡ NotAList) × (is_places number ≡ false)) };

    // The places of this number, if a list can have so many.
    fn try_from(number: u8) -> Result<Places, Refusal> {
        match number {
            3 => Ok(Places::Three),
            4 => Ok(Places::Four),
            _ => Err(Refusal::NotAList),
        }
    }
}

// The declarer that a role names; there is none where the deal was passed in, whose role is 255.
pub(super) fn declarer_of(role: u8) -> Result<Option<Seat>, Refusal>
    ensures { DeclarerNamed role result }
{
    match role {
        255 => Ok(None),
        _ => Seat::try_from(role)
            .map(Some)
            .map_err(|_| Refusal::NoSuchRole),
    }
}

impl Row {
    // The row of this role and these points. A role is a number as the rules give it, 255
    // where the deal was passed in.
    pub fn new(role: u8, points: GamePoints) -> Result<Row, Refusal>
        ensures { RowMade role points.0 result }
    {
        Row::of(declarer_of(role)?, points)
    }

    // The row of this declarer, or of a deal that was passed in, and these points.
    pub(super) fn of(declarer: Option<Seat>, points: GamePoints) -> Result<Row, Refusal>
        ensures { RowOf declarer points.0 result }
    {
        match declarer {
            None if points.0 == 0 => Ok(Row::PassedIn),
            Some(declarer) if is_game_value(points) => Ok(Row::Game(declarer, points)),
            _ => Err(Refusal::PointsNotAllowed),
        }
    }
}

// What a game can count: from -540 to 264, and never 0.
fn is_game_value(points: GamePoints) -> bool
    ensures { result ≡ is_game_value points.0 }
{
    (-540..=264).contains(&points.0) && points.0 != 0
}
