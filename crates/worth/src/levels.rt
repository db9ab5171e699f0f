// The levels that a game can be announced at.
ghost use Rattle.std.specs.Prelude.{◌≡◌, ◌≤◌, MatchResult};
ghost use Rattle.cards.specs.declared.refusals.Refusal.TheVariants.{NoSuchGame};
ghost use Rattle.worth.specs.Levels.{level_number};

use cards::refusals::Refusal;

#[derive(Clone, Copy, Debug, PartialEq, Eq, Drop)]
pub enum Level {
    Plain,
    Schneider,
    Schwarz,
    Ouvert,
}

impl From<Level> for u8 {
    ghost from_gives = { λ level number. number ≡ level_number level };

    // The level's number, from 0 where none was announced.
    fn from(level: Level) -> u8 {
        level as u8
    }
}

impl TryFrom<u8> for Level {
    type Error = Refusal;

    ghost try_from_gives = { λ number result. MatchResult result (λ level. level_number level ≡ number) (λ refusal. (refusal ≡ NoSuchGame) × (4 ≤ number)) };

    // The level of this number, if there is one.
    fn try_from(number: u8) -> Result<Level, Refusal> {
        match number {
            0 => Ok(Level::Plain),
            1 => Ok(Level::Schneider),
            2 => Ok(Level::Schwarz),
            3 => Ok(Level::Ouvert),
            _ => Err(Refusal::NoSuchGame),
        }
    }
}
