// Why something is refused.
ghost use Rattle.std.specs.Prelude.{◌≡◌, Some, decimal};
ghost use Rattle.cards.specs.Refusals.{refusal_number};

use std::error::Error;
use std::fmt;

// The reasons in the order in which they are tested.
#[derive(Clone, Copy, Debug, PartialEq, Eq, Drop)]
pub enum Refusal {
    NoSuchRole,
    NoSuchSeat,
    DealIsSettled,
    NotThisSeatsTurn,
    NotInThisMoment,
    NoBidValue,
    BidTooLow,
    NoSuchCard,
    SameCardTwice,
    CardNotHeld,
    LedClassHeld,
    NoSuchGame,
    LevelNotOpen,
    NullBelowBid,
    BufferTooShort,
    NotAPack,
    NoSuchMark,
    NotSettledYet,
    ListFull,
    PointsNotAllowed,
    FileTooShort,
    WrongTag,
    NotAList,
    RowNotAllowed,
    WrongGamesCount,
    NoSuchEntry,
}

impl From<Refusal> for u8 {
    ghost from_gives = { λ refusal number. number ≡ refusal_number refusal };

    // The number that is answered in place of 0.
    fn from(refusal: Refusal) -> u8 {
        match refusal {
            Refusal::NoSuchRole => 1,
            Refusal::NoSuchSeat => 1,
            Refusal::DealIsSettled => 2,
            Refusal::NotThisSeatsTurn => 3,
            Refusal::NotInThisMoment => 4,
            Refusal::NoBidValue => 5,
            Refusal::BidTooLow => 6,
            Refusal::NoSuchCard => 7,
            Refusal::SameCardTwice => 8,
            Refusal::CardNotHeld => 9,
            Refusal::LedClassHeld => 10,
            Refusal::NoSuchGame => 11,
            Refusal::LevelNotOpen => 12,
            Refusal::NullBelowBid => 13,
            Refusal::BufferTooShort => 14,
            Refusal::NotAPack => 15,
            Refusal::NoSuchMark => 16,
            Refusal::NotSettledYet => 17,
            Refusal::ListFull => 18,
            Refusal::PointsNotAllowed => 19,
            Refusal::FileTooShort => 20,
            Refusal::WrongTag => 21,
            Refusal::NotAList => 22,
            Refusal::RowNotAllowed => 23,
            Refusal::WrongGamesCount => 24,
            Refusal::NoSuchEntry => 27,
        }
    }
}

// A refusal is printed as its number.
impl fmt::Display for Refusal {
    ghost output = { λ refusal. Some (decimal (refusal_number refusal)) };

    fn fmt<W: fmt::Write>(&self, f: &mut fmt::Formatter<W>) -> fmt::Result {
        let number = u8::from(*self);
        write!(f, "{number}")
    }
}

impl Error for Refusal {}
