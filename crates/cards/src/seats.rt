// The three seats of a deal.
ghost use Rattle.std.specs.Prelude.{◌≡◌, ◌≤◌, MatchOption, MatchResult};
ghost use Rattle.cards.specs.Seats.{seat_number};
ghost use Rattle.cards.specs.declared.refusals.Refusal.TheVariants.{NoSuchSeat};

use super::refusals::Refusal;

// Forehand leads to the first trick; the others follow in this order.
#[derive(Clone, Copy, Debug, PartialEq, Eq, Drop)]
pub enum Seat {
    Forehand,
    Middlehand,
    Rearhand,
}

impl From<Seat> for u8 {
    ghost from_gives = { λ seat number. number ≡ seat_number seat };

    // The seat's number, from 0 for forehand.
    fn from(seat: Seat) -> u8 {
        seat as u8
    }
}

impl TryFrom<u8> for Seat {
    type Error = Refusal;

    ghost try_from_gives = { λ number result. MatchResult result (λ seat. seat_number seat ≡ number) (λ refusal. (refusal ≡ NoSuchSeat) × (3 ≤ number)) };

    // The seat of this number, if there is one.
    fn try_from(number: u8) -> Result<Seat, Refusal> {
        match number {
            0 => Ok(Seat::Forehand),
            1 => Ok(Seat::Middlehand),
            2 => Ok(Seat::Rearhand),
            _ => Err(Refusal::NoSuchSeat),
        }
    }
}
