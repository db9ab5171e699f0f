// The moments of a deal, and the calls that each waits for.
ghost use Rattle.std.specs.Prelude.{◌≡◌};
ghost use Rattle.rules.specs.Moments.{moment_number, is_at, in_row};

use super::calls::Call;

// What a deal waits for: a bid, the answer to a bid, forehand alone after two passes without a
// bid, the declarer's choice to take the skat or not, the cards put away, an announcement, a card;
// or nothing more.
#[derive(Clone, Copy, Debug, PartialEq, Eq, Drop)]
pub enum Moment {
    Bidding,
    Hearing,
    Alone,
    Deciding,
    Putting,
    Announcing,
    Playing,
    Settled,
}

impl From<Moment> for u8 {
    ghost from_gives = { λ moment number. number ≡ moment_number moment };

    // The moment's number.
    fn from(moment: Moment) -> u8 {
        moment as u8
    }
}

impl Moment {
    // Whether the deal waits for nothing more.
    pub fn is_settled(self) -> bool
        ensures { result ≡ is_at 7 self }
    {
        self == Moment::Settled
    }

    // Whether the skat still lies, so that an announcement now is of a hand game.
    pub fn is_deciding(self) -> bool
        ensures { result ≡ is_at 3 self }
    {
        self == Moment::Deciding
    }

    // Whether a call can be made in this moment: a table of patterns, and no equality.
    pub fn admits(self, call: Call) -> bool
        ensures { result ≡ in_row self call }
    {
        matches!(
            (self, call),
            (Moment::Bidding, Call::Bid(_) | Call::Pass)
                | (Moment::Hearing | Moment::Alone, Call::Hold | Call::Pass)
                | (Moment::Deciding, Call::Take | Call::Announce(_, _))
                | (Moment::Putting, Call::Put(_, _))
                | (Moment::Announcing, Call::Announce(_, _))
                | (Moment::Playing, Call::Play(_))
        )
    }
}
