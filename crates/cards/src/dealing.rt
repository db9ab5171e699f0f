// Dealing a pack that was cut.
ghost use Rattle.std.specs.Prelude.{◌≡◌, ◌<◌};
ghost use Rattle.cards.specs.Dealing.{receiver, DealtAs};

use super::packs::CutPack;
use super::seats::Seat;

// Where a card lies once it is dealt.
#[derive(Clone, Copy, Debug, PartialEq, Eq, Drop)]
pub enum Dealt {
    Hand(Seat),
    Skat,
}

// Who gets the card at this position from the top: three each, two for the skat, four each,
// three each.
fn receiver_of(position: usize) -> Dealt
    requires { position < 32 }
    ensures { result ≡ receiver position }
{
    match position {
        0..=2 => Dealt::Hand(Seat::Forehand),
        3..=5 => Dealt::Hand(Seat::Middlehand),
        6..=8 => Dealt::Hand(Seat::Rearhand),
        9..=10 => Dealt::Skat,
        11..=14 => Dealt::Hand(Seat::Forehand),
        15..=18 => Dealt::Hand(Seat::Middlehand),
        19..=22 => Dealt::Hand(Seat::Rearhand),
        23..=25 => Dealt::Hand(Seat::Forehand),
        26..=28 => Dealt::Hand(Seat::Middlehand),
        _ => Dealt::Hand(Seat::Rearhand),
    }
}

impl CutPack {
    // Where each card lies once the pack is dealt, listed by the cards' numbers. The pack is
    // spent, so that it is dealt once.
    pub fn deal(self) -> [Dealt; 32]
        ensures { DealtAs self.cards result }
    {
        let CutPack { cards } = self;
        let mut dealt = [Dealt::Skat; 32];
        for (position, card) in cards.iter().enumerate() {
            dealt[u8::from(*card) as usize] = receiver_of(position);
        }
        dealt
    }
}
