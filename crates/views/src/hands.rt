// The cards of a hand, by their numbers.
ghost use Rattle.std.specs.Prelude.{◌≡◌, length};
ghost use Rattle.rules.specs.Piles.{holding, skat_of, marked, padded};

use cards::seats::Seat;
use rules::deals::Pile;
use std::array;

// What a byte holds that names no card and no seat. It is no `None`: the format of a sight has 255.
pub const NONE: u8 = 255;

// The cards that a seat holds, as a mark for each card. Tried with a `Hand`: the proof does not
// close, for the check does not know that the piles in it are 32.
pub fn held_marks(piles: &[Pile; 32], seat: Seat) -> [bool; 32]
    ensures { result ≡ holding seat piles.now }
{
    array::from_fn(|i| piles[i].is_held(seat))
}

// The skat or the put cards, as a mark for each card.
pub fn skat_marks(piles: &[Pile; 32]) -> [bool; 32]
    ensures { result ≡ skat_of piles.now }
{
    array::from_fn(|i| piles[i].is_in_skat())
}

// How many cards are marked.
pub fn count_marked(marks: &[bool; 32]) -> u8
    ensures { result ≡ length (marked marks.now) }
{
    let mut count = 0;
    for mark in marks {
        count += u8::from(*mark);
    }
    count
}

// The numbers of the first N marked cards, rising, and no card behind them. Tried with
// `array::from_fn` and with `take(N).enumerate()`: in a function with a const parameter the proof does
// not close.
pub fn listed<const N: usize>(marks: &[bool; 32]) -> [u8; N]
    ensures { result ≡ padded N 255 (marked marks.now) }
{
    let mut numbers = [NONE; N];
    let mut count = 0;
    for (number, mark) in marks.iter().enumerate() {
        if *mark && count < N {
            numbers[count] = number as u8;
            count += 1;
        }
    }
    numbers
}
