// Tops, and with them what a game counts.
ghost use Rattle.std.specs.Prelude.{◌≡◌, ◌≤◌, true, length};
ghost use Rattle.cards.specs.Units.{is_game_value};
ghost use Rattle.worth.specs.Tops.{is_among, is_same, tops_of};

use super::finished::Finished;
use super::rated::RatedKind;
use cards::deck::Card;
use cards::units::GamePoints;

// Whether a card is among these.
fn is_among(cards: &[Card; 12], card: Card) -> bool
    ensures { result ≡ is_among cards.now card }
{
    let number = u8::from(card);
    cards.iter().any(|other| u8::from(*other) == number)
}

// How many trumps from the club jack down are all among these cards, or all missing: the game
// is with or without so many. The rules ask for a loop that breaks with its value.
pub fn tops<K: RatedKind>(kind: &K, cards: &[Card; 12]) -> u8
    ensures value { result ≡ tops_of (K.RatedKind.rated kind.now).run cards.now }
    ensures bound { result ≤ length (K.RatedKind.rated kind.now).run }
{
    let Some(first) = kind.top(0) else {
        return 0;
    };
    let with = is_among(cards, first);
    let mut n = 1;
    let count = loop {
        match kind.top(n) {
            Some(card) if is_among(cards, card) == with => n += 1,
            _ => break n,
        }
    };
    count as u8
}

// What a finished game counts, by the twelve cards that the declarer was dealt or had in the
// skat.
pub fn result<K: RatedKind>(kind: &K, twelve: &[Card; 12], game: &Finished) -> GamePoints
    ensures value { result.0 ≡ (K.RatedKind.rated kind.now).counts (tops_of (K.RatedKind.rated kind.now).run twelve.now) game.now }
    ensures range { is_game_value result.0 ≡ true }
{
    kind.worth(tops(kind, twelve), game)
}
