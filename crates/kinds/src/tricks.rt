// Who takes a trick.
ghost use Rattle.std.specs.Prelude.{◌≡◌, slice_index_or};
ghost use Rattle.cards.specs.First.{IsFirst};
ghost use Rattle.kinds.specs.Strengths.{strength as strength_of, is_stronger};
ghost use Rattle.kinds.specs.Tricks.{force as force_of, beats as beats_of, Different, OnlyUnbeaten};
ghost use Rattle.kinds.specs.Orders.{stronger_irreflexive, stronger_transitive, stronger_weak};

use super::kind::Kind;
use cards::deck::Card;
use cards::first::first;
use cards::order::Order;

const TRUMP: u8 = 4;

// A card's force in a trick: 2 for trump, else 1 in the led card's class, else 0. The rules give
// these numbers and compare them. The kind and the led card are two parameters of three functions;
// a struct of both would be made anew for each call and taken apart again.
pub fn force<K: Kind>(kind: &K, led: Card, card: Card) -> u8
    ensures { result ≡ force_of (K.Kind.meaning kind.now) led card }
{
    let class = kind.class(card);
    if class == TRUMP {
        2
    } else if class == kind.class(led) {
        1
    } else {
        0
    }
}

// What a card counts for in a trick: its force and its rank.
#[derive(Clone, Copy, Debug, PartialEq, Eq, Drop)]
pub struct Strength {
    pub force: u8,
    pub rank: u8,
}

impl Strength {
    // The strength of a card in a trick to which this card was led.
    pub fn of_card<K: Kind>(kind: &K, led: Card, card: Card) -> Strength
        ensures { result ≡ strength_of (K.Kind.meaning kind.now) led card }
    {
        Strength {
            force: force(kind, led, card),
            rank: kind.rank(card),
        }
    }

    // Whether this strength is above another.
    pub fn is_stronger(self, other: Strength) -> bool
        ensures { result ≡ is_stronger self other }
    {
        self.force > other.force
            || self.force == other.force && self.force > 0 && self.rank > other.rank
    }
}

// Whether a card beats another in a trick.
pub fn beats<K: Kind>(kind: &K, led: Card, a: Card, b: Card) -> bool
    ensures { result ≡ beats_of (K.Kind.meaning kind.now) led a b }
{
    Strength::of_card(kind, led, a).is_stronger(Strength::of_card(kind, led, b))
}

// Ahead is the higher strength.
#[derive(Clone, Copy, Drop)]
pub struct ByStrength;

impl Order for ByStrength {
    type Item = Strength;

    ghost ahead = { λ _ a b. is_stronger a b };

    ghost irreflexive = { λ _. stronger_irreflexive };

    ghost transitive = { λ _. stronger_transitive };

    ghost weak = { λ _. stronger_weak };

    fn ahead(&self, a: &Strength, b: &Strength) -> bool {
        a.is_stronger(*b)
    }
}

// Which of the three cards of a trick takes it, the first of them led: the earliest that neither
// other beats.
pub fn taker<K: Kind>(kind: &K, trick: [Card; 3]) -> usize
    ensures first { (d : Card) → IsFirst (beats_of (K.Kind.meaning kind.now) (slice_index_or trick 0 d)) trick result }
    ensures only { Different trick → (d : Card) → OnlyUnbeaten (K.Kind.meaning kind.now) trick (slice_index_or trick 0 d) result }
{
    let led = trick[0];
    let strengths = [
        Strength::of_card(kind, led, trick[0]),
        Strength::of_card(kind, led, trick[1]),
        Strength::of_card(kind, led, trick[2]),
    ];
    first(&ByStrength, &strengths).unwrap()
}
