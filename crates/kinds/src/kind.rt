// What every kind of game says of the cards.
ghost use Rattle.std.specs.Prelude.{◌≡◌, ◌≤◌};
ghost use Rattle.cards.specs.declared.deck.Card.{Card};
ghost use Rattle.kinds.specs.Meanings.{Meaning};

use cards::deck::Card;

// A kind of game, known by its meaning: a class for each card, 0 to 3 for the suits and 4 for
// trump, a rank in that class, and whether a trick of the declarer ends the play. Classes and
// ranks stay numbers: the rules state a kind's meaning and its laws in them.
pub trait Kind {
    ghost meaning: { Self → Meaning };

    fn class(&self, card: Card) -> u8
        ensures { result ≡ (meaning self.now).class card };

    fn rank(&self, card: Card) -> u8
        ensures { result ≡ (meaning self.now).rank card };

    fn ends(&self) -> bool
        ensures { result ≡ (meaning self.now).ends };

    // Two different cards of one class have different ranks.
    ghost apart: { (kind : Self) (a b : Card) → (meaning kind).class a ≡ (meaning kind).class b → (meaning kind).rank a ≡ (meaning kind).rank b → a ≡ b };

    // There is no class above trump.
    ghost small: { (kind : Self) (card : Card) → (meaning kind).class card ≤ 4 };
}
