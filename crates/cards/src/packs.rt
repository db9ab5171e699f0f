// The pack before and after the cut. Both move and neither is copied, so a pack is cut
// before it is dealt, and dealt once.
ghost use Rattle.std.specs.Prelude.{◌≡◌, ◌≤◌, map};
ghost use Rattle.cards.specs.declared.deck.Card.{Card};
ghost use Rattle.cards.specs.Deck.{card_number};
ghost use Rattle.cards.specs.Packs.{times};

use super::deck::Card;
use super::refusals::Refusal;

// A pack with the mark at which it will be cut.
#[derive(Drop)]
pub struct UncutPack {
    pub(super) cards: [Card; 32],
    pub(super) mark: u8,
    ghost once: { (c : Card) → times (card_number c) (map card_number cards) ≡ 1 },
    ghost low: { 4 ≤ mark },
    ghost high: { mark ≤ 28 },
}

// A pack that was cut and can be dealt.
#[derive(Drop)]
pub struct CutPack {
    pub(super) cards: [Card; 32],
    ghost once: { (c : Card) → times (card_number c) (map card_number cards) ≡ 1 },
}

// A refusal, with the pack that there is instead; a pair would name neither.
#[derive(Drop)]
pub struct BadPack {
    pub refusal: Refusal,
    pub pack: UncutPack,
}
