// Setting a pack, putting its mark and cutting it.
ghost use Rattle.std.specs.Prelude.{◌≡◌, ◌<◌, true, false, not, map, is_ok, if◌then◌else◌, MatchResult, slice_index_or, slice_set};
ghost use Rattle.std.specs.List.{range_with_len};
ghost use Rattle.cards.specs.declared.refusals.Refusal.TheVariants.{NotAPack};
ghost use Rattle.cards.specs.Deck.{card_number};
ghost use Rattle.cards.specs.Packs.{IsPack, cut_at, mark_refusal, times};
ghost use Rattle.cards.specs.Setting.{PackSet};
ghost use Rattle.cards.specs.Refusals.{answered};

use super::deck::Card;
use super::packs::{BadPack, CutPack, UncutPack};
use super::refusals::Refusal;
use std::mem;

// The cards of these numbers, if they are 32 different cards.
fn named_cards(numbers: &[u8]) -> Result<[Card; 32], Refusal>
    ensures { MatchResult result (λ cards. IsPack numbers.now × (map card_number cards ≡ numbers.now) × ((c : Card) → times (card_number c) numbers.now ≡ 1)) (λ refusal. (refusal ≡ NotAPack) × (IsPack numbers.now → ⊥)) }
{
    if numbers.len() != 32 {
        return Err(Refusal::NotAPack);
    }
    let mut cards = [Card::deck()[0]; 32];
    let mut seen = [false; 32];
    for (i, number) in numbers.iter().enumerate() {
        cards[i] = Card::try_from(*number).map_err(|_| Refusal::NotAPack)?;
        if mem::replace(&mut seen[*number as usize], true) {
            return Err(Refusal::NotAPack);
        }
    }
    Ok(cards)
}

impl UncutPack {
    // The pack of these card numbers, from the top, with its mark in the middle. If they are
    // not 32 different cards, a refusal and a pack in the order of the numbers.
    pub fn set(numbers: &[u8]) -> Result<UncutPack, BadPack>
        ensures { PackSet numbers.now result }
    {
        match named_cards(numbers) {
            Ok(cards) => Ok(UncutPack { cards, mark: 16 }),
            Err(refusal) => {
                let cards = Card::deck();
                let pack = UncutPack { cards, mark: 16 };
                Err(BadPack { refusal, pack })
            }
        }
    }

    // Puts another mark, which leaves at least four cards on either side.
    pub fn put_mark(&mut self, mark: u8) -> Result<(), Refusal>
        ensures answer { result ≡ answered (mark_refusal mark) tt }
        ensures cards { self.new.cards ≡ self.old.cards }
        ensures mark { self.new.mark ≡ (if is_ok result then mark else self.old.mark) }
    {
        if !(4..=28).contains(&mark) {
            return Err(Refusal::NoSuchMark);
        }
        self.mark = mark;
        Ok(())
    }

    // The cards from the mark on, and then those before it.
    pub fn cut(self) -> CutPack
        ensures { result.cards ≡ cut_at self.mark self.cards }
    {
        let UncutPack { mut cards, mark } = self;
        cards.rotate_left(mark as usize);
        CutPack { cards }
    }
}
