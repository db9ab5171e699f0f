// Cards, packs and dealing.
use cards::dealing::Dealt;
use cards::deck::{Card, Place, Suit};
use cards::packs::{BadPack, UncutPack};
use cards::refusals::Refusal;
use cards::seats::Seat;
use std::test::Fail;

#[test]
fn the_club_jack_is_the_last_card(rt: HostRuntime) {
    let jack = Card {
        suit: Suit::Clubs,
        place: Place::Jack,
    };
    assert_eq!(rt; u8::from(jack), 31);
    assert_eq!(rt; jack.eyes().0, 2);
    assert!(rt; Card::try_from(32).is_err());
}

#[test]
fn the_eyes_of_a_pack_make_120(rt: HostRuntime) -> Result<(), Fail> {
    let mut eyes = 0u16;
    // A range of numbers, which is what is tested; nothing is indexed.
    for number in 0..32u8 {
        let card = Card::try_from(number).ok().ok_or("no card")?;
        eyes = eyes.saturating_add(u16::from(card.eyes().0));
    }
    assert_eq!(rt; eyes, 120);
    Ok(())
}

// A pack in the order of the numbers, cut in the middle.
#[test]
fn each_card_goes_where_its_place_sends_it(rt: HostRuntime) -> Result<(), Fail> {
    let pack = match UncutPack::set(&IN_ORDER) {
        Ok(pack) => pack,
        Err(_) => return Err(Fail::new("refused")),
    };
    let dealt = pack.cut().deal();
    assert!(rt; dealt[16] == Dealt::Hand(Seat::Forehand));
    assert!(rt; dealt[19] == Dealt::Hand(Seat::Middlehand));
    assert!(rt; dealt[22] == Dealt::Hand(Seat::Rearhand));
    assert!(rt; dealt[25] == Dealt::Skat);
    assert!(rt; dealt[26] == Dealt::Skat);
    assert!(rt; dealt[27] == Dealt::Hand(Seat::Forehand));
    assert!(rt; dealt[15] == Dealt::Hand(Seat::Rearhand));
    Ok(())
}

#[test]
fn a_bad_pack_is_refused_with_one_in_order(rt: HostRuntime) {
    let mut twice = IN_ORDER;
    twice[31] = 0;
    let mut above = IN_ORDER;
    above[0] = 32;
    assert!(rt; refused_in_order(&twice));
    assert!(rt; refused_in_order(&above));
    assert!(rt; refused_in_order(&IN_ORDER[0..31]));
    assert!(rt; !refused_in_order(&IN_ORDER));
}

#[test]
fn a_mark_leaves_four_cards_on_either_side(rt: HostRuntime) -> Result<(), Fail> {
    let mut pack = match UncutPack::set(&IN_ORDER) {
        Ok(pack) => pack,
        Err(_) => return Err(Fail::new("refused")),
    };
    assert!(rt; pack.put_mark(28).is_ok());
    assert!(rt; pack.put_mark(29) == Err(Refusal::NoSuchMark));
    assert!(rt; pack.put_mark(3) == Err(Refusal::NoSuchMark));
    assert!(rt; pack.put_mark(4).is_ok());
    let dealt = pack.cut().deal();
    assert!(rt; dealt[4] == Dealt::Hand(Seat::Forehand));
    Ok(())
}

const IN_ORDER: [u8; 32] = [
    0, 1, 2, 3, 4, 5, 6, 7, 8, 9, 10, 11, 12, 13, 14, 15, 16, 17, 18, 19, 20, 21, 22, 23, 24, 25,
    26, 27, 28, 29, 30, 31,
];

// Whether these numbers are refused, with a pack in the order of the numbers.
fn refused_in_order(numbers: &[u8]) -> bool {
    match UncutPack::set(numbers) {
        Ok(_) => false,
        Err(bad) => {
            let BadPack { refusal, pack } = bad;
            let dealt = pack.cut().deal();
            refusal == Refusal::NotAPack && dealt[25] == Dealt::Skat && dealt[26] == Dealt::Skat
        }
    }
}
