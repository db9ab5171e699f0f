// What a seat sees of a deal.
ghost use Rattle.std.specs.Prelude.{◌≡◌, ◌&&◌, map, length, if◌then◌else◌};
ghost use Rattle.cards.specs.Deck.{card_number};
ghost use Rattle.cards.specs.Refusals.{answered};
ghost use Rattle.cards.specs.Seats.{seat_at, seat_number};
ghost use Rattle.rules.specs.Board.{is_declarer, open_cards, last_cards};
ghost use Rattle.rules.specs.Moments.{is_at};
ghost use Rattle.rules.specs.Piles.{marked, padded};
ghost use Rattle.rules.specs.Sight.{contract_bytes, head_bytes, shown_in, put_seen_by, sight_of, sight_refusal, seen_by, buffer_after};
ghost use Rattle.views.specs.Sight.{viewer_of};

use super::hands::{NONE, count_marked, held_marks, listed, skat_marks};
use cards::refusals::Refusal;
use cards::seats::Seat;
use rules::deals::{Common, Contract, Deal, Trick};
use rules::moments::Moment;
use worth::levels::Level;

// The length of a sight.
const SIGHT_LENGTH: usize = 42;

// The seat to act, and none once the deal is settled.
fn turn_byte(common: &Common) -> u8
    ensures { result ≡ (if is_at 7 common.now.moment then 255 else seat_number common.now.turn) }
{
    if common.moment.is_settled() {
        NONE
    } else {
        common.turn.into()
    }
}

// The seat that leads or has led, as long as cards are played.
fn leader_byte(common: &Common) -> u8
    ensures { result ≡ (if is_at 6 common.now.moment then seat_number common.now.board.leader else 255) }
{
    if common.moment == Moment::Playing {
        common.board.leader.into()
    } else {
        NONE
    }
}

// Declarer, game, level, and whether it is a hand game.
fn contract_bytes(contract: Contract) -> [u8; 4]
    ensures { result ≡ contract_bytes contract }
{
    match contract {
        Contract::Undecided => [NONE; 4],
        Contract::Won(seat) => [seat.into(), NONE, NONE, NONE],
        Contract::SkatTaken(seat) => [seat.into(), NONE, NONE, 0],
        Contract::Announced(announcement) => [
            announcement.declarer.into(),
            announcement.game.into(),
            announcement.level.into(),
            announcement.hand.into(),
        ],
    }
}

// The cards of the open trick.
fn open_trick_bytes(trick: Trick) -> [u8; 3]
    ensures { result ≡ padded 3 255 (map card_number (open_cards trick)) }
{
    match trick {
        Trick::One(led) => [led.into(), NONE, NONE],
        Trick::Two(led, second) => [led.into(), second.into(), NONE],
        Trick::Empty | Trick::Full(..) => [NONE; 3],
    }
}

// The cards of the last trick, until the next lead.
fn last_trick_bytes(trick: Trick) -> [u8; 3]
    ensures { result ≡ padded 3 255 (map card_number (last_cards trick)) }
{
    match trick {
        Trick::Full(led, second, third) => [led.into(), second.into(), third.into()],
        Trick::Empty | Trick::One(_) | Trick::Two(..) => [NONE; 3],
    }
}

// The part of a sight that is alike for all seats, but for how many cards the seat has.
fn head(common: &Common, cards: u8) -> [u8; 18]
    ensures { result ≡ head_bytes common.now cards }
{
    let [low, high] = common.bid.to_le_bytes();
    let [declarer, game, level, hand] = contract_bytes(common.contract);
    let [led, second, third] = open_trick_bytes(common.board.trick);
    let [last_led, last_second, last_third] = last_trick_bytes(common.board.trick);
    [
        common.moment.into(),
        turn_byte(common),
        low,
        high,
        declarer,
        game,
        level,
        hand,
        common.board.taken.declarer,
        common.board.taken.defenders,
        leader_byte(common),
        led,
        second,
        third,
        last_led,
        last_second,
        last_third,
        cards,
    ]
}

// The declarer's hand if it lies open.
fn shown_marks(deal: &Deal) -> [bool; 32]
    ensures { marked result ≡ marked (shown_in deal.now.common.contract deal.now.piles) }
{
    match deal.common.contract {
        Contract::Announced(announcement) if announcement.level == Level::Ouvert => {
            held_marks(&deal.piles, announcement.declarer)
        }
        _ => [false; 32],
    }
}

// Whether a seat sees the put cards: the declarer does, until the announcement.
fn sees_put_cards(common: &Common, seat: Seat) -> bool
    ensures { result ≡ (is_at 5 common.now.moment && is_declarer common.now.contract seat) }
{
    common.moment == Moment::Announcing && common.contract.is_declarer(seat)
}

// The put cards if the seat sees them.
fn put_marks(deal: &Deal, seat: Seat) -> [bool; 32]
    ensures { marked result ≡ marked (put_seen_by seat deal.now.common deal.now.piles) }
{
    if sees_put_cards(&deal.common, seat) {
        skat_marks(&deal.piles)
    } else {
        [false; 32]
    }
}

// All that a seat sees.
fn seen(deal: &Deal, seat: Seat) -> [u8; SIGHT_LENGTH]
    ensures { result ≡ sight_of deal.now seat }
{
    let hand = held_marks(&deal.piles, seat);
    let mut bytes = [NONE; SIGHT_LENGTH];
    bytes[..18].copy_from_slice(&head(&deal.common, count_marked(&hand)));
    bytes[18..30].copy_from_slice(&listed::<12>(&hand));
    bytes[30..40].copy_from_slice(&listed::<10>(&shown_marks(deal)));
    bytes[40..42].copy_from_slice(&listed::<2>(&put_marks(deal, seat)));
    bytes
}

// The seat of a number, for a sight into a buffer of some length. The seat is a number in these
// three, for any number may ask, and is answered.
fn viewer(seat: u8, room: usize) -> Result<Seat, Refusal>
    ensures { result ≡ viewer_of (seat_at seat) room }
{
    let seat = Seat::try_from(seat)?;
    if room < SIGHT_LENGTH {
        return Err(Refusal::BufferTooShort);
    }
    Ok(seat)
}

// A seat's sight as a value, where a buffer of this length could take it.
pub fn sight_bytes(deal: &Deal, seat: u8, room: usize) -> Result<[u8; SIGHT_LENGTH], Refusal>
    ensures { result ≡ seen_by deal.now (seat_at seat) room }
{
    let seat = viewer(seat, room)?;
    Ok(seen(deal, seat))
}

// Writes a seat's sight into the first 42 bytes of a buffer; where it refuses, it alters nothing.
pub fn sight(deal: &Deal, seat: u8, buffer: &mut [u8]) -> Result<(), Refusal>
    ensures answer { result ≡ answered (sight_refusal (seat_at seat) (length buffer.old)) tt }
    ensures buffer { buffer.new ≡ buffer_after deal.now (seat_at seat) buffer.old }
{
    let bytes = sight_bytes(deal, seat, buffer.len())?;
    buffer[..SIGHT_LENGTH].copy_from_slice(&bytes);
    Ok(())
}
