// Kinds of game, takers, tops, and what games count.
use cards::deck::{Card, Place, Suit};
use cards::units::Eyes;
use kinds::games::{Grand, Null, SuitGame};
use kinds::tricks::taker;
use worth::announced::Game;
use worth::bidding::is_bid_value;
use worth::bids::Bid;
use worth::finished::{Finished, Side, Tricks};
use worth::levels::Level;
use worth::tops::tops;

fn card(suit: Suit, place: Place) -> Card {
    Card { suit, place }
}

// The seven, the king and the jack of diamonds.
fn diamonds() -> [Card; 3] {
    [
        card(Suit::Diamonds, Place::Seven),
        card(Suit::Diamonds, Place::King),
        card(Suit::Diamonds, Place::Jack),
    ]
}

const HEARTS: Game = Game::Suit(SuitGame {
    trump: Suit::Hearts,
});

// With three tops in hearts, the heart jack among the last two.
fn with_three() -> [Card; 12] {
    [
        card(Suit::Clubs, Place::Jack),
        card(Suit::Spades, Place::Jack),
        card(Suit::Hearts, Place::Ace),
        card(Suit::Hearts, Place::Ten),
        card(Suit::Hearts, Place::Nine),
        card(Suit::Hearts, Place::Eight),
        card(Suit::Clubs, Place::Ace),
        card(Suit::Clubs, Place::Ten),
        card(Suit::Spades, Place::Ace),
        card(Suit::Spades, Place::Seven),
        card(Suit::Hearts, Place::Jack),
        card(Suit::Spades, Place::Eight),
    ]
}

// What a game counts with those twelve cards, the declarer's eyes and tricks given.
fn points(game: Game, hand: bool, level: Level, bid: u16, eyes: u8, tricks: u8) -> Option<i32> {
    let bid = Bid::try_from(bid).ok()?;
    let finished = Finished {
        hand,
        level,
        bid,
        declarer: Side {
            eyes: Eyes(eyes),
            tricks: Tricks(tricks),
        },
        defenders: Side {
            eyes: Eyes(120u8.saturating_sub(eyes)),
            tricks: Tricks(10u8.saturating_sub(tricks)),
        },
    };
    Some(game.result(&with_three(), &finished).0)
}

#[test]
fn a_trick_of_diamonds_in_each_kind_of_game(rt: HostRuntime) {
    assert_eq!(rt; taker(&Null, diamonds()), 1);
    assert_eq!(rt; taker(&Grand, diamonds()), 2);
    assert_eq!(rt;
        taker(
            &SuitGame {
                trump: Suit::Diamonds,
            },
            diamonds(),
        ),
        2
    );
}

// Neither a higher card of another suit nor an equal force takes it from the led card.
#[test]
fn a_card_that_does_not_follow_takes_nothing(rt: HostRuntime) {
    let trick = [
        card(Suit::Spades, Place::Seven),
        card(Suit::Diamonds, Place::Ace),
        card(Suit::Clubs, Place::Ace),
    ];
    assert_eq!(rt; taker(&Grand, trick), 0);
    assert_eq!(rt;
        taker(
            &SuitGame {
                trump: Suit::Diamonds,
            },
            trick,
        ),
        1
    );
}

#[test]
fn tops_count_the_cards_of_the_skat(rt: HostRuntime) {
    assert_eq!(rt; tops(&HEARTS, &with_three()), 3);
    assert_eq!(rt; tops(&Game::Grand(Grand), &with_three()), 3);
    assert_eq!(rt; tops(&Game::Null(Null), &with_three()), 0);
    let mut without = with_three();
    without[0] = card(Suit::Clubs, Place::King);
    assert_eq!(rt; tops(&HEARTS, &without), 1);
}

// 10 × 4 does not reach 45, so it is lost at 10 × 5, twice.
#[test]
fn an_overbid_game_is_lost_at_what_was_bid(rt: HostRuntime) {
    assert_eq!(rt; points(HEARTS, false, Level::Plain, 45, 70, 6), Some(-100));
    assert_eq!(rt; points(HEARTS, false, Level::Plain, 40, 70, 6), Some(40));
    assert_eq!(rt; points(HEARTS, true, Level::Schneider, 40, 90, 8), Some(70));
    assert_eq!(rt;
        points(HEARTS, true, Level::Schneider, 40, 89, 8),
        Some(-140)
    );
    assert_eq!(rt; points(HEARTS, false, Level::Plain, 41, 70, 6), None);
}

#[test]
fn null_counts_by_its_level_and_hand(rt: HostRuntime) {
    let null = Game::Null(Null);
    assert_eq!(rt; points(null, true, Level::Ouvert, 59, 0, 1), Some(-118));
    assert_eq!(rt; points(null, true, Level::Ouvert, 59, 0, 0), Some(59));
    assert_eq!(rt; points(null, false, Level::Plain, 18, 0, 0), Some(23));
}

#[test]
fn bids_are_the_values_of_games(rt: HostRuntime) {
    assert!(rt; is_bid_value(18));
    assert!(rt; is_bid_value(23));
    assert!(rt; is_bid_value(264));
    assert!(rt; !is_bid_value(17));
    assert!(rt; !is_bid_value(19));
    assert!(rt; !is_bid_value(0));
    assert!(rt; Bid::try_from(265).is_err());
}
