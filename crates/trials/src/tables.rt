// A table: short deals by its calls, what it refuses, what it shows, and runs.
use cards::packs::{CutPack, UncutPack};
use cards::refusals::Refusal;
use cards::units::GamePoints;
use kinds::games::Null;
use rules::calls::Call;
use runs::requests::{Answer, Request};
use std::test::Fail;
use table::asked::Asked;
use table::tables::Table;

// Spades, clubs, diamonds, hearts, each from the seven to the jack: cut at 16, the pack lies in the
// order of the numbers.
const PACK: [u8; 32] = [
    16, 17, 18, 19, 20, 21, 22, 23, 24, 25, 26, 27, 28, 29, 30, 31, 0, 1, 2, 3, 4, 5, 6, 7, 8, 9,
    10, 11, 12, 13, 14, 15,
];

fn pack() -> Result<CutPack, Fail> {
    match UncutPack::set(&PACK) {
        Ok(pack) => Ok(pack.cut()),
        Err(_) => Err(Fail::new("refused")),
    }
}

fn number(answer: Result<(), Refusal>) -> u8 {
    match answer {
        Ok(()) => 0,
        Err(refusal) => u8::from(refusal),
    }
}

// Middlehand bids 18, the others pass, and null is announced by hand.
fn null_by_hand() -> Result<Table, Fail> {
    let mut table = Table::set(pack()?);
    let accepted = number(table.bid(&Null, 1, 18)) == 0
        && number(table.pass(&Null, 0)) == 0
        && number(table.pass(&Null, 2)) == 0
        && number(table.announce(&Null, 1, 5, 0)) == 0;
    if accepted {
        Ok(table)
    } else {
        Err(Fail::new("refused"))
    }
}

#[test]
fn a_null_game_by_hand_is_lost_with_the_first_trick(rt: HostRuntime) -> Result<(), Fail> {
    let mut table = null_by_hand()?;
    assert_eq!(rt; number(table.play(&Null, 0, 0)), 0);
    assert_eq!(rt; number(table.play(&Null, 1, 4)), 0);
    assert_eq!(rt; table.result(&Null), Err(Refusal::NotSettledYet));
    assert_eq!(rt; number(table.play(&Null, 2, 7)), 0);
    assert_eq!(rt; table.result(&Null), Ok((1, GamePoints(-70))));
    assert_eq!(rt; number(table.play(&Null, 1, 3)), 2);
    Ok(())
}

#[test]
fn a_deal_that_nobody_wants_counts_nothing(rt: HostRuntime) -> Result<(), Fail> {
    let mut table = Table::set(pack()?);
    assert_eq!(rt; number(table.pass(&Null, 1)), 0);
    assert_eq!(rt; number(table.pass(&Null, 2)), 0);
    assert_eq!(rt; number(table.pass(&Null, 0)), 0);
    assert_eq!(rt; table.result(&Null), Ok((255, GamePoints(0))));
    Ok(())
}

#[test]
fn a_call_is_refused_by_the_topmost_that_fits(rt: HostRuntime) -> Result<(), Fail> {
    let mut table = Table::set(pack()?);
    assert_eq!(rt; number(table.bid(&Null, 3, 18)), 1);
    assert_eq!(rt; number(table.bid(&Null, 0, 17)), 3);
    assert_eq!(rt; number(table.hold(&Null, 1)), 4);
    assert_eq!(rt; number(table.bid(&Null, 1, 17)), 5);
    assert_eq!(rt; number(table.bid(&Null, 1, 20)), 0);
    assert_eq!(rt; number(table.hold(&Null, 0)), 0);
    assert_eq!(rt; number(table.bid(&Null, 1, 20)), 6);
    assert_eq!(rt; number(table.pass(&Null, 1)), 0);
    assert_eq!(rt; number(table.pass(&Null, 2)), 0);
    assert_eq!(rt; number(table.announce(&Null, 0, 6, 0)), 11);
    assert_eq!(rt; number(table.take(&Null, 0)), 0);
    assert_eq!(rt; number(table.put(&Null, 0, 32, 0)), 7);
    assert_eq!(rt; number(table.put(&Null, 0, 0, 0)), 8);
    assert_eq!(rt; number(table.put(&Null, 0, 0, 3)), 9);
    assert_eq!(rt; number(table.put(&Null, 0, 9, 0)), 0);
    assert_eq!(rt; number(table.announce(&Null, 0, 5, 1)), 12);
    assert_eq!(rt; number(table.announce(&Null, 0, 5, 3)), 0);
    assert_eq!(rt; number(table.play(&Null, 0, 1)), 0);
    assert_eq!(rt; number(table.play(&Null, 1, 15)), 10);
    assert_eq!(rt; number(table.play(&Null, 1, 5)), 0);
    Ok(())
}

// Null by hand counts 35, which a bid of 36 is above.
#[test]
fn null_below_the_bid_is_refused(rt: HostRuntime) -> Result<(), Fail> {
    let mut table = Table::set(pack()?);
    assert_eq!(rt; number(table.bid(&Null, 1, 36)), 0);
    assert_eq!(rt; number(table.pass(&Null, 0)), 0);
    assert_eq!(rt; number(table.pass(&Null, 2)), 0);
    assert_eq!(rt; number(table.announce(&Null, 1, 5, 0)), 13);
    assert_eq!(rt; number(table.announce(&Null, 1, 5, 3)), 0);
    Ok(())
}

#[test]
fn a_seat_sees_its_ten_cards_and_no_others(rt: HostRuntime) -> Result<(), Fail> {
    let table = Table::set(pack()?);
    let mut buffer = [7u8; 43];
    assert_eq!(rt; number(table.sight(&Null, 0, &mut buffer)), 0);
    let expected = [
        0, 1, 0, 0, 255, 255, 255, 255, 0, 0, 255, 255, 255, 255, 255, 255, 255, 10, 0, 1, 2, 11,
        12, 13, 14, 23, 24, 25, 255, 255, 255, 255, 255, 255, 255, 255, 255, 255, 255, 255, 255,
        255, 7,
    ];
    assert!(rt; buffer == expected);
    assert_eq!(rt; number(table.sight(&Null, 3, &mut buffer)), 1);
    assert_eq!(rt; number(table.sight(&Null, 0, &mut buffer[0..41])), 14);
    assert!(rt; buffer == expected);
    Ok(())
}

// Diamonds are led, and middlehand has three of them.
#[test]
fn who_can_serve_must(rt: HostRuntime) -> Result<(), Fail> {
    let mut table = null_by_hand()?;
    assert_eq!(rt; table.permitted(&Null, 1), 0);
    assert_eq!(rt;
        table.permitted(&Null, 0),
        0b11_1000_0000_0111_1000_0000_0111
    );
    assert_eq!(rt; number(table.play(&Null, 0, 0)), 0);
    assert_eq!(rt; table.permitted(&Null, 1), 0b11_1000);
    assert_eq!(rt; table.permitted(&Null, 3), 0);
    Ok(())
}

fn asked(request: Request) -> Asked {
    Asked {
        request,
        answer: None,
    }
}

#[test]
fn a_run_answers_each_request(rt: HostRuntime) -> Result<(), Fail> {
    let mut run = [
        asked(Request::Act(1, Call::Pass)),
        asked(Request::Act(1, Call::Pass)),
        asked(Request::Permitted(0)),
        asked(Request::Result),
        asked(Request::Act(2, Call::Pass)),
        asked(Request::Act(0, Call::Pass)),
        asked(Request::Result),
    ];
    let expected = [
        Some(Answer::Acted(Ok(()))),
        Some(Answer::Acted(Err(Refusal::NotThisSeatsTurn))),
        Some(Answer::May(0)),
        Some(Answer::Counted(Err(Refusal::NotSettledYet))),
        Some(Answer::Acted(Ok(()))),
        Some(Answer::Acted(Ok(()))),
        Some(Answer::Counted(Ok((255, GamePoints(0))))),
    ];
    let _ = Table::rated_run(pack()?, &Null, &mut run);
    for (line, answer) in run.iter().zip(&expected) {
        assert!(rt; line.answer == *answer);
    }
    let _ = Table::run(pack()?, &Null, &mut run);
    assert!(rt; run[0].answer == expected[0]);
    assert!(rt; run[3].answer.is_none());
    Ok(())
}
