// Lists and totals.
use cards::units::GamePoints;
use series::lists::{BadPlaces, NotOpened, OpenList};
use series::rows::Places;
use std::test::Fail;

pub(super) fn opened(rt: HostRuntime, places: u8) -> Result<OpenList, Fail> {
    Ok(OpenList::open(rt.alloc(), places).ok().ok_or("not opened")?)
}

fn enter(list: &mut OpenList, role: u8, points: i32) -> u8 {
    match list.enter(role, GamePoints(points)) {
        Ok(()) => 0,
        Err(refusal) => u8::from(refusal),
    }
}

// One lost game: middlehand of the first row sits at place 2 of three.
#[test]
fn a_lost_game_gives_each_defender_40(rt: HostRuntime) -> Result<(), Fail> {
    let mut list = opened(rt, 3)?;
    assert_eq!(rt; enter(&mut list, 1, -70), 0);
    let declarer = list.totals(2).ok().ok_or("no place")?;
    assert_eq!(rt; declarer.points.0, -70);
    assert_eq!(rt; declarer.lost, 1);
    assert_eq!(rt; declarer.rating.0, -120);
    let defender = list.totals(0).ok().ok_or("no place")?;
    assert_eq!(rt; defender.rating.0, 40);
    assert!(rt; list.totals(3).is_err());
    Ok(())
}

// At a table of four the dealer sits out and gets nothing.
#[test]
fn the_dealer_of_four_sits_out(rt: HostRuntime) -> Result<(), Fail> {
    let mut list = opened(rt, 4)?;
    assert_eq!(rt; enter(&mut list, 0, -36), 0);
    let dealer = list.totals(0).ok().ok_or("no place")?;
    assert_eq!(rt; dealer.rating.0, 0);
    let defender = list.totals(3).ok().ok_or("no place")?;
    assert_eq!(rt; defender.rating.0, 40);
    Ok(())
}

#[test]
fn a_row_is_refused_by_the_topmost_that_fits(rt: HostRuntime) -> Result<(), Fail> {
    let mut list = opened(rt, 3)?;
    assert_eq!(rt; enter(&mut list, 3, 18), 1);
    assert_eq!(rt; enter(&mut list, 254, 0), 1);
    assert_eq!(rt; enter(&mut list, 255, 18), 19);
    assert_eq!(rt; enter(&mut list, 0, 0), 19);
    assert_eq!(rt; enter(&mut list, 0, -541), 19);
    assert_eq!(rt; enter(&mut list, 0, 265), 19);
    for _ in 0..24 {
        assert_eq!(rt; enter(&mut list, 0, -540), 0);
        assert_eq!(rt; enter(&mut list, 255, 0), 0);
    }
    assert_eq!(rt; enter(&mut list, 0, 264), 18);
    assert_eq!(rt; enter(&mut list, 0, 0), 18);
    assert_eq!(rt; enter(&mut list, 3, 0), 1);
    Ok(())
}

#[test]
fn five_places_give_an_empty_list_of_three(rt: HostRuntime) -> Result<(), Fail> {
    match OpenList::open(rt.alloc(), 5) {
        Err(NotOpened::Refused(bad)) => {
            let BadPlaces { refusal, list } = bad;
            assert_eq!(rt; u8::from(refusal), 22);
            assert_eq!(rt; u8::from(list.places()), 3);
            assert!(rt; list.rows().is_empty());
            Ok(())
        }
        _ => Err(Fail::new("opened")),
    }
}

#[test]
fn an_empty_list_has_these_places_and_no_rows(rt: HostRuntime) -> Result<(), Fail> {
    let list = OpenList::empty(rt.alloc(), Places::Four)?;
    assert_eq!(rt; u8::from(list.places()), 4);
    assert!(rt; list.rows().is_empty());
    Ok(())
}
