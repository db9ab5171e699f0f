// The standing.
use cards::units::Rating;
use ranking::standings::{Entry, first_entry, rank};
use std::test::Fail;

const fn entry(rating: i32, won: u32, lost: u32) -> Entry {
    Entry {
        rating: Rating(rating),
        won,
        lost,
    }
}

#[test]
fn equal_entries_share_a_rank_and_the_earlier_is_first(rt: HostRuntime) -> Result<(), Fail> {
    let entries = [
        entry(90, 1, 0),
        entry(120, 2, 1),
        entry(120, 3, 1),
        entry(120, 3, 1),
        entry(120, 3, 2),
    ];
    assert_eq!(rt; rank(&entries, 2).ok().ok_or("none")?, 1);
    assert_eq!(rt; rank(&entries, 3).ok().ok_or("none")?, 1);
    assert_eq!(rt; rank(&entries, 4).ok().ok_or("none")?, 3);
    assert_eq!(rt; rank(&entries, 1).ok().ok_or("none")?, 4);
    assert_eq!(rt; rank(&entries, 0).ok().ok_or("none")?, 5);
    assert!(rt; rank(&entries, 5).is_err());
    assert_eq!(rt; first_entry(&entries), Some(2));
    assert_eq!(rt; first_entry(&entries[0..0]), None);
    Ok(())
}
