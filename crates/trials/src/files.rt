// The file of a list.
use super::lists::opened;
use cards::units::GamePoints;
use ranking::reports::report;
use series::lists::ClosedList;
use std::test::Fail;

// Two rows at a table of three: middlehand lost 70, then a deal passed in.
const FILE: [u8; 24] = [
    b'S', b'K', b'L', b'1', 3, 0, 2, 0, 1, 0, 16, 0, 24, 0, 0, 0, 1, 0, 186, 255, 255, 0, 0, 0,
];

// How many bytes are given, a byte of them, what it is turned to, and the number that the file
// is then refused by. The file with a byte more than it has ends in 0.
const SPOILT: [(usize, usize, u8, u8); 19] = [
    (0, 0, b'S', 20),
    (15, 0, b'S', 20),
    (24, 0, b's', 21),
    (24, 3, b'2', 21),
    (24, 4, 5, 22),
    (24, 5, 1, 22),
    (24, 6, 49, 22),
    (24, 7, 1, 22),
    (24, 10, 15, 22),
    (24, 12, 20, 22),
    (23, 0, b'S', 22),
    (25, 0, b'S', 22),
    (25, 12, 25, 22),
    (24, 16, 3, 23),
    (24, 17, 1, 23),
    (24, 22, 1, 23),
    (24, 19, 253, 23),
    (24, 20, 2, 23),
    (24, 8, 2, 24),
];

fn empty(rt: HostRuntime) -> Result<ClosedList, Fail> {
    Ok(opened(rt, 4)?.close())
}

fn read(list: &mut ClosedList, file: &[u8]) -> u8 {
    match list.read(file) {
        Ok(()) => 0,
        Err(refusal) => u8::from(refusal),
    }
}

#[test]
fn a_list_is_written_and_read_back(rt: HostRuntime) -> Result<(), Fail> {
    let mut open = opened(rt, 3)?;
    assert!(rt; open.enter(1, GamePoints(-70)).is_ok());
    assert!(rt; open.enter(255, GamePoints(0)).is_ok());
    let list = open.close();
    let mut buffer = [7u8; 30];
    assert_eq!(rt; list.write(&mut buffer).ok().ok_or("too short")?, 24);
    assert!(rt; &buffer[0..24] == &FILE[..]);
    assert_eq!(rt; buffer[24], 7);
    assert!(rt; list.write(&mut buffer[0..23]).is_err());
    let mut other = empty(rt)?;
    assert_eq!(rt; read(&mut other, &FILE), 0);
    let totals = other.totals(2).ok().ok_or("no place")?;
    assert_eq!(rt; totals.rating.0, -120);
    Ok(())
}

#[test]
fn bad_files_are_refused_and_leave_the_list(rt: HostRuntime) -> Result<(), Fail> {
    let mut list = empty(rt)?;
    for (length, at, byte, number) in SPOILT {
        let mut file = [0u8; 25];
        file[0..24].copy_from_slice(&FILE);
        assert!(rt; at < 25 && length <= 25);
        file[at] = byte;
        assert_eq!(rt; read(&mut list, &file[0..length]), number);
        assert_eq!(rt; u8::from(list.places()), 4);
    }
    assert_eq!(rt; read(&mut list, &FILE), 0);
    assert_eq!(rt; u8::from(list.places()), 3);
    Ok(())
}

// The lowest and the highest points stand, and one beyond is refused.
#[test]
fn points_are_tested_at_their_ends(rt: HostRuntime) -> Result<(), Fail> {
    let mut list = empty(rt)?;
    for (points, number) in [(-541, 23), (-540, 0), (264, 0), (265, 23)] {
        let [low, high] = i16::to_le_bytes(points);
        let mut file = FILE;
        file[18] = low;
        file[19] = high;
        assert_eq!(rt; read(&mut list, &file), number);
    }
    Ok(())
}

#[test]
fn a_refused_file_is_reported_by_its_number(rt: HostRuntime) -> Result<(), Fail> {
    let text = report(rt.alloc(), b"SKL2 and nothing else")?;
    assert_eq!(rt; text.as_str(), "21\n");
    Ok(())
}
