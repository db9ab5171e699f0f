// Reading the file of a list.
ghost use Rattle.std.specs.Prelude.{◌≡◌, ◌+◌, ◌<◌, ◌≤◌, length, drop, ◌==◌};
ghost use Rattle.cards.specs.Refusals.{answered};
ghost use Rattle.series.specs.Format.{games as games_of, two_at, four_at, is_tag, HeaderRead, RowRead, RowsRead, FileRead, file_refusal, ListRead, ReadBack};

use super::lists::{ClosedList, Listed, Sheet};
use super::rows::{MOST_ROWS, Places, Row};
use super::writing::count_games;
use arrayvec::ArrayVec;
use cards::refusals::Refusal;
use cards::units::GamePoints;

// What a file's header says of its rows.
#[derive(Clone, Copy, Drop)]
struct Header {
    places: Places,
    games: usize,
    offset: usize,
}

// The number in two bytes, low byte first. `from_le_bytes` is of no trait, so one function for
// this and `four_at` would need a trait of its own.
fn two_at(bytes: &[u8], i: usize) -> usize
    requires { i + 1 < length bytes.now }
    ensures { result ≡ two_at bytes.now i }
{
    u16::from_le_bytes([bytes[i], bytes[i + 1]]) as usize
}

// The number in four bytes, low byte first.
fn four_at(bytes: &[u8], i: usize) -> usize
    requires { i + 3 < length bytes.now }
    ensures { result ≡ four_at bytes.now i }
{
    u32::from_le_bytes([bytes[i], bytes[i + 1], bytes[i + 2], bytes[i + 3]]) as usize
}

// Whether a file begins with the tag, which one pattern names.
fn is_tag(file: &[u8]) -> bool
    ensures { result ≡ is_tag file.now }
{
    matches!(file, [b'S', b'K', b'L', b'1', ..])
}

// Reads the first 16 bytes, or says why they are no header of these bytes.
fn read_header(file: &[u8]) -> Result<Header, Refusal>
    ensures { HeaderRead file.now result }
{
    if file.len() < 16 {
        return Err(Refusal::FileTooShort);
    }
    if !is_tag(file) {
        return Err(Refusal::WrongTag);
    }
    let places = Places::try_from(file[4])?;
    let rows = two_at(file, 6);
    let games = two_at(file, 8);
    let offset = two_at(file, 10);
    let length = four_at(file, 12);
    if file[5] != 0
        || rows > MOST_ROWS
        || offset != 16
        || length != 16 + 4 * rows
        || length != file.len()
    {
        return Err(Refusal::NotAList);
    }
    Ok(Header {
        places,
        games,
        offset,
    })
}

// The row in these four bytes.
fn read_row(bytes: [u8; 4]) -> Result<Row, Refusal>
    ensures { RowRead bytes result }
{
    let [role, second, low, high] = bytes;
    let points = i16::from_le_bytes([low, high]);
    match Row::new(role, GamePoints(points as i32)) {
        Ok(row) if second == 0 => Ok(row),
        _ => Err(Refusal::RowNotAllowed),
    }
}

// The rows in this part of a file, four bytes each.
fn read_rows(part: &[u8]) -> Result<ArrayVec<Row, MOST_ROWS>, Refusal>
    requires { length part.now ≤ 192 }
    ensures { RowsRead part.now result }
{
    let (rows_bytes, _) = part.as_chunks::<4>();
    let mut rows = ArrayVec::new();
    for bytes in rows_bytes {
        rows.push(read_row(*bytes)?);
    }
    Ok(rows)
}

// The part of a file from the offset of its rows on.
fn rows_part(file: &[u8], offset: usize) -> &[u8]
    requires { offset ≤ length file.now }
    ensures { result.now ≡ drop offset file.now }
{
    let (_, rows) = file.split_at(offset);
    rows
}

// Whether a header that says so many games is right about these rows.
fn games_agree(rows: &[Row], games: usize) -> bool
    ensures { result ≡ (games_of rows.now == games) }
{
    count_games(rows) == games
}

// The list whose file this is.
fn read_list(file: &[u8]) -> Result<Listed, Refusal>
    ensures { FileRead file.now result }
{
    let header = read_header(file)?;
    let rows = read_rows(rows_part(file, header.offset))?;
    if !games_agree(rows.as_slice(), header.games) {
        return Err(Refusal::WrongGamesCount);
    }
    Ok(Listed {
        places: header.places,
        rows,
    })
}

impl Sheet {
    // Puts the list that was read in the place of its own.
    fn refill(&mut self, listed: &Listed)
        ensures places { self.new.places ≡ listed.now.places }
        ensures rows { self.new.rows.items ≡ listed.now.rows.items }
    {
        self.places = listed.places;
        self.rows.clear();
        self.rows.extend_from_slice(listed.rows.as_slice()).unwrap();
    }
}

impl ClosedList {
    // Puts the list whose file this is in the place of this one, or refuses and leaves it.
    pub fn read(&mut self, file: &[u8]) -> Result<(), Refusal>
        ensures answer { result ≡ answered (file_refusal file.now) tt }
        ensures list { ListRead file.now result self.old.sheet.places self.old.sheet.rows.items self.new.sheet.places self.new.sheet.rows.items }
        ensures back { ReadBack file.now result self.new.sheet.places self.new.sheet.rows.items }
    {
        let listed = read_list(file)?;
        self.sheet.refill(&listed);
        Ok(())
    }
}
