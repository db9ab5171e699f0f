// Writing the file of a list.
ghost use Rattle.std.specs.Prelude.{◌≡◌, ◌+◌, ◌*◌, ◌<◌, ◌≤◌, true, ◌++◌, length, drop};
ghost use Rattle.std.specs.List.{flat_map};
ghost use Rattle.series.specs.Format.{games, header, row_bytes, file_of, written, Written};
ghost use Rattle.series.specs.Rows.{places_number, role_number, is_row, is_game};

use super::lists::{ClosedList, Sheet};
use super::rows::Row;
use cards::refusals::Refusal;

impl Row {
    // The row's role, which is a number as the rules give it: the declarer's, or 255 where the
    // deal was passed in.
    pub fn role(self) -> u8
        ensures { result ≡ role_number self }
    {
        match self {
            Row::PassedIn => 255,
            Row::Game(declarer, _) => u8::from(declarer),
        }
    }

    // A deal that was passed in is a row and no game.
    pub fn is_game(self) -> bool
        ensures { result ≡ is_game self }
    {
        self != Row::PassedIn
    }
}

// How many of the rows are games.
pub(super) fn count_games(rows: &[Row]) -> usize
    ensures { result ≡ games rows.now }
{
    let mut games = 0;
    for row in rows {
        games += usize::from(row.is_game());
    }
    games
}

// A row's four bytes: role, zero, points.
fn row_bytes(row: Row) -> [u8; 4]
    requires { is_row row ≡ true }
    ensures { result ≡ row_bytes row }
{
    let [low, high] = (row.points().0 as i16).to_le_bytes();
    [row.role(), 0, low, high]
}

impl Sheet {
    // How many bytes the list's file has.
    fn file_length(&self) -> usize
        ensures { result ≡ length (file_of self.now.places self.now.rows.items) }
    {
        16 + 4 * self.rows.len()
    }

    // The first 16 bytes: tag, places, zero, rows, games, offset of the first row, whole length.
    fn header(&self) -> [u8; 16]
        ensures { result ≡ header (places_number self.now.places) (length self.now.rows.items) (games self.now.rows.items) }
    {
        let rows = self.rows.as_slice();
        let [a, b] = (rows.len() as u16).to_le_bytes();
        let [c, d] = (count_games(rows) as u16).to_le_bytes();
        let [e, f, g, h] = (16 + 4 * rows.len() as u32).to_le_bytes();
        [
            b'S',
            b'K',
            b'L',
            b'1',
            u8::from(self.places),
            0,
            a,
            b,
            c,
            d,
            16,
            0,
            e,
            f,
            g,
            h,
        ]
    }

    // Writes the rows' bytes into the front of the buffer. Tried over its chunks: nothing is
    // known of what a slice holds after such a loop, so the proof does not close.
    fn write_rows(&self, buffer: &mut [u8])
        requires { 4 * length self.now.rows.items ≤ length buffer.old }
        ensures { buffer.new ≡ flat_map row_bytes self.now.rows.items ++ drop (4 * length self.now.rows.items) buffer.old }
    {
        for (i, &row) in self.rows.iter().enumerate() {
            buffer[4 * i..4 * i + 4].copy_from_slice(&row_bytes(row));
        }
    }

    // Writes the list's file into the front of the buffer, where it fits.
    fn fill(&self, buffer: &mut [u8])
        requires { length (file_of self.now.places self.now.rows.items) ≤ length buffer.old }
        ensures { buffer.new ≡ written (file_of self.now.places self.now.rows.items) buffer.old }
    {
        let header = self.header();
        buffer[0..16].copy_from_slice(&header);
        self.write_rows(&mut buffer[16..]);
    }
}

impl ClosedList {
    // Writes the list's file into the front of the buffer and answers its length.
    pub fn write(&self, buffer: &mut [u8]) -> Result<usize, Refusal>
        ensures { Written (file_of self.now.sheet.places self.now.sheet.rows.items) buffer.old buffer.new result }
    {
        let length = self.sheet.file_length();
        if buffer.len() < length {
            return Err(Refusal::BufferTooShort);
        }
        self.sheet.fill(buffer);
        Ok(length)
    }
}
