// Opening a list, entering rows on it and closing it.
ghost use Rattle.std.specs.Prelude.{◌≡◌, ◌<◌, true, [], ◌∷◌, ◌++◌, vec_len, IfOk, MatchResult};
ghost use Rattle.cards.specs.Refusals.{answered};
ghost use Rattle.series.specs.declared.lists.NotOpened.TheVariants.{OutOfMemory};
ghost use Rattle.series.specs.Rows.{is_row, entry_refusal, Entered};
ghost use Rattle.series.specs.Opening.{IsEmpty, Opened};

use super::lists::{BadPlaces, ClosedList, List, NotOpened, OpenList, Sheet};
use super::rows::{MOST_ROWS, Places, Row, declarer_of};
use cards::refusals::Refusal;
use cards::units::GamePoints;
use std::alloc::{AllocError, Global};

impl From<AllocError> for NotOpened {
    ghost from_gives = { λ _ why. why ≡ OutOfMemory };

    fn from(_: AllocError) -> NotOpened {
        NotOpened::OutOfMemory
    }
}

impl Sheet {
    // Adds a row at the end, for which there is room.
    fn add(&mut self, row: Row)
        requires { (vec_len self.old.rows < 48) × (is_row row ≡ true) }
        ensures places { self.new.places ≡ self.old.places }
        ensures rows { self.new.rows.items ≡ self.old.rows.items ++ row ∷ [] }
    {
        self.rows.push_reserved(row);
    }
}

impl OpenList {
    // An empty list of these places.
    pub fn empty(heap: Global, places: Places) -> Result<OpenList, AllocError>
        ensures { IfOk result (λ list. IsEmpty places list) }
    {
        let rows = Vec::with_capacity(heap, MOST_ROWS)?;
        Ok(List::of(Sheet { places, rows }))
    }

    // An empty list of so many places, or a refusal with an empty list of three.
    pub fn open(heap: Global, places: u8) -> Result<OpenList, NotOpened>
        ensures { Opened places result }
    {
        match Places::try_from(places) {
            Ok(places) => Ok(OpenList::empty(heap, places)?),
            Err(refusal) => {
                let list = OpenList::empty(heap, Places::Three)?;
                Err(NotOpened::Refused(BadPlaces { refusal, list }))
            }
        }
    }

    // Enters the row of this role and these points. A role is a number as the rules give it,
    // 255 where the deal was passed in.
    pub fn enter(&mut self, role: u8, points: GamePoints) -> Result<(), Refusal>
        ensures answer { result ≡ answered (entry_refusal (vec_len self.old.sheet.rows) role points.0) tt }
        ensures places { self.new.sheet.places ≡ self.old.sheet.places }
        ensures rows { MatchResult result (λ _. Entered role points.0 self.old.sheet.rows.items self.new.sheet.rows.items) (λ _. self.new.sheet.rows.items ≡ self.old.sheet.rows.items) }
    {
        let declarer = declarer_of(role)?;
        if self.sheet.rows.len() >= MOST_ROWS {
            return Err(Refusal::ListFull);
        }
        let row = Row::of(declarer, points)?;
        self.sheet.add(row);
        Ok(())
    }

    // Closes the list, at any length.
    pub fn close(self) -> ClosedList
        ensures { result.sheet ≡ self.sheet }
    {
        List::of(self.sheet)
    }
}
