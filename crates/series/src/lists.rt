// Lists: an open one takes rows, a closed one is written and read. Neither is copied, so that
// a row cannot be entered on a list once it is closed.
ghost use Rattle.std.specs.Prelude.{◌≡◌, ◌≤◌, true, vec_len, vec_capacity};
ghost use Rattle.series.specs.Rows.{are_rows};

use super::rows::{MOST_ROWS, Places, Row};
use arrayvec::ArrayVec;
use cards::refusals::Refusal;
use std::marker::PhantomData;

// What every list has: its places and at most 48 rows, with room for as many.
#[derive(Drop)]
pub(super) struct Sheet {
    pub(super) places: Places,
    pub(super) rows: Vec<Row>,
    ghost few: { vec_len rows ≤ 48 },
    ghost room: { 48 ≤ vec_capacity rows },
    ghost valid: { are_rows rows.items ≡ true },
}

// A list as it is read from a file, before it stands in the place of another.
#[derive(Drop)]
pub(super) struct Listed {
    pub(super) places: Places,
    pub(super) rows: ArrayVec<Row, MOST_ROWS>,
    ghost valid: { are_rows rows.items ≡ true },
}

// A list that is open takes rows.
#[derive(Drop)]
pub struct Open;

// A list that is closed takes no more rows, and has a file.
#[derive(Drop)]
pub struct Closed;

// A list, open or closed.
#[derive(Drop)]
pub struct List<S> {
    pub(super) sheet: Sheet,
    state: PhantomData<S>,
}

pub type OpenList = List<Open>;

pub type ClosedList = List<Closed>;

impl<S> List<S> {
    // The list of these places and rows.
    pub(super) fn of(sheet: Sheet) -> List<S>
        ensures { result.sheet ≡ sheet }
    {
        List {
            sheet,
            state: PhantomData,
        }
    }
}

// A refusal, with the empty list of three places that there is instead; a pair would name neither.
#[derive(Drop)]
pub struct BadPlaces {
    pub refusal: Refusal,
    pub list: OpenList,
}

// Why no list was opened as asked.
#[derive(Drop)]
pub enum NotOpened {
    Refused(BadPlaces),
    OutOfMemory,
}
