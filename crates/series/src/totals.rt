// What a list counts for a place.
ghost use Rattle.std.specs.Prelude.{◌≡◌, ◌+◌, ◌*◌, ◌%◌, ◌<◌, ◌≤◌, true, pos, ◌+ℤ◌, neg_ℤ, ◌≤ℤ◌, Some, if◌then◌else◌};
ghost use Rattle.series.specs.Lines.{totals_numbers};
ghost use Rattle.series.specs.Rows.{places_number, points_of, is_row};
ghost use Rattle.series.specs.Totals.{place_of as place_in, sits as sits_in, declares as declares_in, defends as defends_in, is_won, is_lost, counts_for, wins_in, loses_in, defends_loss_in, IsTally, rating_of, totals_answer};

use super::lists::{List, Sheet};
use super::rows::{Places, Row};
use cards::refusals::Refusal;
use cards::seats::Seat;
use cards::units::{GamePoints, Rating};
use std::fmt;
use std::fmt::Display;

// A place's game points, games won, games lost and rating.
#[derive(Clone, Copy, Debug, PartialEq, Eq, Drop)]
pub struct Totals {
    pub points: GamePoints,
    pub won: u32,
    pub lost: u32,
    pub rating: Rating,
}

impl Display for Totals {
    ghost output = { λ totals. Some (totals_numbers totals) };

    // Game points, games won, games lost and rating, with a space between each two.
    fn fmt<W: fmt::Write>(&self, f: &mut fmt::Formatter<W>) -> fmt::Result {
        let Totals {
            points,
            won,
            lost,
            rating,
        } = self;
        write!(f, "{points} {won} {lost} {rating}")
    }
}

// What the rating is made of.
#[derive(Clone, Copy, Drop)]
struct Tally {
    points: GamePoints,
    won: u32,
    lost: u32,
    defended: u32,
}

// A row of a list as one of its places counts it: how many places there are, which of them it
// is, how many rows stand before, and the row.
#[derive(Clone, Copy, Drop)]
struct RowFor {
    places: Places,
    place: usize,
    i: usize,
    row: Row,
    ghost early: { i < 48 },
    ghost valid: { is_row row ≡ true },
}

impl RowFor {
    // The place that has this seat: the dealer's is i modulo places, and the seats are the
    // next three.
    fn place_of(self, seat: Seat) -> usize
        ensures { result ≡ place_in (places_number self.places) self.i seat }
    {
        let n = u8::from(self.places) as usize;
        (self.i % n + 1 + u8::from(seat) as usize) % n
    }

    // Whether the place has a seat.
    fn sits(self) -> bool
        ensures { result ≡ sits_in (places_number self.places) self.place self.i }
    {
        self.place_of(Seat::Forehand) == self.place
            || self.place_of(Seat::Middlehand) == self.place
            || self.place_of(Seat::Rearhand) == self.place
    }

    // Whether the place is the declarer.
    fn declares(self) -> bool
        ensures { result ≡ declares_in (places_number self.places) self.place self.i self.row }
    {
        match self.row {
            Row::PassedIn => false,
            Row::Game(declarer, _) => self.place_of(declarer) == self.place,
        }
    }

    // Whether the place is a defender.
    fn defends(self) -> bool
        ensures { result ≡ defends_in (places_number self.places) self.place self.i self.row }
    {
        match self.row {
            Row::PassedIn => false,
            Row::Game(declarer, _) => self.sits() && self.place_of(declarer) != self.place,
        }
    }

    // What the row counts for the place.
    fn points(self) -> GamePoints
        ensures value { result.0 ≡ counts_for (places_number self.places) self.place self.i self.row }
        ensures low { neg_ℤ (pos 540) ≤ℤ result.0 }
        ensures high { result.0 ≤ℤ pos 264 }
    {
        if self.declares() {
            self.row.points()
        } else {
            GamePoints(0)
        }
    }
}

impl Row {
    // What the row counts for its declarer; 0 where the deal was passed in.
    pub fn points(self) -> GamePoints
        ensures { result.0 ≡ points_of self }
    {
        match self {
            Row::PassedIn => GamePoints(0),
            Row::Game(_, points) => points,
        }
    }

    // Whether the row is a game that was won.
    pub fn is_won(self) -> bool
        ensures { result ≡ is_won self }
    {
        self.points().0 > 0
    }

    // Whether the row is a game that was lost.
    pub fn is_lost(self) -> bool
        ensures { result ≡ is_lost self }
    {
        self.points().0 < 0
    }
}

impl Tally {
    // The tally with a deal's row counted too. Its bounds grow with the number of rows, so they are
    // asked here, and are no invariant of a tally.
    fn with_row(self, deal: RowFor) -> Tally
        requires points { (neg_ℤ (pos (540 * deal.i)) ≤ℤ self.points.0) × (self.points.0 ≤ℤ pos (264 * deal.i)) }
        requires games { (self.won ≤ deal.i) × ((self.lost ≤ deal.i) × (self.defended ≤ deal.i)) }
        ensures points { result.points.0 ≡ self.points.0 +ℤ counts_for (places_number deal.places) deal.place deal.i deal.row }
        ensures won { result.won ≡ self.won + (if wins_in (places_number deal.places) deal.place deal.i deal.row then 1 else 0) }
        ensures lost { result.lost ≡ self.lost + (if loses_in (places_number deal.places) deal.place deal.i deal.row then 1 else 0) }
        ensures defended { result.defended ≡ self.defended + (if defends_loss_in (places_number deal.places) deal.place deal.i deal.row then 1 else 0) }
        ensures low { neg_ℤ (pos (540 * (deal.i + 1))) ≤ℤ result.points.0 }
        ensures high { result.points.0 ≤ℤ pos (264 * (deal.i + 1)) }
    {
        let declares = deal.declares();
        let lost = deal.row.is_lost();
        Tally {
            points: GamePoints(self.points.0 + deal.points().0),
            won: self.won + u32::from(declares && deal.row.is_won()),
            lost: self.lost + u32::from(declares && lost),
            defended: self.defended + u32::from(deal.defends() && lost),
        }
    }

    // Game points, 50 for each game won, less 50 for each game lost, and 40 for each loss
    // defended. What it asks are the bounds of `with_row` at 48 rows.
    fn rating(self) -> Rating
        requires points { (neg_ℤ (pos (540 * 48)) ≤ℤ self.points.0) × (self.points.0 ≤ℤ pos (264 * 48)) }
        requires games { (self.won ≤ 48) × ((self.lost ≤ 48) × (self.defended ≤ 48)) }
        ensures { result.0 ≡ rating_of self.points.0 self.won self.lost self.defended }
    {
        let plus = 50 * self.won + 40 * self.defended;
        let minus = 50 * self.lost;
        Rating(self.points.0 + plus as i32 - minus as i32)
    }
}

impl Sheet {
    // What the rows count for a place. The sum of points has a sign, so that it stays in its
    // bounds is shown row by row.
    fn tally(&self, place: usize) -> Tally
        ensures { IsTally (places_number self.now.places) place self.now.rows.items result }
    {
        let mut tally = Tally {
            points: GamePoints(0),
            won: 0,
            lost: 0,
            defended: 0,
        };
        let places = self.places;
        for (i, &row) in self.rows.iter().enumerate() {
            tally = tally.with_row(RowFor {
                places,
                place,
                i,
                row,
            });
        }
        tally
    }

    // What the list counts for a place, if it has that place.
    pub(super) fn totals(&self, place: u8) -> Result<Totals, Refusal>
        ensures { result ≡ totals_answer (places_number self.now.places) place self.now.rows.items }
    {
        if place >= u8::from(self.places) {
            return Err(Refusal::NoSuchEntry);
        }
        let tally = self.tally(place as usize);
        Ok(Totals {
            points: tally.points,
            won: tally.won,
            lost: tally.lost,
            rating: tally.rating(),
        })
    }
}

impl<S> List<S> {
    pub fn places(&self) -> Places
        ensures { result ≡ self.now.sheet.places }
    {
        self.sheet.places
    }

    // The rows, in order.
    pub fn rows(&self) -> &[Row]
        ensures { result.now ≡ self.now.sheet.rows.items }
    {
        self.sheet.rows.as_slice()
    }

    // What the list counts for a place.
    pub fn totals(&self, place: u8) -> Result<Totals, Refusal>
        ensures { result ≡ totals_answer (places_number self.now.sheet.places) place self.now.sheet.rows.items }
    {
        self.sheet.totals(place)
    }
}
