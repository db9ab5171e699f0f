// Three counts that players all call points, each with a type of its own so that none is
// taken for another.
ghost use Rattle.std.specs.Prelude.{Some};
ghost use Rattle.std.specs.Fmt.{signed_decimal};

use std::fmt;

// What cards count in a trick; 120 in all.
#[derive(Clone, Copy, Debug, PartialEq, Eq, Drop)]
pub struct Eyes(pub u8);

// What a game counts for its declarer, or the sum of several games.
#[derive(Clone, Copy, Debug, PartialEq, Eq, Drop)]
pub struct GamePoints(pub i32);

// What a place of a list stands at: game points with the shares for games won and lost.
#[derive(Clone, Copy, Debug, Default, PartialEq, Eq, Drop)]
pub struct Rating(pub i32);

// The two texts are alike and stand twice, since no impl may be written by a macro.
impl fmt::Display for GamePoints {
    ghost output = { λ points. Some (signed_decimal points.0) };

    fn fmt<W: fmt::Write>(&self, f: &mut fmt::Formatter<W>) -> fmt::Result {
        let points = self.0;
        write!(f, "{points}")
    }
}

impl fmt::Display for Rating {
    ghost output = { λ rating. Some (signed_decimal rating.0) };

    fn fmt<W: fmt::Write>(&self, f: &mut fmt::Formatter<W>) -> fmt::Result {
        let rating = self.0;
        write!(f, "{rating}")
    }
}
