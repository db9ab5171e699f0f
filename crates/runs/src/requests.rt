// What is asked of a table, and what it answers.
use cards::refusals::Refusal;
use cards::units::GamePoints;
use rules::calls::Call;

// One of the ten calls, by the number of a seat, since any number may ask and is answered: an acting
// call, a sight into a buffer of some length, the permitted cards, or the result, which no seat asks
// for.
#[derive(Clone, Copy, Debug, PartialEq, Eq, Drop)]
pub enum Request {
    Act(u8, Call),
    Sight(u8, usize),
    Permitted(u8),
    Result,
}

// What it is answered: that it was accepted, the bytes of a sight, the permitted cards as bits, or
// declarer and game points; or a refusal.
#[derive(Clone, Copy, Debug, PartialEq, Eq, Drop)]
pub enum Answer {
    Acted(Result<(), Refusal>),
    Saw(Result<[u8; 42], Refusal>),
    May(u32),
    Counted(Result<(u8, GamePoints), Refusal>),
}
