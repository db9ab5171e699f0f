// A game that is over, as far as its worth depends on it.
use super::bids::Bid;
use super::levels::Level;
use cards::units::Eyes;

// How many tricks a side took.
#[derive(Clone, Copy, Debug, PartialEq, Eq, Drop)]
pub struct Tricks(pub u8);

// What a side has at the end.
#[derive(Clone, Copy, Debug, PartialEq, Eq, Drop)]
pub struct Side {
    pub eyes: Eyes,
    pub tricks: Tricks,
}

// How a game was announced, the highest bid, and what each side has at the end.
#[derive(Clone, Copy, Debug, PartialEq, Eq, Drop)]
pub struct Finished {
    pub hand: bool,
    pub level: Level,
    pub bid: Bid,
    pub declarer: Side,
    pub defenders: Side,
}
