// A deal at the table as a plain record: what every seat may see, where each card lies, and the
// twelve cards on which the declarer's tops are counted.
use super::moments::Moment;
use cards::deck::Card;
use cards::seats::Seat;
use worth::announced::Game;
use worth::levels::Level;

// Who bids to whom.
#[derive(Clone, Copy, Debug, PartialEq, Eq, Drop)]
pub enum Pair {
    MiddlehandToForehand,
    RearhandToForehand,
    RearhandToMiddlehand,
}

// A game as its declarer announced it.
#[derive(Clone, Copy, Debug, PartialEq, Eq, Drop)]
pub struct Announcement {
    pub declarer: Seat,
    pub game: Game,
    pub level: Level,
    pub hand: bool,
}

// How far the deal has a declarer: not yet or not at all, one who is to decide, one who took the
// skat, or one who announced a game.
#[derive(Clone, Copy, Debug, PartialEq, Eq, Drop)]
pub enum Contract {
    Undecided,
    Won(Seat),
    SkatTaken(Seat),
    Announced(Announcement),
}

// The trick on the table: none yet, one or two cards of the open trick, or the last trick, which
// lies there until the next lead.
#[derive(Clone, Copy, Debug, PartialEq, Eq, Drop)]
pub enum Trick {
    Empty,
    One(Card),
    Two(Card, Card),
    Full(Card, Card, Card),
}

// How many tricks each side has.
#[derive(Clone, Copy, Debug, PartialEq, Eq, Drop)]
pub struct Taken {
    pub declarer: u8,
    pub defenders: u8,
}

// The play: the tricks of each side, who leads or has led, and the trick on the table.
#[derive(Clone, Copy, Debug, PartialEq, Eq, Drop)]
pub struct Board {
    pub taken: Taken,
    pub leader: Seat,
    pub trick: Trick,
}

// What every seat may see. In a settled deal `turn` means nothing, and a bid of 0 is none. They
// are no `Option`s: the rules tell a highest bid of 0, and the law reads both in every moment.
#[derive(Clone, Copy, Debug, PartialEq, Eq, Drop)]
pub struct Common {
    pub moment: Moment,
    pub turn: Seat,
    pub pair: Pair,
    pub bid: u16,
    pub contract: Contract,
    pub board: Board,
}

// Where a card can lie. The skat is also where the put cards lie.
#[derive(Clone, Copy, Debug, PartialEq, Eq, Drop)]
pub enum Pile {
    InHand(Seat),
    InSkat,
    InTrick,
    WithDeclarer,
    WithDefenders,
}

// The whole deal. Only the piles, by the cards' numbers, hold what a seat may not know, and with
// them the copy of the declarer's ten dealt cards and the skat, made at the announcement: twelve
// cards by value, as the rules ask.
#[derive(Clone, Copy, Debug, PartialEq, Eq, Drop)]
pub struct Deal {
    pub common: Common,
    pub piles: [Pile; 32],
    pub twelve: Option<[Card; 12]>,
}
