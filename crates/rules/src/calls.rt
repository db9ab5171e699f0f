// What a seat can do at the table.
use cards::deck::Card;
use worth::announced::Game;
use worth::bids::Bid;
use worth::levels::Level;

// The seven acting calls, with the numbers that a seat names: a bid, card numbers, a game and a
// level. They stay numbers here, since any number can be named and is refused in its turn.
#[derive(Clone, Copy, Debug, PartialEq, Eq, Drop)]
pub enum Call {
    Bid(u16),
    Hold,
    Pass,
    Take,
    Put(u8, u8),
    Announce(u8, u8),
    Play(u8),
}

// A call that is refused for nothing, with what its numbers name.
#[derive(Clone, Copy, Debug, PartialEq, Eq, Drop)]
pub enum Act {
    Bid(Bid),
    Hold,
    Pass,
    Take,
    Put(Card, Card),
    Announce(Game, Level),
    Play(Card),
}
