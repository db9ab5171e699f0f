// What a card means in a game: the kinds of game, and who takes a trick.
#![tactic(auto)]

pub mod games;
pub mod kind;
pub mod tricks;
