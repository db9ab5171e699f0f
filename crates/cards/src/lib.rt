// What is dealt: the 32 cards, the pack that is cut and dealt, the units that a game is
// counted in, every refusal's number, and the search for the first of several things.
#![tactic(auto)]

pub mod cutting;
pub mod dealing;
pub mod deck;
pub mod first;
pub mod order;
pub mod packs;
pub mod refusals;
pub mod seats;
pub mod units;
