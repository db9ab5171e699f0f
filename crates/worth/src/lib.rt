// What a game is worth: bids, tops, and what a finished game counts.
#![tactic(auto)]

pub mod announced;
pub mod bidding;
pub mod bids;
pub mod finished;
pub mod levels;
pub mod rated;
pub mod ratings;
pub mod tops;
pub mod values;
