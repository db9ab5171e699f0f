// What a deal shows: a seat's sight, the cards that it may play, and what a settled deal counts.
#![tactic(auto)]

mod hands;
pub mod permitted;
pub mod results;
pub mod sight;
