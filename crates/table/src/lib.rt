// The table at which a deal is played: the ten calls, and whole runs of them.
#![tactic(auto)]

pub mod acting;
pub mod asked;
pub mod running;
pub mod seeing;
pub mod tables;
