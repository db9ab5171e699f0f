// How a deal moves: the plain record of a table, the rules of every call, and the code of the seven
// acting calls.
#![tactic(auto)]

pub mod acting;
pub mod announcing;
pub mod bidding;
pub mod calls;
pub mod dealing;
pub mod deals;
pub mod moments;
pub mod piles;
pub mod playing;
pub mod refusing;
pub mod serving;
