// What is written down: the list of a series, its totals and its file.
#![tactic(auto)]

pub mod entering;
pub mod lines;
pub mod lists;
pub mod reading;
pub mod rows;
pub mod totals;
pub mod writing;
