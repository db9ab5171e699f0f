// Runs of calls at a table, and the law that every run keeps.
#![tactic(auto)]

pub mod requests;
