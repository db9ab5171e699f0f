// Examples that a person would try, run against the proved crates. The tests stand apart from
// those crates, since a crate with tests is proved twice.
#![tactic(auto)]

#[cfg(test)]
mod files;
#[cfg(test)]
mod games;
#[cfg(test)]
mod lists;
#[cfg(test)]
mod packs;
#[cfg(test)]
mod standings;
#[cfg(test)]
mod tables;
