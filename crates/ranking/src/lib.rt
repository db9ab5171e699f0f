// Who stands where: the order of a list's places, and the report that names it.
#![tactic(auto)]

pub mod places;
pub mod reports;
pub mod standings;
