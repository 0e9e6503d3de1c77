// Rising numbers in lent room.
#![tactic(auto)]

pub mod room;
pub mod run;
