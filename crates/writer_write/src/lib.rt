// A write that tells every reader, in place: the readers' proxies side by side in one lent list, their unsent rooms side by side in one lent room, as C lends them.
#![tactic(auto)]

pub mod coherent;
mod places;
pub mod put;
pub mod write;
