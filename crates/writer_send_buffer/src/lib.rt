// A writer's send buffer: the flow record and admission, and the retained samples in a lent store.
#![tactic(auto)]

mod at_most;
mod flow;
mod frontiers;
mod in_place;
mod limits;
mod samples;

pub use flow::{Moved, Numbered, WriterSendBuffer};
pub use frontiers::Woken;
pub use limits::{Kind, Limits};
pub use numbers::Told;
pub use samples::{Admitted, Fetched, Located};
