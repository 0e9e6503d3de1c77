// The readers of a writer, side by side in one lent list.
#![tactic(auto)]

pub mod calls;
pub mod changes;
pub mod heads;
mod ids;
mod looks;

pub use calls::{Acked, Found, Front, Match};
pub use heads::{AckedFrontier, ReaderHead};
