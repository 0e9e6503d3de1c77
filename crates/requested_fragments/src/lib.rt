// Requested fragments in lent rooms: the samples, and 64 words of bits for each.
#![tactic(auto)]

pub mod ask;
pub mod bits;
pub mod table;

pub use table::SampleFragment;
