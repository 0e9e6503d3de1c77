// Sets as RTPS writes them: a base, a bit count 0 to 256, and eight words of 32 bits, the first bit highest.
// The two kinds are two structs and not one with a type parameter: the C interface, where what is exported may have none.
#![tactic(auto)]

pub mod fragment_number_set;
pub mod number_set;
pub mod sequence_number_set;

pub use fragment_number_set::{FragmentNumberSet, WrittenFragments};
pub use number_set::NumberSet;
pub use sequence_number_set::{Listed, SequenceNumberSet, WrittenNumbers};
