// Sequence numbers and fragment numbers, kept apart; and the numbers that calls return, in the order in which they apply.
#![tactic(auto)]

pub mod answer;
pub mod answers;
pub mod cursor;
pub mod fragment_number;
pub mod refusal;
pub mod sequence_number;

pub use answer::{Answer, Told};
pub use cursor::{Cursor, FragmentCursor, NextFragment, NextNumber};
pub use fragment_number::FragmentNumber;
pub use refusal::Refusal;
pub use sequence_number::SequenceNumber;
