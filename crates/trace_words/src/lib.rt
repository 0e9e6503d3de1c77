// An answer in words, for people.
#![tactic(auto)]

pub mod explained;
pub mod figures;
pub mod meaning;
pub mod shown;

pub use explained::put_explained;
