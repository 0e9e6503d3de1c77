// The C boundary: each call under a name of its own, on numbers, repr(C) structs and lent slices.
#![tactic(auto)]

pub mod fragments;
pub mod list;
pub mod reader;
pub mod set;
pub mod steps;
pub mod writer;
