// A trace followed line by line: the lines about the writer, and any line answered.
#![tactic(auto)]

pub mod follow;
pub mod write;
pub mod writer;
