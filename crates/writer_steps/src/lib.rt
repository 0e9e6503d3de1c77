// What a server runs: the steps of the writer, each of several calls under one answer. Their parameters are those of the entries in C, which lends each room by itself.
#![tactic(auto)]

pub mod acks;
mod flows;
pub mod frags;
pub mod many;
pub mod readers;
pub mod send;

pub use acks::AckTold;
pub use many::SentMany;
pub use send::Sent;
