// One reader as the writer keeps it: a small proxy by value, its rooms lent. C lends each room by itself, so they stay parameters beside it.
#![tactic(auto)]

pub mod acks;
pub mod fragments;
pub mod gaps;
pub mod proxy;
pub mod unsent;

pub use proxy::ReaderProxy;
