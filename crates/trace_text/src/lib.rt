// The text around a trace: its input cut into lines, and its answers as lines.
#![tactic(auto)]

pub mod answer;
pub mod lines;

pub use answer::{Figures, put_answer};
pub use lines::{Cut, take_line};
