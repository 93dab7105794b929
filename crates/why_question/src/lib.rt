// What the program why is asked, and when the frame that is asked about is due.
#![tactic(auto)]

mod due;
mod question;

pub use due::{Due, Move, decide};
pub use question::{Question, number_of};
