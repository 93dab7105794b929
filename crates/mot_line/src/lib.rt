// A line of MOTChallenge detection text as a box record, a line a call: change request N1.
#![tactic(auto)]

mod call;
mod line;

pub use call::{MOST_FRAMES_ON, Refusal, mot_line};
pub use line::box_of_line;
