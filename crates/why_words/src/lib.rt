// What is printed of a box, in words and numbers: the line of an explanation, and that a frame has no such box.
#![tactic(auto)]

mod lines;
mod puts;
mod value;

pub use lines::{LINE_MOST, write_explanation, write_no_box};
