// The numbers of MOTChallenge text: a frame number, and a decimal as an f32; and where a byte first stands in a text. Change request N1.
#![tactic(auto)]

mod fraction;
mod number;
mod scan;

pub use number::{frame_of, number_of};
pub use scan::find;
