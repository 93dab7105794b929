// A file of box records, worked as trackbox does up to one frame, and what becomes of one box of that frame. No memory grows with the file.
#![tactic(auto)]

mod asking;
mod turns;

pub use turns::{Ran, TEXT_BYTES, run};
