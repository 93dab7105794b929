#![tactic(auto)]

// The float functions of document 01 that pick: larger, smaller and the magnitude, each by a definition in specs/ that holds for every f32.
mod pick;

pub use pick::{abs, max, min};
