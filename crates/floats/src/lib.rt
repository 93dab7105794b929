#![tactic(auto)]

// The float functions of document 01 but those that pick (floats_pick) and the powers (floats_power): the square root and the exponential, each by a definition in specs/ that holds for every f32.
mod exponential;
mod packing;
mod root;

pub use exponential::exp;
pub use root::sqrt;
