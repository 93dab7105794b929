// The records that a frame of the tracker puts out.
#![tactic(auto)]

mod emission;
mod record;

pub use emission::emit;
