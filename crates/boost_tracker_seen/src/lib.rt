// What is told of one box of a frame, and of a track by its time since update.
#![tactic(auto)]

mod seen;

pub use seen::{Seen, score_at, seen_in, since_predicted};
