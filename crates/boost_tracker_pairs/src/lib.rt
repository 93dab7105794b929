// Steps 1 to 5 of a frame, over a lent table that they only read. One file for each part: what is gathered, the boosts, the boxes that are retained, and the steps in a row.
#![tactic(auto)]

mod boost;
mod gather;
mod pairing;
mod retain;

pub use boost_tracker_seen::Seen;
pub use gather::xyxy_at;
pub use pairing::{Prepared, pairs, prepare};
