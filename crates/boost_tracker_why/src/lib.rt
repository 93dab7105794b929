// Why a box has no track: the fate of one box of a frame, by the frame's own steps 1 to 5, and with the table as it was.
#![tactic(auto)]

mod met;
mod refusal;
mod tool;

pub use boost_tracker_fate::{Explanation, Fate, Lot, Partner};
pub use refusal::WhyRefusal;
pub use tool::why;
