// The tracker: `update` of boost_tracker.rs, without ECC, over lent memory.
#![tactic(auto)]

mod frame;

pub use boost_tracker_settings::Settings;
pub use boost_tracker_verdict::{Refusal, State};
pub use frame::{UpdateAnswer, update};
