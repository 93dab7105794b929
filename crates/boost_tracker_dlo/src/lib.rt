// The DLO boost of the scores: dlo_confidence_boost of boost_tracker.rs, over lent flat slices.
#![tactic(auto)]

mod dlo;
mod sizes;

pub use dlo::{DloSettings, dlo_confidence_boost};
