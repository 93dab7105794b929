// The DUO boost of the scores: duo_confidence_boost of boost_tracker.rs, over lent flat slices.
#![tactic(auto)]

mod duo;

pub use duo::duo_confidence_boost;
