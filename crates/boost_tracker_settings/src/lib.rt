#![tactic(auto)]

// The settings of a tracker.
mod settings;

pub use settings::Settings;
