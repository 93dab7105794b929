// The lent table of tracks: a place for each, its label beside it, and the operations on them.
#![tactic(auto)]

mod ids;
mod place;
mod table;
mod table_labels;

pub use ids::listed;
pub use place::{PLACE_COUNTERS, PLACE_FLOATS};
pub use table::{
    append, capacity, clear_beyond, correct, drop_tracks, load, placed, places_in, predict_all,
    retire,
};
pub use table_labels::{clear_labels, drop_labels, retire_labels};
