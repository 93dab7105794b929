// What became of a box, by what the lists of the pairs say of it, and the track that it was paired with.
#![tactic(auto)]

mod kinds;
mod met;
mod places;

pub use kinds::{Explanation, Fate, Lot, Partner};
pub use met::{nobody, partner};
pub use places::{lot_of, place_of, told, track_of};
