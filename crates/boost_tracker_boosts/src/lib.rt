// What both boosts of the scores share: the largest of a row, and the verdict on a call by its sizes.
#![tactic(auto)]

mod rows;
mod sizes;

pub use refusals::too_many;
pub use rows::largest;
pub use sizes::of_boost;
