// Steps 1 to 7 of a frame, over the lent table.
#![tactic(auto)]

mod all_steps;

pub use all_steps::{Advanced, advance};
