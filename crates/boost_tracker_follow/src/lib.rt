// Steps 6 and 7 of a frame, over the lent table.
#![tactic(auto)]

mod corrections;

pub use corrections::follow;
