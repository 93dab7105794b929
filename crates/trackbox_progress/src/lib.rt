// Where a run of trackbox stands between two turns: what is known then, and what follows where a call failed, what waits is written out or a record is taken.
#![tactic(auto)]

mod progress;

pub use progress::{Progress, emptied, item, later, needed, spent, start, stopped};
