// What refusals share: why a call of a pairing routine is turned down, with its number, whether two sides are too many, and the larger and the smaller of them.
#![tactic(auto)]

mod refusal;
mod sides;

pub use refusal::Refusal;
pub use sides::{larger, smaller, too_many};
