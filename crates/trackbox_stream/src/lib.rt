// The rules of trackbox on a stream of box records: document 01, "When a call is turned down", trackbox. Which records pass, and which frames they are of. Lent memory holds the boxes of the open frame.
#![tactic(auto)]

mod boxes;
mod rules;

pub use boxes::{hold, hold_label};
pub use rules::{Fault, Next, OpenFrame, Refusal, close, judge, start};
