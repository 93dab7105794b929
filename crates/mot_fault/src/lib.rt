// What is wrong with a line of MOTChallenge detection text that is turned away, for a person to read: which field, and why. Change request N1.
#![tactic(auto)]

mod field;
mod kinds;
mod line;
mod value;

pub use kinds::{Fault, Found, Report};
pub use line::report;
