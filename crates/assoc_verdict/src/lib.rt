// When a call of associate of assoc.rs is turned down.
#![tactic(auto)]

mod verdict;

pub use verdict::{Lengths, associate_verdict, within_verdict};
