// Answers in C's form: a struct of include/bedside.h for each, and what fills it.
#![tactic(auto)]

pub mod assignment;
pub mod filter;
pub mod forget;
pub mod frame;
pub mod mot;
pub mod pairs;
pub mod why;
