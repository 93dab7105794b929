// Floats of bit patterns and the words that stand for floats, random numbers, and digests: what the programs that replay fixed lists compare by (docs/ORACLE.md).
#![tactic(auto)]

pub mod digest;
pub mod floats;
pub mod random;
