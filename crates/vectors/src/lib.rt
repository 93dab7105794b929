// What the programs that replay fixed lists share besides their digests: words of standard input and floats made of them, cells drawn
// by random numbers, and what is printed (docs/ORACLE.md).
#![tactic(auto)]

pub mod cells;
pub mod held;
pub mod input;
pub mod lent;
pub mod line;
pub mod part;
