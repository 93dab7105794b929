// A stream of box records from standard input, and its lines to standard output. Both go through a buffer of 64 KiB, and no memory grows with the input.
// The first read or write that fails ends it: what is on standard output is a prefix of what the whole input prints, and a line on standard error says what failed.
#![tactic(auto)]

mod calls;
mod progress;
mod turns;

pub use calls::read;
pub use turns::run;
