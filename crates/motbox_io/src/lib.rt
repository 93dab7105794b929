// Lines of MOTChallenge detection text from standard input, and their box records to standard output. Both go through a buffer of 64 KiB, and no memory grows with the input.
// A line that is turned away ends it, and so does the first read or write that fails: what is on standard output is a prefix of what the whole input gives, and standard error says why.
#![tactic(auto)]

mod calls;
mod lines;
mod progress;
mod turns;
mod words;

pub use progress::Progress;
pub use turns::run;
