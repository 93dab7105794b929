// What the programs share: the calls that read and write, each once, and where bytes end in a buffer. A read that fails is told from the end of the input.
#![tactic(auto)]

mod arguments;
mod buffer;
mod calls;
mod failure;
mod standard;

pub use arguments::{argument, has_argument};
pub use buffer::end_of;
pub use calls::read_full;
pub use failure::fail;
pub use standard::{Streams, read_in, write_out};
