// Standard input and output. A call that fails is said at once on standard error: `who` is what stands before the system's words, as `motbox: standard input`.
ghost use Rattle.std.specs.Prelude.{length};
ghost use Rattle.program_io.specs.Input.{Within};

use crate::calls::read_full;
use crate::failure::fail;
use std::io::{Print, Stderr, Stdin, Stdout};

// The three that a program has. Its `main` makes them.
#[derive(Clone, Copy)]
pub struct Streams {
    pub input: Stdin,
    pub output: Stdout,
    pub errors: Stderr,
}

// Reads until there is no room, or the end, and answers how many bytes it read. None: a call failed.
pub fn read_in(streams: Streams, who: &[u8], room: &mut [u8]) -> Option<usize>
    ensures { Within (length room.old) result }
{
    let mut from = streams.input;
    read_full(&mut from, streams.errors, who, room)
}

// Writes all of the bytes. False where a write failed.
pub fn write_out(streams: Streams, who: &[u8], bytes: &[u8]) -> bool {
    match streams.output.write_all(bytes) {
        Ok(()) => true,
        Err(e) => {
            fail(streams.errors, who, e);
            false
        }
    }
}
