// Standard input and output under the program's name, and a reader under a name of its own. A call that fails says so at once.
ghost use Rattle.std.specs.Prelude.{◌≤◌, length};
ghost use Rattle.program_io.specs.Input.{Within};

use program_io::{Streams, read_full, read_in, write_out};
use std::io::{Read, Stderr};

// Writes out what waits at the front of the text. False where a write failed.
// Kept: what each program calls its streams is said in one place of its own.
pub(crate) fn flush(streams: Streams, used: usize, text: &[u8]) -> bool
    requires { used ≤ length text.now }
{
    write_out(streams, b"trackbox: standard output", &text[..used])
}

// Reads on until the buffer is full, and answers how many bytes it read: a read may bring less than is there. None: a read failed. `what` is what standard error calls the reader where a read fails.
pub fn read<R: Read>(from: &mut R, errors: Stderr, what: &[u8], input: &mut [u8]) -> Option<usize>
    ensures { Within (length input.old) result }
{
    read_full(from, errors, what, input)
}

pub(crate) fn read_input(streams: Streams, input: &mut [u8]) -> Option<usize>
    ensures { Within (length input.old) result }
{
    read_in(streams, b"trackbox: standard input", input)
}
