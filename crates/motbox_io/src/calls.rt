// Standard input and output under the program's name. A call that fails says so at once.
ghost use Rattle.std.specs.Prelude.{◌≤◌, length};
ghost use Rattle.program_io.specs.Input.{Within};

use program_io::{Streams, read_in, write_out};

// Writes out the records that wait at the front. False where a write failed.
pub(crate) fn flush(streams: Streams, used: usize, out: &[u8]) -> bool
    requires { used ≤ length out.now }
{
    write_out(streams, b"motbox: standard output", &out[..used])
}

// How many bytes were read. None: the read failed.
pub(crate) fn read(streams: Streams, room: &mut [u8]) -> Option<usize>
    ensures { Within (length room.old) result }
{
    read_in(streams, b"motbox: standard input", room)
}
