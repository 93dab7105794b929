// Reads of a reader. One that fails says so at once on standard error: `who` is what stands before the system's words, as `motbox: standard input`.
ghost use Rattle.std.specs.Prelude.{◌≡◌, length};
ghost use Rattle.program_io.specs.Input.{Within, input_of};

use crate::failure::fail;
use std::io;
use std::io::{Read, Stderr};

// How many bytes a call read. None: it failed, and that is said.
fn input_of(errors: Stderr, who: &[u8], got: io::Result<usize>) -> Option<usize>
    ensures { result ≡ input_of got }
{
    match got {
        Ok(n) => Some(n),
        Err(e) => {
            fail(errors, who, e);
            None
        }
    }
}

// How many bytes one call read: it may bring less than is there, and brings nothing at the end.
fn read<R: Read>(from: &mut R, errors: Stderr, who: &[u8], room: &mut [u8]) -> Option<usize>
    ensures { Within (length room.old) result }
{
    let got = from.read(room);
    input_of(errors, who, got)
}

// Reads on until there is no room, or the end, and answers how many bytes it read: what is less than there is room for is the last. None: a call failed.
pub fn read_full<R: Read>(
    from: &mut R,
    errors: Stderr,
    who: &[u8],
    room: &mut [u8],
) -> Option<usize>
    ensures { Within (length room.old) result }
{
    let size = room.len();
    let mut n = 0;
    // Kept: n grows by what a call read, not by one.
    while n < size {
        let more = read(from, errors, who, &mut room[n..])?;
        if more == 0 {
            return Some(n);
        }
        n += more;
    }
    Some(n)
}
