// The arguments that a program was started with, of which the first is its name.
ghost use Rattle.std.specs.Prelude.{◌≤◌, length};

use std::env::{Env, FillError};

// The program was started with an argument i.
pub fn has_argument<E: Env>(env: &E, i: usize) -> bool {
    let mut front = [0u8; 1];
    !matches!(env.arg(i, &mut front), Err(FillError::NotPresent))
}

// Argument i at the front of the room, and how long it is; 0 where it is missing, or longer than the room.
pub fn argument<E: Env>(env: &E, i: usize, room: &mut [u8]) -> usize
    ensures { result ≤ length room.new }
{
    env.arg(i, room).unwrap_or(0)
}
