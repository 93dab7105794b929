// What is said of a call that failed.
ghost use Rattle.std.specs.Prelude.{◌≤◌, length};

use std::io::{Cursor, Error, Print, Stderr, Write};

// Longer than the words of any error of the system.
const ROOM: usize = 256;

// Where the number begins that std writes behind the system's words, or the end.
fn end_of_words(text: &[u8]) -> usize
    ensures { result ≤ length text.now }
{
    for i in 0..text.len() {
        if text[i..].starts_with(b" (os error ") {
            return i;
        }
    }
    text.len()
}

// The error's text at the front of the room, as far as there is room, and how long it is.
fn put_text(error: Error, room: &mut [u8]) -> usize
    ensures { result ≤ length room.new }
{
    let size = room.len();
    let mut front = Cursor::new(room);
    let _ = write!(front, "{error}");
    front.position().min(size as u64) as usize
}

// A line on standard error: what failed, and the system's words. Where it cannot be written, nothing is left to say it by.
pub fn fail(errors: Stderr, who: &[u8], error: Error) {
    let mut text = [0u8; ROOM];
    let n = put_text(error, &mut text);
    let _ = errors.write_all(who);
    let _ = errors.write_all(b": ");
    let _ = errors.write_all(&text[..end_of_words(&text[..n])]);
    let _ = errors.write_all(b"\n");
}
