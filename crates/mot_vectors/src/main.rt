// Replays the numbers and the lines of MOTChallenge text in standard input, and prints what each answered.
// tools/mot_vectors.py writes both files, stdin by its own rules and stdout by an exact model.
//
// A record of a number is the word 1, the text's length and the text: the bits of the f32 are printed, or `none`. One of a line
// is the word 2, the previous frame number, how many of 64 bytes are lent, the line's length, the line, and a title: title,
// refusal, frame and a digest of all 64 bytes are printed. Each of them is 170 before the call.
#![tactic(auto)]

use vectors::line::Line;
use vectors::{input, lent};
use vectors_digest::digest;
use vectors_digest::floats::bits;

fn print_number(n: Option<f32>) -> bool {
    let Some(x) = n else {
        return io::write_all(1, b"none\n");
    };
    io::print_hex(1, bits(x) as u64, 8);
    io::write_all(1, b"\n")
}

fn replay_number() -> bool {
    let n = input::word_or(0);
    let mut room = [0u8; 256];
    let text = input::bytes(&mut room, n as u64);
    print_number(mot_number::number_of(text))
}

fn replay_line() -> bool {
    let previous = input::word_or(0);
    let size = input::word_or(0);
    let n = input::word_or(0);
    let mut room = [0u8; 256];
    let line = input::bytes(&mut room, n as u64);
    let mut cells = [170u8; 64];
    let out = lent::first(&mut cells, size as u64);
    let answer = mot_line::mot_line(line, previous, out);
    let printed = Line::titled()
        .number(answer.map_or_else(u32::from, |_| 0) as u64)
        .number(answer.unwrap_or(0) as u64);
    printed.digest(digest::bytes(digest::START, &cells)).print();
    true
}

// One record; false where there is none left, or no way to print.
fn replay() -> bool {
    match input::word_or(0) {
        1 => replay_number(),
        2 => replay_line(),
        _ => false,
    }
}

// A proved loop has to end, and nothing says that the input does: the count is one that no run uses up.
// Kept: the call is all in which such a loop differs from another program's.
fn main() {
    for _ in 0..u64::MAX {
        if !replay() {
            break;
        }
    }
}
