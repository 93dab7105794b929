// Replays the rows of standard input through the float functions, and writes each row with the
// result that came out.
//
// A row is 27 bytes: a function's name in 8 columns, two operands in 8 columns, each after a space,
// and a line end. An operand is a bit pattern in hexadecimal digits, of an f32, or of an i32 where it
// is the exponent of powi; a function of one operand does not look at the second. The result is the
// bit pattern of an f32, and 7fc00000 for every NaN. A row of any other form gets the result
// `bad line`. At the end of the input, or where it stops inside a row, the program ends.
#![tactic(auto)]

ghost use Rattle.std.specs.Prelude.{◌<◌, IfSome};

use vectors_digest::floats::{bits, float_of};

// What a hexadecimal digit stands for.
fn digit(c: u8) -> Option<u32>
    ensures { IfSome result (λ d. d < 16) }
{
    match c {
        b'0'..=b'9' => Some(u32::from(c - b'0')),
        b'a'..=b'f' => Some(u32::from(c - b'a') + 10),
        _ => None,
    }
}

// The number that the digits are. Of more than eight the last eight count.
fn word_of(digits: &[u8]) -> Option<u32> {
    let mut word = 0u32;
    for c in digits {
        word = word % 0x1000_0000 * 16 + digit(*c)?;
    }
    Some(word)
}

fn unary(name: &[u8], x: f32) -> Option<f32> {
    match name {
        b"abs     " => Some(floats_pick::abs(x)),
        b"sqrt    " => Some(floats::sqrt(x)),
        b"powf_1_5" => Some(floats_power::powf_1_5(x)),
        b"exp     " => Some(floats::exp(x)),
        _ => None,
    }
}

fn binary(name: &[u8], x: f32, word: u32) -> Option<f32> {
    match name {
        b"max     " => Some(floats_pick::max(x, float_of(word))),
        b"min     " => Some(floats_pick::min(x, float_of(word))),
        b"powi    " => Some(floats_power::powi(x, word.cast_signed())),
        _ => None,
    }
}

// None: a bad line.
fn outcome_of(row: &[u8; 27]) -> Option<f32> {
    let name = &row[..8];
    let x = float_of(word_of(&row[9..17])?);
    if let Some(r) = unary(name, x) {
        return Some(r);
    }
    binary(name, x, word_of(&row[18..26])?)
}

fn write_outcome(outcome: Option<f32>) -> bool {
    match outcome {
        Some(r) => {
            io::print_hex(1, bits(r) as u64, 8);
            io::write_all(1, b"\n")
        }
        None => io::write_all(1, b"bad line\n"),
    }
}

// Reads a row and writes its answer; false where there is no further row, or no way to write.
fn answer_row() -> bool {
    let mut row = [0u8; 27];
    if io::read_full(0, &mut row) < 27 {
        return false;
    }
    row[26] = b' ';
    io::write_all(1, &row);
    write_outcome(outcome_of(&row))
}

// A proved loop has to end, and nothing says that the input does: the range is one that no run uses up.
// Kept: the call is all in which such a loop differs from another program's.
fn main() {
    for _ in 0..u64::MAX {
        if !answer_row() {
            return;
        }
    }
}
