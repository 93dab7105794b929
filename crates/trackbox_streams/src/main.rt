// Replays streams, one after the other, as trackbox would print each. Before a stream stand 20 bytes: its name in 16 columns, and its length as a number of four bytes, the lowest first.
// The name is printed before the lines. oracle/trackbox/vectors writes stdin and stdout.
#![tactic(auto)]

use program_io::Streams;

fn length_of(head: &[u8; 20]) -> u64 {
    u32::from_le_bytes([head[16], head[17], head[18], head[19]]) as u64
}

fn skip_byte() -> bool {
    let mut byte = [0u8; 1];
    io::read_full(0, &mut byte) == 1
}

// Reads what is left of a stream that was turned down.
fn skip(bytes: u64) {
    for _ in 0..bytes {
        if !skip_byte() {
            return;
        }
    }
}

// One stream; false where there is none left, or a call failed.
fn replay(streams: Streams) -> bool {
    let mut head = [0u8; 20];
    if io::read_full(0, &mut head) < 20 {
        return false;
    }
    if !(io::write_all(1, &head[0..16]) && io::write_all(1, b"\n")) {
        return false;
    }
    let Some(left) = trackbox_io::run(streams, length_of(&head)) else {
        return false;
    };
    skip(left);
    true
}

// A proved loop has to end, and nothing says that the input does: the count is one that no run uses up.
fn main(rt: HostRuntime) {
    let standard = Streams {
        input: rt.stdin(),
        output: rt.stdout(),
        errors: rt.stderr(),
    };
    for _ in 0..u64::MAX {
        if !replay(standard) {
            return;
        }
    }
}
