// trackbox: box records on standard input, the lines of the emitted tracks on standard output. Document 01, "Records and limits" and "trackbox".
#![tactic(auto)]

use program_io::{Streams, has_argument};
use std::io::{Print, Stderr};

// It takes no argument: any has it say how it is used, and nothing is read.
fn usage(errors: Stderr) {
    let _ = errors.write_all(
        b"usage: trackbox < boxes > lines\nReads box records of 25 bytes and prints a line for each track of a frame.\n",
    );
}

fn main(rt: HostRuntime) {
    if has_argument(&rt, 1) {
        return usage(rt.stderr());
    }
    let streams = Streams {
        input: rt.stdin(),
        output: rt.stdout(),
        errors: rt.stderr(),
    };
    trackbox_io::run(streams, u64::MAX);
}
