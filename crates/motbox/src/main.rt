// motbox: lines of MOTChallenge detection text on standard input, their box records on standard output. Document 02, N1.
#![tactic(auto)]

use program_io::{Streams, has_argument};
use std::io::{Print, Stderr};

// It takes no argument: any has it say how it is used, and nothing is read.
fn usage(errors: Stderr) {
    let _ = errors.write_all(
        b"usage: motbox < text > boxes\nReads MOTChallenge detection text and writes a box record of 25 bytes for each line.\n",
    );
}

fn main(rt: HostRuntime) {
    if has_argument(&rt, 1) {
        return usage(rt.stderr());
    }
    let streams = Streams {
        input: rt.stdin(),
        output: rt.stdout(),
        errors: rt.stderr(),
    };
    motbox_io::run(streams);
}
