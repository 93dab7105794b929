// Replays pairs of boxes of standard input and prints a line for each: its title, the corners, and intersection, union and
// ratio, floats in bits. oracle/assoc_boxes/run writes both files, stdin by its own rules and stdout by the published
// assoc.rs.
//
// A record is the word 1, the corners of a detection and of a track, and a title.
#![tactic(auto)]

use assoc_boxes::overlap::{bounding_box, overlap};
use vectors::input;
use vectors::line::Line;

// One record; false where there is none left.
fn replay() -> bool {
    if input::word_or(0) != 1 {
        return false;
    }
    let mut c = [0.0f32; 8];
    input::floats(8, 0.0, &mut c);
    let det = bounding_box(c[0], c[1], c[2], c[3]);
    let trk = bounding_box(c[4], c[5], c[6], c[7]);
    let found = overlap(det, trk);
    let given = Line::titled().bar().floats(&c);
    given
        .bar()
        .floats(&[found.intersection, found.union, found.ratio])
        .print();
    true
}

// A proved loop has to end, and nothing says that the input does: the count is one that no run uses up.
// Kept: the call is all in which such a loop differs from another program's.
fn main() {
    for _ in 0..u64::MAX {
        if !replay() {
            break;
        }
    }
}
