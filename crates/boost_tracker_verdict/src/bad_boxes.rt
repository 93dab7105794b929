// The lowest box that a frame cannot take: document 01's 16.
ghost use Rattle.std.specs.Prelude.{◌≡◌, ◌+◌, ◌*◌, ◌≤◌, length};
ghost use Rattle.laws.specs.Scan.{lowest};
ghost use Rattle.records.specs.BoxRecord.{box_values};
ghost use Rattle.boost_tracker_verdict.specs.Verdict.{bad_box_at};

use box_verdict::bad_box;
use records::BOX_VALUES;

#[tactic(auto, unfolding(crate::specs::Verdict::bad_box_at))]
fn bad_box_at(boxes: &[f32], i: usize) -> bool
    requires { i * box_values + box_values ≤ length boxes.now }
    ensures { result ≡ bad_box_at boxes.now i }
{
    let at = i * BOX_VALUES;
    bad_box(
        boxes[at],
        boxes[at + 1],
        boxes[at + 2],
        boxes[at + 3],
        boxes[at + 4],
    )
}

// The lowest index of a bad box among the first n, or n.
// Kept: n for none, as `lowest` of the definition has it.
pub(crate) fn first_bad_box(boxes: &[f32], n: usize) -> usize
    requires { n * box_values ≤ length boxes.now }
    ensures { result ≡ lowest (bad_box_at boxes.now) n }
{
    for i in 0..n {
        if bad_box_at(boxes, i) {
            return i;
        }
    }
    n
}
