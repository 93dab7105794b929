// A box out of a list of corners.
ghost use Rattle.std.specs.Prelude.{◌≡◌, ◌+◌, ◌*◌, ◌≤◌, length};
ghost use Rattle.assoc_similarity.specs.Overlap.{box_at};

use assoc_boxes::overlap::{BoundingBox, bounding_box};

// Box i.
pub fn box_at(s: &[f32], i: usize) -> BoundingBox
    requires { i * 4 + 4 ≤ length s.now }
    ensures { result ≡ box_at s.now i }
{
    let at = i * 4;
    bounding_box(s[at], s[at + 1], s[at + 2], s[at + 3])
}
