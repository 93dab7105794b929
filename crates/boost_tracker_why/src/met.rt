// The track that a box was paired with, predicted as it is read.
ghost use Rattle.std.specs.Prelude.{◌≡◌, ◌+◌, ◌*◌, ◌≤◌, length};
ghost use Rattle.records.specs.BoxRecord.{box_values};
ghost use Rattle.boost_tracker_why.specs.Private.{met_by};

use boost_tracker_fate::{Partner, partner};
use boost_tracker_pairs::xyxy_at;

// Track t of those held, and box b.
pub(crate) fn paired_with(
    floats: &[f32],
    counters: &[u64],
    labels: &[u8],
    held: usize,
    boxes: &[f32],
    box_labels: &[u8],
    b: usize,
    t: usize,
) -> Partner
    requires { b * box_values + box_values ≤ length boxes.now }
    ensures { result ≡ met_by floats.now counters.now labels.now held boxes.now box_labels.now b t }
{
    let read = boost_tracker_table::load(floats, counters, held, t);
    let track = read.predict();
    let same = labels::same_label(labels::label_at(box_labels, b), labels::label_at(labels, t));
    partner(same, xyxy_at(boxes, b), track.get_state(), track.id)
}
