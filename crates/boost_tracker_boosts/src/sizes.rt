// The verdict on a call, from its sides and the lengths of its slices.
ghost use Rattle.std.specs.Prelude.{◌≡◌, ◌≤◌};
ghost use Rattle.boost_tracker_boosts.specs.Sizes as Sizes;

use refusals::{Refusal, too_many};

fn other_boxes(boxes: usize, detections: usize, scores: usize) -> bool
    requires { boxes ≤ 255 }
    ensures { result ≡ Sizes.other_boxes boxes detections scores }
{
    (detections != boxes * 4) | (scores != boxes)
}

// The verdict on what both boosts take: the corners and the scores of the boxes, and the distances.
pub fn of_boost(
    boxes: usize,
    tracks: usize,
    detections: usize,
    distance: usize,
    scores: usize,
) -> Result<(), Refusal>
    ensures { result ≡ Sizes.of_boost boxes tracks detections distance scores }
{
    if too_many(boxes, tracks) {
        return Err(Refusal::TooMany);
    }
    if other_boxes(boxes, detections, scores) {
        return Err(Refusal::OtherSize);
    }
    if distance < boxes * tracks {
        return Err(Refusal::TooShort);
    }
    Ok(())
}
