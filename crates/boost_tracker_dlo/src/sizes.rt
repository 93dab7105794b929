// The verdict on a DLO boost, from its sides and the lengths of its slices.
ghost use Rattle.std.specs.Prelude.{◌≡◌, ◌≤◌};
ghost use Rattle.boost_tracker_dlo.specs.Sizes as Sizes;

use boost_tracker_boosts::{of_boost, too_many};
use refusals::Refusal;

fn other_tracks(tracks: usize, corners: usize, confidences: usize, since: usize) -> bool
    requires { tracks ≤ 255 }
    ensures { result ≡ Sizes.other_tracks tracks corners confidences since }
{
    (corners != tracks * 4) | (confidences != tracks) | (since != tracks)
}

pub(crate) fn of_dlo(
    boxes: usize,
    tracks: usize,
    detections: usize,
    corners: usize,
    confidences: usize,
    since: usize,
    distance: usize,
    scores: usize,
) -> Result<(), Refusal>
    ensures { result ≡ Sizes.of_dlo boxes tracks detections corners confidences since distance scores }
{
    if too_many(boxes, tracks) {
        return Err(Refusal::TooMany);
    }
    if other_tracks(tracks, corners, confidences, since) {
        return Err(Refusal::OtherSize);
    }
    of_boost(boxes, tracks, detections, distance, scores)
}
