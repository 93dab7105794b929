// The verdict on a matrix of distances, from its sides and the lengths of its slices.
ghost use Rattle.std.specs.Prelude.{◌≡◌};
ghost use Rattle.boost_tracker_mh_dist.specs.Sizes as Sizes;

use boost_tracker_boosts::too_many;
use refusals::Refusal;

pub(crate) fn of_states(
    boxes: usize,
    tracks: usize,
    detections: usize,
    x: usize,
    sigma: usize,
    out: usize,
) -> Result<(), Refusal>
    ensures { result ≡ Sizes.of_states boxes tracks detections x sigma out }
{
    if too_many(boxes, tracks) {
        return Err(Refusal::TooMany);
    }
    if (detections != boxes * 4) | (x != tracks * 4) | (sigma != tracks * 4) {
        return Err(Refusal::OtherSize);
    }
    if out < boxes * tracks {
        return Err(Refusal::TooShort);
    }
    Ok(())
}
