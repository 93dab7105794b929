// The verdict on a call that fills a matrix, from its sides and the lengths of its slices.
#![tactic(auto)]

ghost use Rattle.std.specs.Prelude.{◌≡◌};
ghost use Rattle.assoc_sizes.specs.Sizes as Sizes;

use refusals::{Refusal, too_many};

// The verdict on a matrix over two lists of corners, of the lengths given.
pub fn of_corners(
    boxes: usize,
    tracks: usize,
    detections: usize,
    corners: usize,
    out: usize,
) -> Result<(), Refusal>
    ensures { result ≡ Sizes.of_corners boxes tracks detections corners out }
{
    if too_many(boxes, tracks) {
        return Err(Refusal::TooMany);
    }
    if (detections != boxes * 4) | (corners != tracks * 4) {
        return Err(Refusal::OtherSize);
    }
    if out < boxes * tracks {
        return Err(Refusal::TooShort);
    }
    Ok(())
}

// The same with a list of confidences, one for each track.
pub fn of_confidences(
    boxes: usize,
    tracks: usize,
    detections: usize,
    corners: usize,
    confidences: usize,
    out: usize,
) -> Result<(), Refusal>
    ensures { result ≡ Sizes.of_confidences boxes tracks detections corners confidences out }
{
    if too_many(boxes, tracks) {
        return Err(Refusal::TooMany);
    }
    if confidences != tracks {
        return Err(Refusal::OtherSize);
    }
    of_corners(boxes, tracks, detections, corners, out)
}

// The verdict on a matrix that is worked in place.
pub fn of_cells(boxes: usize, tracks: usize, cells: usize) -> Result<(), Refusal>
    ensures { result ≡ Sizes.of_cells boxes tracks cells }
{
    if too_many(boxes, tracks) {
        return Err(Refusal::TooMany);
    }
    if cells < boxes * tracks {
        return Err(Refusal::TooShort);
    }
    Ok(())
}

// The verdict on a matrix over another matrix of the same sides.
pub fn of_distances(boxes: usize, tracks: usize, distance: usize, out: usize) -> Result<(), Refusal>
    ensures { result ≡ Sizes.of_distances boxes tracks distance out }
{
    if too_many(boxes, tracks) {
        return Err(Refusal::TooMany);
    }
    if distance != boxes * tracks {
        return Err(Refusal::OtherSize);
    }
    if out < distance {
        return Err(Refusal::TooShort);
    }
    Ok(())
}
