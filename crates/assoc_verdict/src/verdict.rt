// The verdict on a call of associate, from the lengths of what it is given and lent, and from the labels.
ghost use Rattle.std.specs.Prelude.{◌≡◌, ◌≤◌, length};
ghost use Rattle.labels.specs.Label as Label;
ghost use Rattle.assoc_verdict.specs.Verdict.{other_size, within_verdict, associate_sizes, associate_verdict};

use assoc_assignment::{Room, assignment_verdict};
use assoc_cost::AssociateParams;
use labels::first_unlabelled;
use refusals::{Refusal, larger};

// How many boxes and tracks a call has, and how long the lists are that it is given of them.
// Kept: a call says its sides apart from the lengths of its slices, and one that differs is refused.
#[derive(Clone, Copy, Debug, PartialEq, Eq)]
pub struct Lengths {
    pub boxes: usize,
    pub tracks: usize,
    pub detections: usize,
    pub corners: usize,
    pub track_confidence: usize,
    pub detection_confidence: usize,
}

fn other_size(params: AssociateParams, lengths: Lengths) -> bool
    requires { (lengths.boxes ≤ 255) × (lengths.tracks ≤ 255) }
    ensures { result ≡ other_size params lengths.boxes lengths.tracks lengths.detections lengths.corners lengths.track_confidence lengths.detection_confidence }
{
    let of_corners = (lengths.detections != lengths.boxes * 4)
        | (lengths.corners != lengths.tracks * 4);
    let of_confidences = (lengths.track_confidence != lengths.tracks)
        | (lengths.detection_confidence != lengths.boxes);
    of_corners | (params.has_confidence & of_confidences)
}

pub fn within_verdict(
    params: AssociateParams,
    lengths: Lengths,
    room: Room,
    work64: usize,
    work32: usize,
) -> Result<(), Refusal>
    ensures { result ≡ within_verdict params lengths.boxes lengths.tracks lengths.detections lengths.corners lengths.track_confidence lengths.detection_confidence room work64 work32 }
{
    let boxes = lengths.boxes;
    let tracks = lengths.tracks;
    if (255 < boxes) | (255 < tracks) {
        return Err(Refusal::TooMany);
    }
    if other_size(params, lengths) {
        return Err(Refusal::OtherSize);
    }
    let n = larger(boxes, tracks);
    if work32 < 4 * (n * n) {
        return Err(Refusal::TooShort);
    }
    let cells = boxes * tracks;
    assignment_verdict(boxes, tracks, cells, cells, room, work64)
}

fn associate_sizes(
    params: AssociateParams,
    lengths: Lengths,
    mahalanobis: usize,
    box_labels: usize,
    track_labels: usize,
    room: Room,
    work64: usize,
    work32: usize,
) -> Result<(), Refusal>
    ensures { result ≡ associate_sizes params lengths.boxes lengths.tracks lengths.detections lengths.corners mahalanobis lengths.track_confidence lengths.detection_confidence
        box_labels track_labels room work64 work32 }
{
    if (255 < lengths.boxes) | (255 < lengths.tracks) {
        return Err(Refusal::TooMany);
    }
    if params.has_mahalanobis & (mahalanobis != lengths.boxes * lengths.tracks) {
        return Err(Refusal::OtherSize);
    }
    if (box_labels != lengths.boxes) | (track_labels != lengths.tracks) {
        return Err(Refusal::OtherSize);
    }
    within_verdict(params, lengths, room, work64, work32)
}

fn unlabelled(labels: &[u8]) -> bool
    ensures { result ≡ Label.unlabelled labels.now (length labels.now) }
{
    let n = labels.len();
    first_unlabelled(labels, n) < n
}

pub fn associate_verdict(
    params: AssociateParams,
    lengths: Lengths,
    mahalanobis: usize,
    box_labels: &[u8],
    track_labels: &[u8],
    room: Room,
    work64: usize,
    work32: usize,
) -> Result<(), Refusal>
    ensures { result ≡ associate_verdict params lengths.boxes lengths.tracks lengths.detections lengths.corners mahalanobis lengths.track_confidence lengths.detection_confidence
        box_labels.now track_labels.now room work64 work32 }
{
    associate_sizes(
        params,
        lengths,
        mahalanobis,
        box_labels.len(),
        track_labels.len(),
        room,
        work64,
        work32,
    )?;
    // a label of either side, also where the other side is 0
    let bad = unlabelled(box_labels) | unlabelled(track_labels);
    if bad {
        return Err(Refusal::NotLabelled);
    }
    Ok(())
}
