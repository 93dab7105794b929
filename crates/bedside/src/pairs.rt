// The pairing.
ghost use Rattle.std.specs.Prelude.{◌≡◌, length};
ghost use Rattle.assoc_similarity.specs.Sizes.{of_corners, of_confidences, of_distances};
ghost use Rattle.assoc_similarity.specs.Overlap.{box_at, overlap, iou_batch, soft_biou_batch};
ghost use Rattle.assoc_similarity.specs.Shape.{shape_similarity_v1, shape_similarity_v2};
ghost use Rattle.assoc_similarity.specs.Mahalanobis.{mh_dist_similarity};
ghost use Rattle.assoc_matching.specs.Answers.{match_lent_with, match_call};
ghost use Rattle.assoc_assignment.specs.Answers.{assignment_call};
ghost use Rattle.assoc_assignment.specs.Answers as Assignments;
ghost use Rattle.assoc.specs.Answers.{lent_with, associate_call};
ghost use Rattle.bedside_answers.specs.Pairs.{MatrixInC, match_call_in_c, call_in_c};

use assoc::AssociateParams;
use assoc_boxes::overlap::{OverlapAreas, bounding_box};
use bedside_answers::pairs::{Assignment, Matched, number};

// ---- one box and one track

// The areas of a cell of iou_batch.
#[unsafe(no_mangle)]
pub extern "C" fn bedside_overlap(detection: &[f32; 4], track: &[f32; 4]) -> OverlapAreas
    ensures { result ≡ overlap (box_at detection.now 0) (box_at track.now 0) }
{
    let det = bounding_box(detection[0], detection[1], detection[2], detection[3]);
    let trk = bounding_box(track[0], track[1], track[2], track[3]);
    assoc_boxes::overlap::overlap(det, trk)
}

// ---- matrices

#[unsafe(no_mangle)]
pub extern "C" fn bedside_iou_batch(
    boxes: usize,
    tracks: usize,
    detections: &[f32],
    corners: &[f32],
    out: &mut [f32],
) -> u32
    ensures { MatrixInC (of_corners boxes tracks (length detections.now) (length corners.now) (length out.old))
        (iou_batch detections.now corners.now)
        boxes tracks out.old result out.new }
{
    number(assoc_similarity::iou_batch(boxes, tracks, detections, corners, out))
}

#[unsafe(no_mangle)]
pub extern "C" fn bedside_soft_biou_batch(
    boxes: usize,
    tracks: usize,
    detections: &[f32],
    corners: &[f32],
    track_confidences: &[f32],
    out: &mut [f32],
) -> u32
    ensures { MatrixInC (of_confidences boxes tracks (length detections.now) (length corners.now) (length track_confidences.now) (length out.old))
        (soft_biou_batch detections.now corners.now track_confidences.now)
        boxes tracks out.old result out.new }
{
    number(assoc_similarity::soft_biou_batch(
        boxes,
        tracks,
        detections,
        corners,
        track_confidences,
        out,
    ))
}

#[unsafe(no_mangle)]
pub extern "C" fn bedside_shape_similarity_v1(
    boxes: usize,
    tracks: usize,
    detections: &[f32],
    corners: &[f32],
    out: &mut [f32],
) -> u32
    ensures { MatrixInC (of_corners boxes tracks (length detections.now) (length corners.now) (length out.old))
        (shape_similarity_v1 detections.now corners.now)
        boxes tracks out.old result out.new }
{
    number(assoc_similarity::shape_similarity_v1(boxes, tracks, detections, corners, out))
}

#[unsafe(no_mangle)]
pub extern "C" fn bedside_shape_similarity_v2(
    boxes: usize,
    tracks: usize,
    detections: &[f32],
    corners: &[f32],
    out: &mut [f32],
) -> u32
    ensures { MatrixInC (of_corners boxes tracks (length detections.now) (length corners.now) (length out.old))
        (shape_similarity_v2 detections.now corners.now)
        boxes tracks out.old result out.new }
{
    number(assoc_similarity::shape_similarity_v2(boxes, tracks, detections, corners, out))
}

#[unsafe(no_mangle)]
pub extern "C" fn bedside_mh_dist_similarity(
    boxes: usize,
    tracks: usize,
    distance: &[f32],
    softmax_temp: f32,
    out: &mut [f32],
) -> u32
    ensures { MatrixInC (of_distances boxes tracks (length distance.now) (length out.old))
        (mh_dist_similarity distance.now softmax_temp boxes tracks)
        boxes tracks out.old result out.new }
{
    number(assoc_similarity::mh_dist_similarity(boxes, tracks, distance, softmax_temp, out))
}

// ---- pairs

#[unsafe(no_mangle)]
pub extern "C" fn bedside_match_detections(
    boxes: usize,
    tracks: usize,
    cost: &[f32],
    threshold: f32,
    pair_boxes: &mut [usize],
    pair_tracks: &mut [usize],
    work: &mut [f64],
) -> Matched
    ensures { match_call_in_c result (match_lent_with pair_boxes.new pair_tracks.new work.new)
        ≡ match_call boxes tracks cost.now threshold (match_lent_with pair_boxes.old pair_tracks.old work.old) }
{
    Matched::from(assoc::match_detections(
        boxes,
        tracks,
        cost,
        threshold,
        pair_boxes,
        pair_tracks,
        work,
    ))
}

#[unsafe(no_mangle)]
pub extern "C" fn bedside_linear_assignment(
    boxes: usize,
    tracks: usize,
    iou: &[f32],
    cost: &[f32],
    threshold: f32,
    pair_boxes: &mut [usize],
    pair_tracks: &mut [usize],
    unmatched_detections: &mut [usize],
    unmatched_tracks: &mut [usize],
    work: &mut [f64],
) -> Assignment
    ensures { let call = assignment_call boxes tracks iou.now cost.now threshold
        (Assignments.lent_with pair_boxes.old pair_tracks.old unmatched_detections.old unmatched_tracks.old work.old) in
        call_in_c call.counts.rejected result (Assignments.lent_with pair_boxes.new pair_tracks.new unmatched_detections.new unmatched_tracks.new work.new) ≡ call }
{
    Assignment::from(assoc::linear_assignment(
        boxes,
        tracks,
        iou,
        cost,
        threshold,
        pair_boxes,
        pair_tracks,
        unmatched_detections,
        unmatched_tracks,
        work,
    ))
}

#[unsafe(no_mangle)]
pub extern "C" fn bedside_associate(
    params: AssociateParams,
    boxes: usize,
    tracks: usize,
    detections: &[f32],
    corners: &[f32],
    mahalanobis: &[f32],
    track_confidence: &[f32],
    detection_confidence: &[f32],
    detection_labels: &[u8],
    track_labels: &[u8],
    pair_boxes: &mut [usize],
    pair_tracks: &mut [usize],
    unmatched_detections: &mut [usize],
    unmatched_tracks: &mut [usize],
    work64: &mut [f64],
    work32: &mut [f32],
) -> Assignment
    ensures { let call = associate_call params boxes tracks detections.now corners.now mahalanobis.now track_confidence.now detection_confidence.now detection_labels.now track_labels.now
        (lent_with pair_boxes.old pair_tracks.old unmatched_detections.old unmatched_tracks.old work64.old work32.old) in
        call_in_c call.counts.rejected result (lent_with pair_boxes.new pair_tracks.new unmatched_detections.new unmatched_tracks.new work64.new work32.new) ≡ call }
{
    Assignment::from(assoc::associate(
        params,
        boxes,
        tracks,
        detections,
        corners,
        mahalanobis,
        track_confidence,
        detection_confidence,
        detection_labels,
        track_labels,
        pair_boxes,
        pair_tracks,
        unmatched_detections,
        unmatched_tracks,
        work64,
        work32,
    ))
}
