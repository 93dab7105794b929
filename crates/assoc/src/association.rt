// associate of assoc.rs, with the labels of document 02, N2: the costs of boxes and tracks in lent memory, and the assignment by them.
ghost use Rattle.std.specs.Prelude.{◌≡◌, true, ◌*◌, ◌≤◌, length, take, drop, Ok};
ghost use Rattle.std.specs.Float.{nan};
ghost use Rattle.laws.specs.Grid.{cell_at, grid};
ghost use Rattle.labels.specs.Label.{same_label, alike, where_alike};
ghost use Rattle.floats.specs.Single.{plus_zero};
ghost use Rattle.assoc_similarity.specs.Sizes.{Ready};
ghost use Rattle.assoc_similarity.specs.Overlap.{iou_batch};
ghost use Rattle.assoc_assignment.specs.Answers.{call_with, assignment_call};
ghost use Rattle.assoc_assignment.specs.Answers as Assignments;
ghost use Rattle.assoc_cost.specs.Cost.{cost_matrix};
ghost use Rattle.assoc.specs.Association.{costs};
ghost use Rattle.assoc.specs.Answers.{lent_with, cleared, associate_call, within_call};
ghost use Rattle.assoc_verdict.specs.Verdict.{Cornered};
ghost use Rattle.assoc.specs.Private.{Likened, marked_ious, Halves, with_floats};

use super::cost_matrix::associate_cost;
use super::scene::Scene;
use assoc_assignment::{AssignmentCounts, Room, linear_assignment};
use assoc_cost::AssociateParams;
use assoc_similarity::{iou_batch, mh_dist_similarity, mh_dist_similarity_over};
use assoc_verdict::{associate_verdict, within_verdict};
use labels::{label_at, set_unlike};
use refusals::Refusal;

// ---- the matrices

// The matrices and similarities of an accepted call are not refused, as their contracts say.

// The similarities of the distances, in the front of `cells`.
fn liken(
    has: bool,
    boxes: usize,
    tracks: usize,
    mahalanobis: &[f32],
    cells: &mut [f32],
) -> Result<(), Refusal>
    requires sides { (boxes ≤ 255) × (tracks ≤ 255) × (boxes * tracks ≤ length cells.old) }
    requires distances { has ≡ true → length mahalanobis.now ≡ boxes * tracks }
    ensures answer { result ≡ Ok tt }
    ensures cells { Likened has boxes tracks mahalanobis.now cells.new }
{
    if has {
        let end = boxes * tracks;
        return mh_dist_similarity(boxes, tracks, mahalanobis, 1.0, &mut cells[..end]);
    }
    Ok(())
}

// The same over distances that lie there.
fn liken_within(has: bool, boxes: usize, tracks: usize, cells: &mut [f32]) -> Result<(), Refusal>
    requires { (boxes ≤ 255) × (tracks ≤ 255) × (boxes * tracks ≤ length cells.old) }
    ensures answer { result ≡ Ok tt }
    ensures cells { Likened has boxes tracks (take (boxes * tracks) cells.old) cells.new }
{
    if has {
        let end = boxes * tracks;
        return mh_dist_similarity_over(boxes, tracks, 1.0, &mut cells[..end]);
    }
    Ok(())
}

// Puts `value` into the cells of boxes and tracks that are not alike, row by row.
fn set_unlike_cells(scene: Scene, value: f32, cells: &mut [f32])
    requires { scene.boxes * scene.tracks ≤ length cells.old }
    ensures { let s = scene.entry in
        cells.new ≡ grid (where_alike (alike same_label s.box_labels.now s.track_labels.now) (cell_at nan s.tracks cells.old) value) s.boxes s.tracks cells.old }
{
    let tracks = scene.tracks;
    for i in 0..scene.boxes {
        let at = i * tracks;
        set_unlike(
            label_at(scene.box_labels, i),
            scene.track_labels,
            value,
            &mut cells[at..at + tracks],
        );
    }
}

// The costs over the similarities in `cells`: 0 where box and track are not alike.
fn costs(params: AssociateParams, scene: Scene, cells: &mut [f32])
    requires { Ready scene.boxes scene.tracks (length scene.detections.now) (length scene.corners.now) (length cells.old) }
    ensures { let s = scene.entry in
        cells.new ≡ grid (where_alike (alike same_label s.box_labels.now s.track_labels.now)
        (cost_matrix params s.detections.now s.corners.now s.track_confidence.now s.detection_confidence.now (cell_at nan s.tracks cells.old)) plus_zero) s.boxes s.tracks cells.old }
{
    associate_cost(params, scene, cells);
    set_unlike_cells(scene, 0.0, cells);
}

// The IoU matrix. A NaN, which is at least no threshold, marks a box and a track that are not alike: their pair never stands.
fn overlaps(scene: Scene, cells: &mut [f32]) -> Result<(), Refusal>
    requires { (scene.boxes ≤ 255) × (scene.tracks ≤ 255) × Ready scene.boxes scene.tracks (length scene.detections.now) (length scene.corners.now) (length cells.old) }
    ensures answer { result ≡ Ok tt }
    ensures cells { let s = scene.entry in
        cells.new ≡ grid (where_alike (alike same_label s.box_labels.now s.track_labels.now) (iou_batch s.detections.now s.corners.now) nan) s.boxes s.tracks cells.old }
{
    iou_batch(
        scene.boxes,
        scene.tracks,
        scene.detections,
        scene.corners,
        cells,
    )?;
    set_unlike_cells(scene, 0.0 / 0.0, cells);
    Ok(())
}

// The costs over the similarities in the front of `cells`, and the IoU matrix behind them.
fn matrices(params: AssociateParams, scene: Scene, cells: &mut [f32]) -> Result<(), Refusal>
    requires { Cornered scene.boxes scene.tracks (length scene.detections.now) (length scene.corners.now) (length cells.old) }
    ensures answer { result ≡ Ok tt }
    ensures cells { let s = scene.entry in
        let like = alike same_label s.box_labels.now s.track_labels.now in
        Halves (s.boxes * s.tracks) (costs like params s.boxes s.tracks s.detections.now s.corners.now s.track_confidence.now s.detection_confidence.now (cell_at nan s.tracks cells.old))
        (marked_ious like s.boxes s.tracks s.detections.now s.corners.now) cells.new }
{
    let half = scene.boxes * scene.tracks;
    let end = half + half;
    costs(params, scene, &mut cells[..half]);
    overlaps(scene, &mut cells[half..end])
}

// ---- the assignment

// By the costs in the front of `cells` and the IoU matrix behind them.
fn assign(
    cells: &[f32],
    boxes: usize,
    tracks: usize,
    threshold: f32,
    pair_boxes: &mut [usize],
    pair_tracks: &mut [usize],
    detections: &mut [usize],
    left: &mut [usize],
    work64: &mut [f64],
) -> Result<AssignmentCounts, Refusal>
    requires { (boxes ≤ 255) × (tracks ≤ 255) × (2 * (boxes * tracks) ≤ length cells.now) }
    ensures { call_with result (Assignments.lent_with pair_boxes.new pair_tracks.new detections.new left.new work64.new)
        ≡ assignment_call boxes tracks (take (boxes * tracks) (drop (boxes * tracks) cells.now)) (take (boxes * tracks) cells.now) threshold
        (Assignments.lent_with pair_boxes.old pair_tracks.old detections.old left.old work64.old) }
{
    let half = boxes * tracks;
    let end = half + half;
    linear_assignment(
        boxes,
        tracks,
        &cells[half..end],
        &cells[..half],
        threshold,
        pair_boxes,
        pair_tracks,
        detections,
        left,
        work64,
    )
}

// With the similarities of the distances in the front of work32.
fn pair_up(
    params: AssociateParams,
    scene: Scene,
    pair_boxes: &mut [usize],
    pair_tracks: &mut [usize],
    unmatched_detections: &mut [usize],
    unmatched_tracks: &mut [usize],
    work64: &mut [f64],
    work32: &mut [f32],
) -> Result<AssignmentCounts, Refusal>
    requires { Cornered scene.boxes scene.tracks (length scene.detections.now) (length scene.corners.now) (length work32.old) }
    ensures { let s = scene.entry in
        let cells = work32.old in
        let like = alike same_label s.box_labels.now s.track_labels.now in
        let iou = marked_ious like s.boxes s.tracks s.detections.now s.corners.now in
        let cost = costs like params s.boxes s.tracks s.detections.now s.corners.now s.track_confidence.now s.detection_confidence.now (cell_at nan s.tracks cells) in
        call_with result (lent_with pair_boxes.new pair_tracks.new unmatched_detections.new unmatched_tracks.new work64.new work32.new)
        ≡ with_floats (cleared cells) (assignment_call s.boxes s.tracks iou cost params.iou_threshold
        (Assignments.lent_with pair_boxes.old pair_tracks.old unmatched_detections.old unmatched_tracks.old work64.old)) }
{
    matrices(params, scene, work32)?;
    let answer = assign(
        work32,
        scene.boxes,
        scene.tracks,
        params.iou_threshold,
        pair_boxes,
        pair_tracks,
        unmatched_detections,
        unmatched_tracks,
        work64,
    );
    work32.fill(0.0);
    answer
}

// The assignment by the costs of overlap, and of confidences, distances and shapes where there are any. No pair joins unequal labels.
pub fn associate(
    params: AssociateParams,
    boxes: usize,
    tracks: usize,
    detections: &[f32],
    corners: &[f32],
    mahalanobis: &[f32],
    track_confidence: &[f32],
    detection_confidence: &[f32],
    box_labels: &[u8],
    track_labels: &[u8],
    pair_boxes: &mut [usize],
    pair_tracks: &mut [usize],
    unmatched_detections: &mut [usize],
    unmatched_tracks: &mut [usize],
    work64: &mut [f64],
    work32: &mut [f32],
) -> Result<AssignmentCounts, Refusal>
    ensures { call_with result (lent_with pair_boxes.new pair_tracks.new unmatched_detections.new unmatched_tracks.new work64.new work32.new)
        ≡ associate_call params boxes tracks detections.now corners.now mahalanobis.now track_confidence.now detection_confidence.now box_labels.now track_labels.now
        (lent_with pair_boxes.old pair_tracks.old unmatched_detections.old unmatched_tracks.old work64.old work32.old) }
{
    let scene = Scene {
        boxes,
        tracks,
        detections,
        corners,
        track_confidence,
        detection_confidence,
        box_labels,
        track_labels,
    };
    let room = Room {
        pair_boxes: pair_boxes.len(),
        pair_tracks: pair_tracks.len(),
        unmatched_detections: unmatched_detections.len(),
        unmatched_tracks: unmatched_tracks.len(),
    };
    associate_verdict(
        params,
        scene.lengths(),
        mahalanobis.len(),
        box_labels,
        track_labels,
        room,
        work64.len(),
        work32.len(),
    )?;
    liken(params.has_mahalanobis, boxes, tracks, mahalanobis, work32)?;
    pair_up(
        params,
        scene,
        pair_boxes,
        pair_tracks,
        unmatched_detections,
        unmatched_tracks,
        work64,
        work32,
    )
}

// The same with the distances in the front of work32: for a caller that has computed them there. No label is refused, and one that is missing is as 0.
pub fn associate_within(
    params: AssociateParams,
    boxes: usize,
    tracks: usize,
    detections: &[f32],
    corners: &[f32],
    track_confidence: &[f32],
    detection_confidence: &[f32],
    box_labels: &[u8],
    track_labels: &[u8],
    pair_boxes: &mut [usize],
    pair_tracks: &mut [usize],
    unmatched_detections: &mut [usize],
    unmatched_tracks: &mut [usize],
    work64: &mut [f64],
    work32: &mut [f32],
) -> Result<AssignmentCounts, Refusal>
    ensures { call_with result (lent_with pair_boxes.new pair_tracks.new unmatched_detections.new unmatched_tracks.new work64.new work32.new)
        ≡ within_call params boxes tracks detections.now corners.now track_confidence.now detection_confidence.now box_labels.now track_labels.now
        (lent_with pair_boxes.old pair_tracks.old unmatched_detections.old unmatched_tracks.old work64.old work32.old) }
{
    let scene = Scene {
        boxes,
        tracks,
        detections,
        corners,
        track_confidence,
        detection_confidence,
        box_labels,
        track_labels,
    };
    let room = Room {
        pair_boxes: pair_boxes.len(),
        pair_tracks: pair_tracks.len(),
        unmatched_detections: unmatched_detections.len(),
        unmatched_tracks: unmatched_tracks.len(),
    };
    within_verdict(params, scene.lengths(), room, work64.len(), work32.len())?;
    liken_within(params.has_mahalanobis, boxes, tracks, work32)?;
    pair_up(
        params,
        scene,
        pair_boxes,
        pair_tracks,
        unmatched_detections,
        unmatched_tracks,
        work64,
        work32,
    )
}
