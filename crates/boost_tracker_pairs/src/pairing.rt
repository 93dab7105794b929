// Steps 1 to 5 of a frame in the Rust's order, where it is accepted: `prepare` is steps 1 to 4, up to the retained boxes and their distances to the predicted tracks, and `pairs` is step 5. A box and a track carry labels.
// They are two functions and not one, so that what only steps 1 to 4 need lies on the stack no longer than they take.
ghost use Rattle.std.specs.Prelude.{◌≡◌, true, ◌+◌, ◌*◌, ◌≤◌, ◌<◌, length, take};
ghost use Rattle.assoc_assignment.specs.Answers as Assignments;
ghost use Rattle.assoc.specs.Answers as Association;
ghost use Rattle.boost_tracker_table.specs.Lent.{table_with};
ghost use Rattle.boost_tracker_verdict.specs.Boxes.{boxes_with};
ghost use Rattle.boost_tracker_verdict.specs.Verdict.{boxes_in};
ghost use Rattle.boost_tracker_definition.specs.Update as Update;
ghost use Rattle.boost_tracker_pairs.specs.Pairs as Pairs;
ghost use Rattle.boost_tracker_pairs.specs.Pairs.{inputs_with, roomy_for, PrepareCall, pairs_call};
ghost use Rattle.boost_tracker_pairs.specs.Private.{LocalRoom, StateRoom, SinceLow, Room, Raised, Readied, predicted_in, track_lists_with};

use crate::boost::{boost, mh_dist};
use crate::gather::gather;
use crate::retain::retain;
use assoc::{AssignmentCounts, AssociateParams};
use boost_tracker_seen::{Seen, seen_in};
use boost_tracker_settings::Settings;
use boost_tracker_verdict::{Refusal, State};
use records::BOX_VALUES;

#[derive(Drop)]
pub struct Prepared {
    // retained boxes
    pub kept: usize,
    pub seen: Seen,
}

// Lists for 255 boxes and 255 tracks.
fn roomy(corners: usize, labels: usize, scores: usize, trks: usize, confs: usize) -> bool
    ensures { result ≡ Pairs.roomy corners labels scores trks confs }
{
    (((1020 <= corners) & (255 <= labels)) & ((255 <= scores) & (1020 <= trks))) & (255 <= confs)
}

// ---- steps 1 to 4

// Steps 1 and 2: what is read of boxes and tracks, and the scores boosted.
fn raise(
    settings: Settings,
    frame: u64,
    held: usize,
    floats: &[f32],
    counters: &[u64],
    labels: &[u8],
    objects: &[f32],
    box_labels: &[u8],
    seen: usize,
    corners: &mut [f32],
    scores: &mut [f32],
    trks: &mut [f32],
    confs: &mut [f32],
    x: &mut [f32],
    sigma: &mut [f32],
    work32: &mut [f32],
) -> f32
    requires sizes { Room held (boxes_in objects.now) (length floats.now) (length counters.now) (boxes_in objects.now) (length work32.old) }
    requires low { SinceLow held (predicted_in floats.now counters.now held) }
    requires lent { LocalRoom held (boxes_in objects.now) (length corners.old) (length scores.old) (length trks.old) (length confs.old) × StateRoom held (length x.old) (length sigma.old) }
    ensures { Raised settings frame (boxes_with objects.now box_labels.now) (predicted_in floats.now counters.now held) labels.now held seen result
        corners.new scores.new (track_lists_with trks.new confs.new x.new sigma.new) }
{
    gather(
        floats, counters, held, objects, corners, scores, trks, confs, x, sigma,
    );
    boost(
        settings, frame, floats, counters, held, corners, trks, confs, x, sigma, box_labels,
        labels, seen, work32, scores,
    )
}

// In lists for the boxes and the tracks that there are.
fn prepare_with(
    settings: Settings,
    frame: u64,
    held: usize,
    floats: &[f32],
    counters: &[u64],
    labels: &[u8],
    objects: &[f32],
    box_labels: &[u8],
    seen: usize,
    corners: &mut [f32],
    kept_labels: &mut [u8],
    scores: &mut [f32],
    trks: &mut [f32],
    confs: &mut [f32],
    x: &mut [f32],
    sigma: &mut [f32],
    work32: &mut [f32],
) -> Prepared
    requires sizes { Room held (boxes_in objects.now) (length floats.now) (length counters.now) (length kept_labels.old) (length work32.old) }
    requires low { SinceLow held (predicted_in floats.now counters.now held) }
    requires lent { LocalRoom held (boxes_in objects.now) (length corners.old) (length scores.old) (length trks.old) (length confs.old) × StateRoom held (length x.old) (length sigma.old) }
    ensures { Readied settings frame (boxes_with objects.now box_labels.now) (predicted_in floats.now counters.now held) labels.now held seen result
        (inputs_with corners.new kept_labels.new scores.new trks.new confs.new) work32.new }
{
    let once = raise(
        settings, frame, held, floats, counters, labels, objects, box_labels, seen, corners,
        scores, trks, confs, x, sigma, work32,
    );
    let asked = seen_in(settings.det_thresh, once, scores, seen);
    let kept = retain(
        settings.det_thresh,
        objects,
        box_labels,
        scores,
        corners,
        kept_labels,
    );
    let end = kept * 4;
    mh_dist(held, kept, &corners[..end], x, sigma, work32);
    Prepared { kept, seen: asked }
}

// In the fronts of lists that have room for any.
fn prepare_fronts(
    settings: Settings,
    state: State,
    floats: &[f32],
    counters: &[u64],
    labels: &[u8],
    boxes: &[f32],
    box_labels: &[u8],
    seen: usize,
    corners: &mut [f32],
    kept_labels: &mut [u8],
    scores: &mut [f32],
    trks: &mut [f32],
    confs: &mut [f32],
    work32: &mut [f32],
) -> Prepared
    requires sizes { Room state.count (boxes_in boxes.now) (length floats.now) (length counters.now) (length kept_labels.old) (length work32.old) }
    requires low { SinceLow state.count (predicted_in floats.now counters.now state.count) }
    requires counts { (state.count ≤ length labels.now) × (state.frames < 2147483647) }
    requires roomy { roomy_for (inputs_with corners.old kept_labels.old scores.old trks.old confs.old) ≡ true }
    ensures { Readied settings (state.frames + 1) (boxes_with boxes.now box_labels.now) (predicted_in floats.now counters.now state.count)
        (take state.count labels.now) state.count seen result
        (inputs_with corners.new kept_labels.new scores.new trks.new confs.new) work32.new }
{
    let held = state.count;
    let frame = state.frames + 1;
    let n = boxes.len() / BOX_VALUES;
    let of_boxes = n * 4;
    let of_tracks = held * 4;
    let mut x = [0.0f32; 1020];
    let mut sigma = [0.0f32; 1020];
    prepare_with(
        settings,
        frame,
        held,
        floats,
        counters,
        &labels[..held],
        boxes,
        box_labels,
        seen,
        &mut corners[..of_boxes],
        kept_labels,
        &mut scores[..n],
        &mut trks[..of_tracks],
        &mut confs[..held],
        &mut x[..of_tracks],
        &mut sigma[..of_tracks],
        work32,
    )
}

// The retained boxes of an accepted frame and what is read of the predicted tracks, over the fronts of the lists, and their distances over the front of work32. `room` and `work64` are the lengths of the output and of the
// work slice of doubles that the caller has, and `seen` is the box that it asks about.
pub fn prepare(
    settings: Settings,
    state: State,
    floats: &[f32],
    counters: &[u64],
    labels: &[u8],
    boxes: &[f32],
    box_labels: &[u8],
    room: usize,
    work64: usize,
    seen: usize,
    corners: &mut [f32],
    kept_labels: &mut [u8],
    scores: &mut [f32],
    trks: &mut [f32],
    confs: &mut [f32],
    work32: &mut [f32],
) -> Result<Prepared, Refusal>
    ensures { PrepareCall settings state (boxes_with boxes.now box_labels.now) (table_with floats.now counters.now labels.now) room work64 seen
        (inputs_with corners.old kept_labels.old scores.old trks.old confs.old) work32.old result
        (inputs_with corners.new kept_labels.new scores.new trks.new confs.new) work32.new }
{
    boost_tracker_verdict::frame_verdict(
        settings,
        state,
        floats,
        counters,
        labels,
        boxes,
        box_labels,
        room,
        work64,
        work32.len(),
    )?;
    if !roomy(
        corners.len(),
        kept_labels.len(),
        scores.len(),
        trks.len(),
        confs.len(),
    ) {
        return Err(Refusal::WorkShort);
    }
    Ok(prepare_fronts(
        settings,
        state,
        floats,
        counters,
        labels,
        boxes,
        box_labels,
        seen,
        corners,
        kept_labels,
        scores,
        trks,
        confs,
        work32,
    ))
}

// ---- step 5

fn params(settings: Settings, boxes: usize, held: usize) -> AssociateParams
    ensures { result ≡ Update.params settings boxes held }
{
    AssociateParams {
        iou_threshold: settings.iou_threshold,
        lambda_iou: settings.lambda_iou,
        lambda_mhd: settings.lambda_mhd,
        lambda_shape: settings.lambda_shape,
        use_shape_similarity_correction: settings.use_shape_similarity_correction,
        has_mahalanobis: (boxes > 0) & (held > 0),
        has_confidence: (held > 0) & (boxes > 0),
    }
}

// The lists have so many boxes and tracks in their fronts.
fn fits(kept: usize, held: usize, labels: usize, lists: bool) -> bool
    ensures { result ≡ Pairs.fits kept held labels lists }
{
    (((kept <= 255) & (held <= 255)) & (held <= labels)) & lists
}

// The pairs of the boxes and tracks that `prepare` left in the fronts of its lists, with their distances in the front of work32; `labels` are the table's. The work slices are zero afterwards.
pub fn pairs(
    settings: Settings,
    kept: usize,
    held: usize,
    corners: &[f32],
    kept_labels: &[u8],
    scores: &[f32],
    trks: &[f32],
    confs: &[f32],
    labels: &[u8],
    pair_boxes: &mut [usize],
    pair_tracks: &mut [usize],
    unmatched: &mut [usize],
    left: &mut [usize],
    work64: &mut [f64],
    work32: &mut [f32],
) -> Result<AssignmentCounts, assoc::Refusal>
    ensures { Assignments.call_with result (Association.lent_with pair_boxes.new pair_tracks.new unmatched.new left.new work64.new work32.new)
        ≡ pairs_call settings kept held (inputs_with corners.now kept_labels.now scores.now trks.now confs.now) labels.now
        (Association.lent_with pair_boxes.old pair_tracks.old unmatched.old left.old work64.old work32.old) }
{
    let lists = roomy(
        corners.len(),
        kept_labels.len(),
        scores.len(),
        trks.len(),
        confs.len(),
    );
    if !fits(kept, held, labels.len(), lists) {
        return Err(assoc::Refusal::TooShort);
    }
    let of_boxes = kept * 4;
    let of_tracks = held * 4;
    assoc::associate_within(
        params(settings, kept, held),
        kept,
        held,
        &corners[..of_boxes],
        &trks[..of_tracks],
        &confs[..held],
        &scores[..kept],
        &kept_labels[..kept],
        &labels[..held],
        pair_boxes,
        pair_tracks,
        unmatched,
        left,
        work64,
        work32,
    )
}
