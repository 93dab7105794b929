// Steps 1 to 7 of a frame in the Rust's order, where it is accepted. The tracks are predicted as they are read up to step 5, and stored predicted before step 6, which follows the pairs.
ghost use Rattle.std.specs.Prelude.{◌≡◌, true, ◌≤◌};
ghost use Rattle.boost_tracker_table.specs.Lent.{table_with, call_with};
ghost use Rattle.boost_tracker_verdict.specs.Boxes.{boxes_with};
ghost use Rattle.boost_tracker_pairs.specs.Pairs.{inputs_with, roomy_for};
ghost use Rattle.boost_tracker_steps.specs.AllSteps.{lent_with, advanced};
ghost use Rattle.boost_tracker_steps.specs.Private as Private;
ghost use Rattle.boost_tracker_steps.specs.Private.{settled, Concluded};

use assoc::AssignmentCounts;
use boost_tracker_follow::follow;
use boost_tracker_pairs::{Prepared, pairs, prepare};
use boost_tracker_settings::Settings;
use boost_tracker_verdict::{Refusal, State};

// The counts of an accepted frame.
#[derive(Drop)]
pub struct Advanced {
    // tracks started behind those held
    pub started: usize,
    pub turns: usize,
    pub scans: usize,
}

// By the counts of the pairs that were followed. No stage refuses an accepted frame.
fn answered(followed: Result<AssignmentCounts, assoc::Refusal>) -> Result<Advanced, Refusal>
    ensures { result ≡ Private.answered followed }
{
    match followed {
        Ok(counts) => Ok(Advanced {
            started: counts.detections,
            turns: counts.turns,
            scans: counts.scans,
        }),
        Err(_) => Err(Refusal::WorkShort),
    }
}

// Steps 6 and 7: the table predicted, and the pairs that step 5 found followed.
fn settle(
    state: State,
    paired: Result<AssignmentCounts, assoc::Refusal>,
    floats: &mut [f32],
    counters: &mut [u64],
    labels: &mut [u8],
    corners: &[f32],
    kept_labels: &[u8],
    pair_boxes: &[usize],
    pair_tracks: &[usize],
    unmatched: &[usize],
) -> Result<Advanced, Refusal>
    ensures { call_with result (table_with floats.new counters.new labels.new)
        ≡ settled state corners.now kept_labels.now pair_boxes.now pair_tracks.now unmatched.now
        (table_with floats.old counters.old labels.old) paired }
{
    let Ok(counts) = paired else {
        return answered(paired);
    };
    let held = state.count;
    let last = state.last;
    boost_tracker_table::predict_all(floats, counters, held);
    answered(follow(
        floats,
        counters,
        labels,
        held,
        last,
        corners,
        kept_labels,
        counts,
        pair_boxes,
        pair_tracks,
        unmatched,
    ))
}

// Steps 5 to 7 of what `prepare` answered and left in the lists.
fn conclude(
    settings: Settings,
    state: State,
    prepared: Prepared,
    floats: &mut [f32],
    counters: &mut [u64],
    labels: &mut [u8],
    corners: &[f32],
    kept_labels: &[u8],
    scores: &[f32],
    trks: &[f32],
    confs: &[f32],
    work64: &mut [f64],
    work32: &mut [f32],
) -> Result<Advanced, Refusal>
    requires few { prepared.kept ≤ 255 }
    requires roomy { roomy_for (inputs_with corners.now kept_labels.now scores.now trks.now confs.now) ≡ true }
    ensures { Concluded settings state prepared (inputs_with corners.now kept_labels.now scores.now trks.now confs.now)
        (lent_with floats.old counters.old labels.old work64.old work32.old) result
        (lent_with floats.new counters.new labels.new work64.new work32.new) }
{
    let kept = prepared.kept;
    let end = kept * 4;
    let mut pair_boxes = [0usize; 255];
    let mut pair_tracks = [0usize; 255];
    let mut unmatched = [0usize; 255];
    let mut left = [0usize; 255];
    let paired = pairs(
        settings,
        kept,
        state.count,
        corners,
        kept_labels,
        scores,
        trks,
        confs,
        labels,
        &mut pair_boxes,
        &mut pair_tracks,
        &mut unmatched,
        &mut left,
        work64,
        work32,
    );
    settle(
        state,
        paired,
        floats,
        counters,
        labels,
        &corners[..end],
        &kept_labels[..kept],
        &pair_boxes,
        &pair_tracks,
        &unmatched,
    )
}

// The tracks of the lent table predicted, corrected by their boxes, and followed by those started. `room` is the length of the output that the caller has.
pub fn advance(
    settings: Settings,
    state: State,
    floats: &mut [f32],
    counters: &mut [u64],
    labels: &mut [u8],
    boxes: &[f32],
    box_labels: &[u8],
    room: usize,
    work64: &mut [f64],
    work32: &mut [f32],
) -> Result<Advanced, Refusal>
    ensures { call_with result (lent_with floats.new counters.new labels.new work64.new work32.new)
        ≡ advanced settings state (boxes_with boxes.now box_labels.now) room
        (lent_with floats.old counters.old labels.old work64.old work32.old) }
{
    let mut corners = [0.0f32; 1020];
    let mut kept_labels = [0u8; 255];
    let mut scores = [0.0f32; 255];
    let mut trks = [0.0f32; 1020];
    let mut confs = [0.0f32; 255];
    let prepared = prepare(
        settings,
        state,
        floats,
        counters,
        labels,
        boxes,
        box_labels,
        room,
        work64.len(),
        0,
        &mut corners,
        &mut kept_labels,
        &mut scores,
        &mut trks,
        &mut confs,
        work32,
    )?;
    conclude(
        settings,
        state,
        prepared,
        floats,
        counters,
        labels,
        &corners,
        &kept_labels,
        &scores,
        &trks,
        &confs,
        work64,
        work32,
    )
}
