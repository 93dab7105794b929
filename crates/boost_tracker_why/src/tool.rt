// The tool: lent what a frame is, and the index of a box as given. Steps 1 to 5 are the frame's own.
ghost use Rattle.std.specs.Prelude.{◌≡◌, true, ◌+◌, ◌*◌, ◌≤◌, ◌<◌, ◌^◌, length};
ghost use Rattle.records.specs.BoxRecord.{box_values};
ghost use Rattle.assoc_assignment.specs.Answers.{lists_with};
ghost use Rattle.boost_tracker_table.specs.Lent.{table_with, call_with};
ghost use Rattle.boost_tracker_verdict.specs.Boxes.{boxes_with};
ghost use Rattle.boost_tracker_verdict.specs.Verdict.{boxes_in};
ghost use Rattle.boost_tracker_fate.specs.Private.{place_of};
ghost use Rattle.boost_tracker_pairs.specs.Pairs.{inputs_with, roomy_for};
ghost use Rattle.boost_tracker_why.specs.Answers.{work_with, why_call};
ghost use Rattle.boost_tracker_why.specs.Private.{partner_by, started_at, Answerable, answered_by, Asked, explained_call};

use crate::met::paired_with;
use crate::refusal::WhyRefusal;
use assoc::AssignmentCounts;
use boost_tracker_fate::{Explanation, Lot, Partner, lot_of, nobody, place_of, told, track_of};
use boost_tracker_pairs::{Prepared, pairs, prepare};
use boost_tracker_seen::Seen;
use boost_tracker_settings::Settings;
use boost_tracker_verdict::State;
use records::BOX_VALUES;

fn partner_in(
    lot: Lot,
    floats: &[f32],
    counters: &[u64],
    labels: &[u8],
    held: usize,
    boxes: &[f32],
    box_labels: &[u8],
    b: usize,
) -> Partner
    requires { b * box_values + box_values ≤ length boxes.now }
    ensures { result ≡ partner_by floats.now counters.now labels.now held boxes.now box_labels.now b lot }
{
    match track_of(lot) {
        Some(t) => paired_with(floats, counters, labels, held, boxes, box_labels, b, t),
        None => nobody(),
    }
}

// By the last id given: new ids follow the order of the unmatched list.
fn started_id(lot: Lot, last: u64) -> u64
    requires { (place_of lot ≤ 255) × (last + 256 < 2 ^ 64) }
    ensures { result ≡ started_at last lot }
{
    last + place_of(lot) as u64 + 1
}

// What the pairs that step 5 found say of a box.
fn answered(
    settings: Settings,
    state: State,
    seen: Seen,
    counts: AssignmentCounts,
    floats: &[f32],
    counters: &[u64],
    labels: &[u8],
    boxes: &[f32],
    box_labels: &[u8],
    index: usize,
    pair_boxes: &[usize],
    pair_tracks: &[usize],
    unmatched: &[usize],
    left: &[usize],
) -> Explanation
    requires { Answerable state (table_with floats.now counters.now labels.now) (boxes_with boxes.now box_labels.now) index
        (lists_with pair_boxes.now pair_tracks.now unmatched.now left.now) counts }
    ensures { result ≡ answered_by settings state seen (table_with floats.now counters.now labels.now) (boxes_with boxes.now box_labels.now) index
        (lists_with pair_boxes.now pair_tracks.now unmatched.now left.now) counts }
{
    let held = state.count;
    let matched = counts.pairs;
    let started = counts.detections;
    let missed = counts.tracks;
    let lot = lot_of(
        seen.twice >= settings.det_thresh,
        seen.before,
        counts.rejected,
        &pair_boxes[..matched],
        &pair_tracks[..matched],
        &unmatched[..started],
        &left[..missed],
    );
    let partner = partner_in(
        lot,
        floats,
        counters,
        &labels[..held],
        held,
        boxes,
        box_labels,
        index,
    );
    let score = boxes[index * BOX_VALUES + 4];
    let id = started_id(lot, state.last);
    told(lot, partner, id, score, seen.once, seen.twice)
}

// Step 5 of what `prepare` answered of an accepted frame and left in the lists, which is never refused, and what its pairs say of the box.
fn conclude(
    settings: Settings,
    state: State,
    prepared: Prepared,
    floats: &[f32],
    counters: &[u64],
    labels: &[u8],
    boxes: &[f32],
    box_labels: &[u8],
    index: usize,
    corners: &[f32],
    kept_labels: &[u8],
    scores: &[f32],
    trks: &[f32],
    confs: &[f32],
    work64: &mut [f64],
    work32: &mut [f32],
) -> Explanation
    requires { Asked settings state (boxes_with boxes.now box_labels.now) (table_with floats.now counters.now labels.now) index prepared
        (inputs_with corners.now kept_labels.now scores.now trks.now confs.now) (work_with work64.old work32.old) }
    ensures { call_with result (work_with work64.new work32.new)
        ≡ explained_call settings state (boxes_with boxes.now box_labels.now) (table_with floats.now counters.now labels.now) index
        (work_with work64.old work32.old) }
{
    let mut pair_boxes = [0usize; 255];
    let mut pair_tracks = [0usize; 255];
    let mut unmatched = [0usize; 255];
    let mut left = [0usize; 255];
    let counts = pairs(
        settings,
        prepared.kept,
        state.count,
        corners,
        kept_labels,
        scores,
        trks,
        confs,
        labels,
        &mut pair_boxes,
        &mut pair_tracks,
        &mut unmatched,
        &mut left,
        work64,
        work32,
    )
    .unwrap();
    answered(
        settings,
        state,
        prepared.seen,
        counts,
        floats,
        counters,
        labels,
        boxes,
        box_labels,
        index,
        &pair_boxes,
        &pair_tracks,
        &unmatched,
        &left,
    )
}

// The fate of a box that the frame has. `prepare` leaves steps 1 to 4 in the lists that are lent for them.
fn explain(
    settings: Settings,
    state: State,
    floats: &[f32],
    counters: &[u64],
    labels: &[u8],
    boxes: &[f32],
    box_labels: &[u8],
    room: usize,
    index: usize,
    corners: &mut [f32],
    kept_labels: &mut [u8],
    scores: &mut [f32],
    trks: &mut [f32],
    confs: &mut [f32],
    work64: &mut [f64],
    work32: &mut [f32],
) -> Result<Explanation, WhyRefusal>
    requires given { index < boxes_in boxes.now }
    requires roomy { roomy_for (inputs_with corners.old kept_labels.old scores.old trks.old confs.old) ≡ true }
    ensures { call_with result (work_with work64.new work32.new)
        ≡ why_call settings state (boxes_with boxes.now box_labels.now) (table_with floats.now counters.now labels.now) room index
        (work_with work64.old work32.old) }
{
    let prepared = prepare(
        settings,
        state,
        floats,
        counters,
        labels,
        boxes,
        box_labels,
        room,
        work64.len(),
        index,
        corners,
        kept_labels,
        scores,
        trks,
        confs,
        work32,
    )?;
    Ok(conclude(
        settings,
        state,
        prepared,
        floats,
        counters,
        labels,
        boxes,
        box_labels,
        index,
        corners,
        kept_labels,
        scores,
        trks,
        confs,
        work64,
        work32,
    ))
}

// The fate of a box, with the table, the frame count and the output as they were. `room` is the length of the output that the caller has.
pub fn why(
    settings: Settings,
    state: State,
    floats: &[f32],
    counters: &[u64],
    labels: &[u8],
    boxes: &[f32],
    box_labels: &[u8],
    room: usize,
    work64: &mut [f64],
    work32: &mut [f32],
    index: usize,
) -> Result<Explanation, WhyRefusal>
    ensures { call_with result (work_with work64.new work32.new)
        ≡ why_call settings state (boxes_with boxes.now box_labels.now) (table_with floats.now counters.now labels.now) room index
        (work_with work64.old work32.old) }
{
    if boxes.len() / BOX_VALUES <= index {
        boost_tracker_verdict::frame_verdict(
            settings,
            state,
            floats,
            counters,
            labels,
            boxes,
            box_labels,
            room,
            work64.len(),
            work32.len(),
        )?;
        return Err(WhyRefusal::NoBox);
    }
    let mut corners = [0.0f32; 1020];
    let mut kept_labels = [0u8; 255];
    let mut scores = [0.0f32; 255];
    let mut trks = [0.0f32; 1020];
    let mut confs = [0.0f32; 255];
    explain(
        settings,
        state,
        floats,
        counters,
        labels,
        boxes,
        box_labels,
        room,
        index,
        &mut corners,
        &mut kept_labels,
        &mut scores,
        &mut trks,
        &mut confs,
        work64,
        work32,
    )
}
