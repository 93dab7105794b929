// linear_assignment of assoc.rs, without emb_cost: the pairs that stand, and the boxes and tracks that are left.
ghost use Rattle.std.specs.Prelude.{◌≡◌, false, not, ◌+◌, ◌*◌, ◌≤◌, ◌<◌, max, ltb, length, get_or, Ok};
ghost use Rattle.std.specs.Float.Ieee.{le};
ghost use Rattle.laws.specs.Tab.{indices};
ghost use Rattle.laws.specs.Sieve.{sieve};
ghost use Rattle.laws.specs.Over.{Pushed};
ghost use Rattle.laws.specs.Collecting.{Push};
ghost use Rattle.assoc_matching.specs.Matching.{matched};
ghost use Rattle.assoc_matching.specs.Partners.{held, Sized, Clean, PairRoom, Wrote};
ghost use Rattle.assoc_assignment.specs.Assignment.{valid_match, validated, linear_assignment};
ghost use Rattle.assoc_assignment.specs.Answers.{lists_with, room_with, lent_with, lent_after, assignment_counts, call_with, assignment_verdict, assignment_call};
ghost use Rattle.assoc_assignment.specs.Private.{Found, chosen, picked, rejected, Rowed, Mark, Marked, TailRoom, Tails, LeftRoom, leaving_with, leaving, ListRoom, listing_with, listing, AssignmentReady};

use assoc_matching::{Matrix, direct_columns, is_direct, lapjv_partners, put_pairs};
use refusals::{Refusal, larger, smaller};

// The lengths of the lists, how many pairs were rejected, which are the last of both unmatched lists, and lapjv's row turns and column scans: both 0 on the direct path.
#[derive(Clone, Copy, Debug, PartialEq, Eq)]
pub struct AssignmentCounts {
    pub pairs: usize,
    pub detections: usize,
    pub tracks: usize,
    pub rejected: usize,
    pub turns: usize,
    pub scans: usize,
}

// How long the four lists are that a call is lent.
#[derive(Clone, Copy, Debug, PartialEq, Eq)]
pub struct Room {
    pub pair_boxes: usize,
    pub pair_tracks: usize,
    pub unmatched_detections: usize,
    pub unmatched_tracks: usize,
}

// How many boxes and tracks are left, the rejected pairs among them.
#[derive(Drop)]
pub(crate) struct Left {
    boxes: usize,
    tracks: usize,
    rejected: usize,
}

// How many are listed.
#[derive(Drop)]
pub(crate) struct Lengths {
    pairs: usize,
    boxes: usize,
    tracks: usize,
    rejected: usize,
}

// ---- the matched pairs

// For each row its column, or ncols; and lapjv's counts. On the direct path the columns come from the costs alone, and
// the work slice is only cleared.
fn find_partners(
    cost: Matrix,
    threshold: f32,
    work: &mut [f64],
    partner: &mut [u8],
) -> Result<lapjv::Counts, Refusal>
    requires square { max cost.nrows cost.ncols * max cost.nrows cost.ncols ≤ length work.old }
    requires rows { length partner.old ≡ cost.nrows }
    ensures { Found cost.entry.cells.now cost.entry.nrows cost.entry.ncols threshold work.old result partner.new work.new }
{
    if is_direct(cost.nrows, cost.ncols, cost.cells, threshold) {
        direct_columns(cost.ncols, cost.cells, threshold, partner);
        work.fill(0.0);
        return Ok(lapjv::Counts { turns: 0, scans: 0 });
    }
    lapjv_partners(cost.nrows, cost.ncols, cost.cells, partner, work)
}

// ---- the pairs that stand, or the others

// Kept: `wanted` is one comparison, where a closure would need a clause for each of the two tests.
fn stands(iou: f32, threshold: f32, wanted: bool) -> bool
    ensures { result ≡ chosen wanted (le threshold iou) }
{
    (iou >= threshold) == wanted
}

// The column j of row i where that is a pair of the wanted kind, or ncols.
// Kept: ncols is no column, as in the clauses of lapjv_partners and put_pairs, which have bytes for all rows.
fn pick(iou: Matrix, threshold: f32, wanted: bool, i: usize, j: usize) -> usize
    requires { i < iou.nrows }
    ensures { result ≡ picked (λ p. chosen wanted (valid_match iou.entry.cells.now iou.entry.ncols threshold p)) iou.entry.ncols i j }
{
    if j < iou.ncols {
        if stands(iou.at(i, j), threshold, wanted) {
            return j;
        }
    }
    iou.ncols
}

// Writes the pairs of the wanted kind, in row order; how many there are.
fn write_picked(
    iou: Matrix,
    threshold: f32,
    wanted: bool,
    partner: &[u8],
    boxes: &mut [usize],
    tracks: &mut [usize],
) -> usize
    requires rows { length partner.now ≡ iou.nrows }
    requires room { PairRoom (sieve (λ p. chosen wanted (valid_match iou.cells.now iou.ncols threshold p)) (held iou.ncols partner.now)) (length boxes.old) (length tracks.old) }
    ensures { Wrote (sieve (λ p. chosen wanted (valid_match iou.entry.cells.now iou.entry.ncols threshold p)) (held iou.entry.ncols partner.now)) boxes.old tracks.old result boxes.new tracks.new }
{
    put_pairs(
        iou.nrows,
        iou.ncols,
        |i| pick(iou, threshold, wanted, i, partner[i] as usize),
        boxes,
        tracks,
    )
}

// ---- the boxes and tracks that are left

fn mark(boxes: &mut [bool], tracks: &mut [bool], i: usize, j: usize, ncols: usize)
    requires { (i < length boxes.old) × (ncols ≤ length tracks.old) }
    ensures { Mark (ltb j ncols) i j boxes.old tracks.old boxes.new tracks.new }
{
    if j < ncols {
        boxes[i] = true;
        tracks[j] = true;
    }
}

// matched_dets and matched_trks, as marks.
fn mark_matched(partner: &[u8], ncols: usize, boxes: &mut [bool], tracks: &mut [bool])
    requires { Clean (length partner.now) false boxes.old × Clean ncols false tracks.old }
    ensures { Marked (held ncols partner.now) (length partner.now) ncols boxes.new tracks.new }
{
    for (i, j) in partner.iter().enumerate() {
        mark(boxes, tracks, i, usize::from(*j), ncols);
    }
}

fn push(out: &mut [usize], k: usize, j: usize, marked: bool) -> usize
    requires { k < length out.old }
    ensures { Push (not marked) k j out.old result out.new }
{
    if marked {
        return k;
    }
    out[k] = j;
    k + 1
}

// The places that are not marked, ascending.
fn push_unmarked(marks: &[bool], out: &mut [usize]) -> usize
    requires { length marks.now ≤ length out.old }
    ensures { Pushed out.old (sieve (λ j. not (get_or marks.now j false)) (indices (length marks.now))) result out.new }
{
    let mut k = 0;
    for (i, marked) in marks.iter().enumerate() {
        k = push(out, k, i, *marked);
    }
    k
}

// Pushes the boxes and tracks of the rejected pairs behind the first a and b of the lists.
fn push_rejected(
    iou: Matrix,
    threshold: f32,
    partner: &[u8],
    detections: &mut [usize],
    tracks: &mut [usize],
    a: usize,
    b: usize,
) -> Left
    requires rows { length partner.now ≡ iou.nrows }
    requires room { TailRoom (rejected (valid_match iou.cells.now iou.ncols threshold) (held iou.ncols partner.now)) a b (length detections.old) (length tracks.old) }
    ensures { Tails (rejected (valid_match iou.entry.cells.now iou.entry.ncols threshold) (held iou.entry.ncols partner.now)) a b detections.old tracks.old result detections.new tracks.new }
{
    let k = write_picked(
        iou,
        threshold,
        false,
        partner,
        &mut detections[a..],
        &mut tracks[b..],
    );
    Left {
        boxes: a + k,
        tracks: b + k,
        rejected: k,
    }
}

// The unmatched boxes and tracks, each ascending, then those of the rejected pairs.
fn leave_with(
    iou: Matrix,
    threshold: f32,
    partner: &[u8],
    detections: &mut [usize],
    tracks: &mut [usize],
    dets: &mut [bool],
    trks: &mut [bool],
) -> Left
    requires rows { length partner.now ≡ iou.nrows }
    requires room { LeftRoom (valid_match iou.cells.now iou.ncols threshold) (held iou.ncols partner.now) (length partner.now) iou.ncols (length detections.old) (length tracks.old) }
    requires clean { Clean (length partner.now) false dets.old × Clean iou.ncols false trks.old }
    ensures { leaving_with result detections.new tracks.new
        ≡ leaving (valid_match iou.entry.cells.now iou.entry.ncols threshold) (held iou.entry.ncols partner.now) (length partner.now) iou.entry.ncols detections.old tracks.old }
{
    mark_matched(partner, iou.ncols, dets, trks);
    let a = push_unmarked(dets, detections);
    let b = push_unmarked(trks, tracks);
    push_rejected(iou, threshold, partner, detections, tracks, a, b)
}

fn leave(
    iou: Matrix,
    threshold: f32,
    partner: &[u8],
    detections: &mut [usize],
    tracks: &mut [usize],
) -> Left
    requires rows { length partner.now ≡ iou.nrows }
    requires room { LeftRoom (valid_match iou.cells.now iou.ncols threshold) (held iou.ncols partner.now) (length partner.now) iou.ncols (length detections.old) (length tracks.old) }
    ensures { leaving_with result detections.new tracks.new
        ≡ leaving (valid_match iou.entry.cells.now iou.entry.ncols threshold) (held iou.entry.ncols partner.now) (length partner.now) iou.entry.ncols detections.old tracks.old }
{
    let mut dets = [false; 255];
    let mut trks = [false; 255];
    leave_with(
        iou,
        threshold,
        partner,
        detections,
        tracks,
        &mut dets[..iou.nrows],
        &mut trks[..iou.ncols],
    )
}

// The lists of the matched pairs.
fn list(
    iou: Matrix,
    threshold: f32,
    partner: &[u8],
    boxes: &mut [usize],
    tracks: &mut [usize],
    detections: &mut [usize],
    left: &mut [usize],
) -> Lengths
    requires rows { Rowed iou.nrows iou.ncols partner.now }
    requires room { ListRoom iou.nrows iou.ncols (room_with (length boxes.old) (length tracks.old) (length detections.old) (length left.old)) }
    ensures { listing_with result (lists_with boxes.new tracks.new detections.new left.new)
        ≡ listing (validated (valid_match iou.entry.cells.now iou.entry.ncols threshold) iou.entry.nrows iou.entry.ncols (matched (held iou.entry.ncols partner.now) 0 0))
        (lists_with boxes.old tracks.old detections.old left.old) }
{
    let pairs = write_picked(iou, threshold, true, partner, boxes, tracks);
    let rest = leave(iou, threshold, partner, detections, left);
    Lengths {
        pairs,
        boxes: rest.boxes,
        tracks: rest.tracks,
        rejected: rest.rejected,
    }
}

// ---- linear_assignment

// Whether a call of linear_assignment is accepted, from the lengths of what it is lent.
pub fn assignment_verdict(
    boxes: usize,
    tracks: usize,
    ious: usize,
    costs: usize,
    room: Room,
    work: usize,
) -> Result<(), Refusal>
    ensures { result ≡ assignment_verdict boxes tracks ious costs room work }
{
    if (255 < boxes) | (255 < tracks) {
        return Err(Refusal::TooMany);
    }
    let cells = boxes * tracks;
    if (ious != cells) | (costs != cells) {
        return Err(Refusal::OtherSize);
    }
    let few = smaller(boxes, tracks);
    let n = larger(boxes, tracks);
    let short = (room.unmatched_detections < boxes) | (room.unmatched_tracks < tracks);
    if short | (room.pair_boxes < few) | (room.pair_tracks < few) | (work < n * n) {
        return Err(Refusal::TooShort);
    }
    Ok(())
}

fn assign_with(
    iou: &[f32],
    cost: &[f32],
    nrows: usize,
    ncols: usize,
    threshold: f32,
    boxes: &mut [usize],
    tracks: &mut [usize],
    detections: &mut [usize],
    left: &mut [usize],
    work: &mut [f64],
    partner: &mut [u8],
) -> Result<AssignmentCounts, Refusal>
    requires ready { AssignmentReady nrows ncols (length iou.now) (length cost.now) (room_with (length boxes.old) (length tracks.old) (length detections.old) (length left.old)) (length work.old) }
    requires rows { length partner.old ≡ nrows }
    ensures { let a = linear_assignment iou.now cost.now nrows ncols threshold in
        call_with result (lent_with boxes.new tracks.new detections.new left.new work.new)
        ≡ call_with (Ok (assignment_counts a)) (lent_after a (lent_with boxes.old tracks.old detections.old left.old work.old)) }
{
    let cost = Matrix {
        cells: cost,
        nrows,
        ncols,
    };
    let iou = Matrix {
        cells: iou,
        nrows,
        ncols,
    };
    let counts = find_partners(cost, threshold, work, partner)?;
    let lists = list(iou, threshold, partner, boxes, tracks, detections, left);
    Ok(AssignmentCounts {
        pairs: lists.pairs,
        detections: lists.boxes,
        tracks: lists.tracks,
        rejected: lists.rejected,
        turns: counts.turns,
        scans: counts.scans,
    })
}

// The pairs whose IoU is at least the threshold; then the unmatched boxes and tracks, each ascending,
// with those of the rejected pairs behind them.
pub fn linear_assignment(
    boxes: usize,
    tracks: usize,
    iou: &[f32],
    cost: &[f32],
    threshold: f32,
    pair_boxes: &mut [usize],
    pair_tracks: &mut [usize],
    unmatched_detections: &mut [usize],
    unmatched_tracks: &mut [usize],
    work: &mut [f64],
) -> Result<AssignmentCounts, Refusal>
    ensures { call_with result (lent_with pair_boxes.new pair_tracks.new unmatched_detections.new unmatched_tracks.new work.new)
        ≡ assignment_call boxes tracks iou.now cost.now threshold
        (lent_with pair_boxes.old pair_tracks.old unmatched_detections.old unmatched_tracks.old work.old) }
{
    let room = Room {
        pair_boxes: pair_boxes.len(),
        pair_tracks: pair_tracks.len(),
        unmatched_detections: unmatched_detections.len(),
        unmatched_tracks: unmatched_tracks.len(),
    };
    assignment_verdict(boxes, tracks, iou.len(), cost.len(), room, work.len())?;
    let mut partner = [0u8; 255];
    assign_with(
        iou,
        cost,
        boxes,
        tracks,
        threshold,
        pair_boxes,
        pair_tracks,
        unmatched_detections,
        unmatched_tracks,
        work,
        &mut partner[..boxes],
    )
}
