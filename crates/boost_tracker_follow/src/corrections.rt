// Steps 6 and 7 of a frame, what follows of its pairs: the tracks corrected by their boxes, and those started for the boxes without one, with their labels.
ghost use Rattle.std.specs.Prelude.{◌≡◌, ◌++◌, ◌+◌, ◌*◌, ◌/◌, ◌≤◌, ◌<◌, ◌^◌, length};
ghost use Rattle.laws.specs.Splice.{splice};
ghost use Rattle.boost_tracker_table.specs.Table as Table;
ghost use Rattle.boost_tracker_table.specs.Table.{tracks, Laying};
ghost use Rattle.boost_tracker_table.specs.Lent.{table_with, call_with};
ghost use Rattle.boost_tracker_definition.specs.Plain.{corrected_by, started_by, started_labels};
ghost use Rattle.boost_tracker_follow.specs.Corrections as Follow;
ghost use Rattle.boost_tracker_follow.specs.Corrections.{Listed, inside};

use assoc::{AssignmentCounts, Refusal};
use boost_tracker_mh_dist::det;
use strack::strack::KalmanBoxTracker;

// ---- step 6

fn correct_matched(
    floats: &mut [f32],
    counters: &mut [u64],
    held: usize,
    corners: &[f32],
    pair_boxes: &[usize],
    pair_tracks: &[usize],
)
    requires sizes { (held ≤ Table.capacity (length floats.old) (length counters.old)) × (length pair_tracks.now ≡ length pair_boxes.now) }
    requires within { Listed pair_boxes.now (length corners.now) }
    ensures { Laying floats.old counters.old floats.new counters.new (corrected_by corners.now pair_boxes.now pair_tracks.now (tracks floats.old counters.old held)) }
{
    for k in 0..pair_boxes.len() {
        boost_tracker_table::correct(
            floats,
            counters,
            held,
            pair_tracks[k],
            det(corners, pair_boxes[k]),
        );
    }
}

// ---- step 7: every retained score is at least det_thresh, so the Rust's test is left out

fn start_unmatched(
    floats: &mut [f32],
    counters: &mut [u64],
    held: usize,
    last: u64,
    corners: &[f32],
    unmatched: &[usize],
)
    requires sizes { (held + length unmatched.now ≤ Table.capacity (length floats.old) (length counters.old)) × (last + 255 < 2 ^ 64) }
    requires within { Listed unmatched.now (length corners.now) }
    ensures { Laying floats.old counters.old floats.new counters.new (tracks floats.old counters.old held ++ started_by last corners.now unmatched.now) }
{
    let mut id = last;
    for (k, box_index) in unmatched.iter().enumerate() {
        id += 1;
        let t = KalmanBoxTracker::new(det(corners, *box_index), id);
        boost_tracker_table::append(floats, counters, held + k, t);
    }
}

// The labels of the boxes in a list.
fn put_labels(box_labels: &[u8], list: &[usize], out: &mut [u8])
    requires { length out.old ≡ length list.now }
    ensures { out.new ≡ started_labels box_labels.now list.now }
{
    for (k, box_index) in list.iter().enumerate() {
        out[k] = labels::label_at(box_labels, *box_index);
    }
}

// A started track has its box's label, behind the labels of those held.
fn start_labels(labels: &mut [u8], held: usize, box_labels: &[u8], unmatched: &[usize])
    requires { held + length unmatched.now ≤ length labels.old }
    ensures { labels.new ≡ splice labels.old held (started_labels box_labels.now unmatched.now) }
{
    let end = held + unmatched.len();
    put_labels(box_labels, unmatched, &mut labels[held..end]);
}

// ---- both

fn all_inside(indices: &[usize], n: usize) -> bool
    ensures { result ≡ inside indices.now n }
{
    indices.iter().all(|&i| i < n)
}

// Whether the counts are within their lists, the tracks within the table and the ids within 64 bits.
fn fits(
    held: usize,
    places: usize,
    last: u64,
    counts: AssignmentCounts,
    pair_boxes: usize,
    pair_tracks: usize,
    unmatched: usize,
) -> bool
    ensures { result ≡ Follow.fits held places last counts pair_boxes pair_tracks unmatched }
{
    if held > places {
        return false;
    }
    (counts.detections <= places - held)
        & ((counts.pairs <= pair_boxes) & (counts.pairs <= pair_tracks))
        & ((counts.detections <= unmatched) & (last < 18446744073709551361))
}

// The matched tracks are corrected, and tracks started behind them: the counts again. Counts, indices, places and ids have to fit; where they do not it is refused, and the table is left.
pub fn follow(
    floats: &mut [f32],
    counters: &mut [u64],
    labels: &mut [u8],
    held: usize,
    last: u64,
    corners: &[f32],
    box_labels: &[u8],
    counts: AssignmentCounts,
    pair_boxes: &[usize],
    pair_tracks: &[usize],
    unmatched: &[usize],
) -> Result<AssignmentCounts, Refusal>
    ensures { call_with result (table_with floats.new counters.new labels.new)
        ≡ Follow.followed held last corners.now box_labels.now counts pair_boxes.now pair_tracks.now unmatched.now
        (table_with floats.old counters.old labels.old) }
{
    let places = boost_tracker_table::places_in(floats.len(), counters.len(), labels.len());
    if !fits(
        held,
        places,
        last,
        counts,
        pair_boxes.len(),
        pair_tracks.len(),
        unmatched.len(),
    ) {
        return Err(Refusal::TooShort);
    }
    let pairs = counts.pairs;
    let started = counts.detections;
    let boxes = corners.len() / 4;
    let known = all_inside(&pair_boxes[..pairs], boxes) & all_inside(&unmatched[..started], boxes);
    if !known {
        return Err(Refusal::OtherSize);
    }
    correct_matched(
        floats,
        counters,
        held,
        corners,
        &pair_boxes[..pairs],
        &pair_tracks[..pairs],
    );
    start_unmatched(floats, counters, held, last, corners, &unmatched[..started]);
    start_labels(labels, held, box_labels, &unmatched[..started]);
    Ok(counts)
}
