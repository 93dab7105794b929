// The boost of boxes that are far from every track: duo_confidence_boost of boost_tracker.rs. The candidates, their corners, their largest overlaps and
// the marks of those that remain are local arrays; a row of overlaps is computed where it is needed.
ghost use Rattle.std.specs.Prelude.{◌≡◌, cond, ◌+◌, ◌*◌, ◌≤◌, ◌<◌, length, get_or, set};
ghost use Rattle.std.specs.Float.{nan};
ghost use Rattle.laws.specs.Tab.{tab};
ghost use Rattle.laws.specs.Fold.{fold};
ghost use Rattle.laws.specs.Grid.{cell_at};
ghost use Rattle.laws.specs.Over.{Pushed};
ghost use Rattle.laws.specs.Collecting.{Push};
ghost use Rattle.floats_pick.specs.Pick.{smaller};
ghost use Rattle.boost_tracker_boosts.specs.Sizes.{of_boost, boosted_by};
ghost use Rattle.boost_tracker_duo.specs.Duo as Duo;
ghost use Rattle.boost_tracker_duo.specs.Private as Private;
ghost use Rattle.boost_tracker_duo.specs.Private.{Scored};

use boost_tracker_boosts::{largest, of_boost};
use refusals::Refusal;

// Chi-square with 4 degrees of freedom, 99 percent.
const LIMIT: f32 = 13.2767;

const IOU_LIMIT: f32 = 0.3;

// ---- the candidates

// The least distance of a box, given its row; a not-a-number gives way to a number.
fn min_mh_dist(row: &[f32]) -> f32
    ensures { result ≡ fold (λ least j. smaller least (get_or row.now j nan)) Duo.max_f32 (length row.now) }
{
    let mut least = f32::MAX;
    for distance in row {
        least = floats_pick::min(least, *distance);
    }
    least
}

// Far from all tracks and below the threshold.
fn is_candidate(distance: &[f32], tracks: usize, thresh: f32, scores: &[f32], i: usize) -> bool
    requires { (i < length scores.now) × (length scores.now * tracks ≤ length distance.now) }
    ensures { result ≡ Duo.is_candidate (cell_at nan tracks distance.now) thresh tracks scores.now i }
{
    let at = i * tracks;
    (min_mh_dist(&distance[at..at + tracks]) > LIMIT) & (scores[i] < thresh)
}

fn push(out: &mut [usize], k: usize, i: usize, candidate: bool) -> usize
    requires { k < length out.old }
    ensures { Push candidate k i out.old result out.new }
{
    if candidate {
        out[k] = i;
        return k + 1;
    }
    k
}

// The candidates go to the front of out; how many there are.
fn boost_candidates(
    distance: &[f32],
    tracks: usize,
    thresh: f32,
    scores: &[f32],
    out: &mut [usize],
) -> usize
    requires { (length out.old ≡ length scores.now) × (length scores.now * tracks ≤ length distance.now) }
    ensures { Pushed out.old (Duo.boost_candidates (cell_at nan tracks distance.now) thresh (length scores.now) tracks scores.now) result out.new }
{
    let mut k = 0;
    for i in 0..scores.len() {
        k = push(out, k, i, is_candidate(distance, tracks, thresh, scores, i));
    }
    k
}

// ---- their overlaps

fn copy_box(detections: &[f32], idx: usize, out: &mut [f32])
    requires { (idx * 4 + 4 ≤ length detections.now) × (length out.old ≡ 4) }
    ensures { out.new ≡ Private.box_of detections.now idx }
{
    let at = idx * 4;
    out[0] = detections[at];
    out[1] = detections[at + 1];
    out[2] = detections[at + 2];
    out[3] = detections[at + 3];
}

// boost_bboxes
fn boost_bboxes(detections: &[f32], candidates: &[usize], out: &mut [f32])
    requires { Private.Listed candidates.now (length detections.now) × (length out.old ≡ length candidates.now * 4) }
    ensures { out.new ≡ Private.boxes_of detections.now candidates.now out.old }
{
    for (i, idx) in candidates.iter().enumerate() {
        let at = i * 4;
        copy_box(detections, *idx, &mut out[at..at + 4]);
    }
}

// Row i of bdiou, over the candidates' corners.
fn bdiou_row(bboxes: &[f32], i: usize, row: &mut [f32])
    requires { (length bboxes.now ≡ length row.old * 4) × ((length row.old ≤ 255) × (i < length row.old)) }
    ensures { row.new ≡ tab (Private.own bboxes.now i) (length row.old) }
{
    let count = row.len();
    let at = i * 4;
    assoc_similarity::iou_batch(1, count, &bboxes[at..at + 4], bboxes, row).unwrap();
    row[i] = row[i] - 1.0;
}

// The largest of row i.
fn row_max(bboxes: &[f32], count: usize, i: usize) -> f32
    requires { (length bboxes.now ≡ count * 4) × ((count ≤ 255) × (i < count)) }
    ensures { result ≡ Private.own_max bboxes.now count i }
{
    let mut cells = [0.0f32; 255];
    let row = &mut cells[..count];
    bdiou_row(bboxes, i, row);
    largest(f32::NEG_INFINITY, row)
}

fn bdiou_max(bboxes: &[f32], max: &mut [f32])
    requires { (length bboxes.now ≡ length max.old * 4) × (length max.old ≤ 255) }
    ensures { max.new ≡ tab (Private.own_max bboxes.now (length max.old)) (length max.old) }
{
    let count = max.len();
    for (i, top) in max.iter_mut().enumerate() {
        *top = row_max(bboxes, count, i);
    }
}

// ---- those that remain

// One more of args_tmp: a candidate that overlaps this one, and that is itself among args.
#[tactic(auto, unfolding(crate::specs::Private::conf_with))]
fn conf_with(most: f32, overlap: f32, max: f32, score: f32) -> f32
    ensures { result ≡ Private.conf_with most overlap max score }
{
    if overlap > IOU_LIMIT && max > IOU_LIMIT {
        floats_pick::max(most, score)
    } else {
        most
    }
}

// The candidates, at most 255: for each its box, the corners and the largest overlap. The scores are those of all boxes.
#[derive(Clone, Copy)]
struct Candidates<'a> {
    boxes: &'a [usize],
    corners: &'a [f32],
    max: &'a [f32],
    scores: &'a [f32],
    ghost corners_fit: { length corners.now ≡ length boxes.now * 4 },
    ghost max_fits: { length max.now ≡ length boxes.now },
    ghost few: { length boxes.now ≤ 255 },
    ghost scored: { Scored boxes.now (length scores.now) },
}

impl<'a> Candidates<'a> {
    // The largest score of a row's args_tmp, without the candidate itself.
    fn conf_row(self, row: &[f32]) -> f32
        requires { length row.now ≡ length self.boxes.now }
        ensures { result ≡ Private.conf_row (λ j. get_or row.now j nan) self.entry.max.now self.entry.boxes.now self.entry.scores.now }
    {
        let mut most = f32::NEG_INFINITY;
        for (j, idx) in self.boxes.iter().enumerate() {
            most = conf_with(most, row[j], self.max[j], self.scores[*idx]);
        }
        most
    }

    // Whether the score of candidate i is conf_max.
    fn is_most(self, i: usize) -> bool
        requires { i < length self.boxes.now }
        ensures { result ≡ Private.most_of self.entry.corners.now self.entry.max.now self.entry.boxes.now self.entry.scores.now i }
    {
        let mut cells = [0.0f32; 255];
        let row = &mut cells[..self.boxes.len()];
        bdiou_row(self.corners, i, row);
        let score = self.scores[self.boxes[i]];
        score == floats_pick::max(self.conf_row(row), score)
    }

    // Whether candidate i is among remaining_boxes: it overlaps no other by more than the limit, or none of those has a higher score. All that tie remain.
    #[tactic(auto, unfolding(crate::specs::Private::remains))]
    fn remains(self, i: usize) -> bool
        requires { i < length self.boxes.now }
        ensures { result ≡ Private.remains self.entry.corners.now self.entry.max.now self.entry.boxes.now self.entry.scores.now i }
    {
        let top = self.max[i];
        top <= IOU_LIMIT || (top > IOU_LIMIT && self.is_most(i))
    }

    fn mark_remaining(self, marks: &mut [bool])
        requires { length marks.old ≡ length self.boxes.now }
        ensures { marks.new ≡ tab (Private.remains self.entry.corners.now self.entry.max.now self.entry.boxes.now self.entry.scores.now) (length marks.old) }
    {
        for (i, mark) in marks.iter_mut().enumerate() {
            *mark = self.remains(i);
        }
    }
}

// The marked candidates get the raised score, after all of them are chosen by the scores that they had.
fn raise(marks: &[bool], candidates: &[usize], raised: f32, scores: &mut [f32])
    requires { Private.Scored candidates.now (length scores.old) × (length marks.now ≡ length candidates.now) }
    ensures { scores.new ≡ Private.raised_by marks.now candidates.now raised scores.old }
{
    for (i, idx) in candidates.iter().enumerate() {
        if marks[i] {
            scores[*idx] = raised;
        }
    }
}

fn boost(detections: &[f32], thresh: f32, candidates: &[usize], scores: &mut [f32])
    requires { Private.Candidates candidates.now (length detections.now) (length scores.old) }
    ensures { scores.new ≡ Duo.masked detections.now scores.old candidates.now thresh (length scores.old) }
{
    let count = candidates.len();
    let mut cells = [0.0f32; 1020];
    let mut tops = [0.0f32; 255];
    let mut marked = [false; 255];
    let corners = &mut cells[..count * 4];
    let max = &mut tops[..count];
    let marks = &mut marked[..count];
    boost_bboxes(detections, candidates, corners);
    bdiou_max(corners, max);
    let overlapping = Candidates {
        boxes: candidates,
        corners,
        max,
        scores,
    };
    overlapping.mark_remaining(marks);
    raise(marks, candidates, thresh + 1e-4, scores);
}

fn duo(tracks: usize, thresh: f32, detections: &[f32], distance: &[f32], scores: &mut [f32])
    requires { Private.DuoReady tracks (length detections.now) (length distance.now) (length scores.old) }
    ensures { scores.new ≡ Private.duo_of thresh detections.now (cell_at nan tracks distance.now) tracks scores.old }
{
    let mut indices = [0usize; 255];
    let candidates = &mut indices[..scores.len()];
    let count = boost_candidates(distance, tracks, thresh, scores, candidates);
    if count > 0 {
        boost(detections, thresh, &candidates[..count], scores);
    }
}

// The scores of boxes that are far from every track and below the threshold are raised above it, of those that overlap each other the highest.
// distance is what get_mh_dist_matrix left, and the scores are those after the DLO boost.
pub fn duo_confidence_boost(
    frames: u64,
    thresh: f32,
    boxes: usize,
    tracks: usize,
    detections: &[f32],
    distance: &[f32],
    scores: &mut [f32],
) -> Result<(), Refusal>
    ensures answer { result ≡ of_boost boxes tracks (length detections.now) (length distance.now) (length scores.old) }
    ensures boosted { scores.new ≡ boosted_by result (Duo.duo_confidence_boost frames thresh detections.now (cell_at nan tracks distance.now) boxes tracks scores.old) scores.old }
{
    of_boost(
        boxes,
        tracks,
        detections.len(),
        distance.len(),
        scores.len(),
    )?;
    if (tracks == 0) | (frames <= 1) {
        return Ok(());
    }
    duo(tracks, thresh, detections, distance, scores);
    Ok(())
}
