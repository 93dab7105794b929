// The boost of boxes that are like a track: dlo_confidence_boost of boost_tracker.rs, a row of similarities at a time.
ghost use Rattle.std.specs.Prelude.{◌≡◌, ◌*◌, ◌≤◌, length, get_or, if◌then◌else◌, slice_index, slice_index_or};
ghost use Rattle.std.specs.Float.{nan};
ghost use Rattle.std.specs.Float.Ieee.{lt};
ghost use Rattle.laws.specs.Tab.{tab};
ghost use Rattle.laws.specs.Grid.{cell_at};
ghost use Rattle.laws.specs.Scan.{lowest};
ghost use Rattle.labels.specs.Label.{same_label, label_at, alike};
ghost use Rattle.floats.specs.Single.{one};
ghost use Rattle.assoc_similarity.specs.Sizes.{after};
ghost use Rattle.assoc_similarity.specs.Mahalanobis.{mh_dist_similarity};
ghost use Rattle.boost_tracker_boosts.specs.Sizes.{boosted_by};
ghost use Rattle.boost_tracker_boosts.specs.Rows.{OneBox};
ghost use Rattle.boost_tracker_dlo.specs.Sizes.{of_dlo};
ghost use Rattle.boost_tracker_dlo.specs.Dlo as Dlo;
ghost use Rattle.boost_tracker_dlo.specs.Private.{softened, varied, row_score, row_similarity};
ghost use Rattle.boost_tracker_dlo.specs.Private as Private;

use super::sizes::of_dlo;
use boost_tracker_boosts::largest;
use refusals::Refusal;

// What the boost reads of the tracker's settings.
// Kept: four options of the published tracker that are independent, so no enum of their combinations is plainer.
#[derive(Clone, Copy)]
pub struct DloSettings {
    // use_rich_similarity
    pub rich: bool,
    // use_shape_similarity_correction
    pub corrected: bool,
    // use_soft_boost
    pub soft: bool,
    // use_varying_threshold
    pub varying: bool,
    // dlo_boost_coef
    pub coef: f32,
    // det_thresh
    pub thresh: f32,
}

// The tracks, at most 255: four corners each, a confidence, a time since update and a label.
#[derive(Clone, Copy)]
struct Tracks<'a> {
    corners: &'a [f32],
    confs: &'a [f32],
    since: &'a [u32],
    labels: &'a [u8],
    ghost corners_fit: { length corners.now ≡ length since.now * 4 },
    ghost confs_fit: { length confs.now ≡ length since.now },
    ghost few: { length since.now ≤ 255 },
}

// ---- the similarities of one box, of four corners

fn shape_row(corrected: bool, det: &[f32], trks: &[f32], row: &mut [f32])
    requires { OneBox (length det.now) (length trks.now) (length row.old) }
    ensures { row.new ≡ tab (Private.shape_row corrected det.now trks.now) (length row.old) }
{
    let tracks = row.len();
    if corrected {
        assoc_similarity::shape_similarity_v2(1, tracks, det, trks, row).unwrap();
    } else {
        assoc_similarity::shape_similarity_v1(1, tracks, det, trks, row).unwrap();
    }
}

// (mhd_sim + shape_sim + sbiou) / 3, over the shapes.
fn rich_row(mhd: &[f32], sbiou: &[f32], row: &mut [f32])
    requires { (length mhd.now ≡ length row.old) × (length sbiou.now ≡ length row.old) }
    ensures { row.new ≡ tab (λ j. Private.third (slice_index_or mhd.now j nan) (slice_index_or row.old j nan) (slice_index_or sbiou.now j nan)) (length row.old) }
{
    for (j, cell) in row.iter_mut().enumerate() {
        *cell = (mhd[j] + *cell + sbiou[j]) / 3.0;
    }
}

impl<'a> Tracks<'a> {
    // The similarities to one box, whose row of mhd_sim is given; `sbiou` is for a row beside it.
    fn similarity_row(
        self,
        q: DloSettings,
        det: &[f32],
        mhd: &[f32],
        sbiou: &mut [f32],
        row: &mut [f32],
    )
        requires { (length det.now ≡ 4) × ((length mhd.now ≡ length self.since.now) × ((length sbiou.old ≡ length self.since.now) × (length row.old ≡ length self.since.now))) }
        ensures { row.new ≡ tab (row_similarity q det.now self.entry.corners.now self.entry.confs.now (λ j. get_or mhd.now j nan)) (length row.old) }
    {
        let tracks = row.len();
        if !q.rich {
            assoc_similarity::iou_batch(1, tracks, det, self.corners, row).unwrap();
            return;
        }
        assoc_similarity::soft_biou_batch(1, tracks, det, self.corners, self.confs, sbiou).unwrap();
        shape_row(q.corrected, det, self.corners, row);
        rich_row(mhd, sbiou, row);
    }
}

// ---- the score of one box

// The threshold of a track that was corrected `since` frames ago, from 0.95 down to 0.8 in 20 steps.
#[tactic(auto, unfolding(crate::specs::Dlo::threshold))]
fn threshold(since: u32) -> f32
    ensures { result ≡ Dlo.threshold since }
{
    let tsu = std::num::nearest_u32_to_f32(since.saturating_sub(1));
    let alpha_vt = (0.95 - 0.8) / 20.0;
    floats_pick::max(0.95 - tsu * alpha_vt, 0.8)
}

// The first track whose threshold the row is above, or the number of tracks.
// Kept: the number of tracks for none, as `lowest` of the definition has it.
fn first_above(row: &[f32], since: &[u32]) -> usize
    requires { length row.now ≡ length since.now }
    ensures { result ≡ lowest (λ j. lt (Dlo.threshold (slice_index since.now j)) (slice_index_or row.now j nan)) (length row.now) }
{
    for (j, similarity) in row.iter().enumerate() {
        if *similarity > threshold(since[j]) {
            return j;
        }
    }
    row.len()
}

fn soft_score(score: f32, max_s: f32) -> f32
    ensures { result ≡ Private.soft_score score max_s }
{
    let alpha = 0.65;
    floats_pick::max(
        score,
        alpha * score + (1.0 - alpha) * floats_power::powf_1_5(max_s),
    )
}

#[tactic(auto, unfolding(crate::specs::Private::softened))]
fn soften(soft: bool, row: &[f32], score: f32) -> f32
    ensures { result ≡ softened soft (λ j. get_or row.now j nan) (length row.now) score }
{
    if soft {
        soft_score(score, largest(0.0, row))
    } else {
        score
    }
}

#[tactic(auto, unfolding(crate::specs::Private::varied))]
fn vary(varying: bool, thresh: f32, row: &[f32], since: &[u32], score: f32) -> f32
    requires { length row.now ≡ length since.now }
    ensures { result ≡ varied varying thresh (λ j. get_or row.now j nan) (λ j. slice_index since.now j) (length row.now) score }
{
    if varying && first_above(row, since) < row.len() {
        floats_pick::max(score, thresh + 1e-5)
    } else {
        score
    }
}

#[tactic(auto, unfolding(crate::specs::Private::row_score))]
fn row_score(q: DloSettings, row: &[f32], since: &[u32], score: f32) -> f32
    requires { length row.now ≡ length since.now }
    ensures { result ≡ row_score q (λ j. get_or row.now j nan) (λ j. slice_index since.now j) (length row.now) score }
{
    if q.soft || q.varying {
        vary(q.varying, q.thresh, row, since, soften(q.soft, row, score))
    } else {
        floats_pick::max(score, largest(0.0, row) * q.coef)
    }
}

// ---- all boxes

// A row of similarities is computed at a time, with `sbiou` beside it.
fn boost_rows(
    q: DloSettings,
    detections: &[f32],
    box_labels: &[u8],
    tracks: Tracks<'_>,
    mhd: &[f32],
    scores: &mut [f32],
)
    requires { Private.Ready (length detections.now) (length mhd.now) (length tracks.since.now) (length scores.old) }
    ensures { scores.new ≡ tab (λ i. Private.boosted_score q detections.now tracks.entry.corners.now tracks.entry.confs.now mhd.now tracks.entry.since.now (label_at box_labels.now i) tracks.entry.labels.now i (slice_index_or scores.old i nan)) (length scores.old) }
{
    let count = tracks.since.len();
    let mut beside = [0.0f32; 255];
    let mut cells = [0.0f32; 255];
    let sbiou = &mut beside[..count];
    let row = &mut cells[..count];
    for (i, score) in scores.iter_mut().enumerate() {
        let det = &detections[i * 4..i * 4 + 4];
        tracks.similarity_row(q, det, &mhd[i * count..i * count + count], sbiou, row);
        labels::set_unlike(labels::label_at(box_labels, i), tracks.labels, 0.0, row);
        *score = row_score(q, row, tracks.since, *score);
    }
}

// Only the rich similarity looks at the distances, and is put over them.
fn distance_similarity(rich: bool, boxes: usize, tracks: usize, distance: &mut [f32])
    requires { Private.Measured boxes tracks (length distance.old) }
    ensures { distance.new ≡ Private.mhd_left rich boxes tracks distance.old }
{
    if rich {
        assoc_similarity::mh_dist_similarity_over(boxes, tracks, 1.0, distance).unwrap();
    }
}

// The scores of boxes that are like a track are raised. For each track there are four corners in trks, its confidence in confs and its time since update in since.
// A box is not like a track of another label; a label that is not there is as label 0.
// distance is what get_mh_dist_matrix left; the rich similarity puts mhd_sim over it, and any other leaves it.
pub fn dlo_confidence_boost(
    q: DloSettings,
    boxes: usize,
    tracks: usize,
    detections: &[f32],
    trks: &[f32],
    confs: &[f32],
    since: &[u32],
    box_labels: &[u8],
    track_labels: &[u8],
    distance: &mut [f32],
    scores: &mut [f32],
) -> Result<(), Refusal>
    ensures answer { result ≡ of_dlo boxes tracks (length detections.now) (length trks.now) (length confs.now) (length since.now) (length distance.old) (length scores.old) }
    ensures work { distance.new ≡ (if q.rich then after result (mh_dist_similarity distance.old one boxes tracks) boxes tracks distance.old else distance.old) }
    ensures boosted { scores.new ≡ boosted_by result (Dlo.dlo_confidence_boost (alike same_label box_labels.now track_labels.now) q detections.now trks.now confs.now (cell_at nan tracks distance.old) (λ j. slice_index since.now j) boxes tracks scores.old) scores.old }
{
    of_dlo(
        boxes,
        tracks,
        detections.len(),
        trks.len(),
        confs.len(),
        since.len(),
        distance.len(),
        scores.len(),
    )?;
    distance_similarity(q.rich, boxes, tracks, distance);
    if tracks == 0 {
        return Ok(());
    }
    let held = Tracks {
        corners: trks,
        confs,
        since,
        labels: track_labels,
    };
    boost_rows(q, detections, box_labels, held, distance, scores);
    Ok(())
}
