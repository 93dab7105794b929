// Step 2 of a frame, the boosts of the scores, and the distances that both boosts and the association read. The sizes fit, so that no stage refuses them.
// The contract of a distance is of whatever tracks the rows x and sigma are.
ghost use Rattle.std.specs.Prelude.{◌≡◌, List, length, get_or};
ghost use Rattle.laws.specs.Grid.{grid};
ghost use Rattle.labels.specs.Label.{same_label, alike};
ghost use Rattle.floats.specs.Single.{plus_zero};
ghost use Rattle.boost_tracker_mh_dist.specs.MhDist.{get_mh_dist_matrix};
ghost use Rattle.boost_tracker_table.specs.Table.{Track};
ghost use Rattle.boost_tracker_definition.specs.Update as Update;
ghost use Rattle.boost_tracker_definition.specs.Update.{tracker_at, dlo_settings};
ghost use Rattle.boost_tracker_pairs.specs.Private.{Distant, TrackRoom, States, SinceLow, predicted_in};

use crate::gather::since;
use boost_tracker_dlo::{DloSettings, dlo_confidence_boost};
use boost_tracker_duo::duo_confidence_boost;
use boost_tracker_mh_dist::get_mh_dist_matrix;
use boost_tracker_seen::score_at;
use boost_tracker_settings::Settings;

// The distance of each box to each track, over the front of out: the Rust's get_mh_dist_matrix.
pub(crate) fn mh_dist(
    held: usize,
    boxes: usize,
    corners: &[f32],
    x: &[f32],
    sigma: &[f32],
    out: &mut [f32],
)
    requires { Distant boxes held (length corners.now) (length x.now) (length sigma.now) (length out.old) }
    ensures { (ts : List Track) → States held ts x.now sigma.now → out.new ≡ grid (get_mh_dist_matrix corners.now (tracker_at ts)) boxes held out.old }
{
    get_mh_dist_matrix(boxes, held, corners, x, sigma, out).unwrap();
}

fn dlo_settings(settings: Settings) -> DloSettings
    ensures { result ≡ dlo_settings settings }
{
    DloSettings {
        rich: settings.use_rich_similarity,
        corrected: settings.use_shape_similarity_correction,
        soft: settings.use_soft_boost,
        varying: settings.use_varying_threshold,
        coef: settings.dlo_boost_coef,
        thresh: settings.det_thresh,
    }
}

// Kept: what Distant, TrackRoom and SinceLow say is of slices that are lent from work memory, some of them `&mut`: a struct of them needs a clause for each wherever it is lent on.
fn dlo(
    settings: Settings,
    floats: &[f32],
    counters: &[u64],
    held: usize,
    corners: &[f32],
    trks: &[f32],
    confs: &[f32],
    x: &[f32],
    sigma: &[f32],
    box_labels: &[u8],
    track_labels: &[u8],
    work: &mut [f32],
    scores: &mut [f32],
)
    requires sizes { Distant (length scores.old) held (length corners.now) (length x.now) (length sigma.now) (length work.old) }
    requires tracks { TrackRoom held (length floats.now) (length counters.now) (length trks.now) (length confs.now) }
    requires low { SinceLow held (predicted_in floats.now counters.now held) }
    ensures { let ts = predicted_in floats.now counters.now held in States held ts x.now sigma.now
        → scores.new ≡ Update.after_dlo (alike same_label box_labels.now track_labels.now) settings corners.now trks.now confs.now ts scores.old }
{
    if settings.use_dlo_boost & (held > 0) {
        let boxes = scores.len();
        if settings.use_rich_similarity {
            mh_dist(held, boxes, corners, x, sigma, work);
        }
        let mut times = [0u32; 255];
        since(floats, counters, held, &mut times[..held]);
        dlo_confidence_boost(
            dlo_settings(settings),
            boxes,
            held,
            corners,
            trks,
            confs,
            &times[..held],
            box_labels,
            track_labels,
            work,
            scores,
        )
        .unwrap();
    }
}

fn duo(
    settings: Settings,
    frame: u64,
    held: usize,
    corners: &[f32],
    x: &[f32],
    sigma: &[f32],
    work: &mut [f32],
    scores: &mut [f32],
)
    requires { Distant (length scores.old) held (length corners.now) (length x.now) (length sigma.now) (length work.old) }
    ensures { (ts : List Track) → States held ts x.now sigma.now → scores.new ≡ Update.after_duo settings frame corners.now ts scores.old }
{
    if settings.use_duo_boost & (held > 0) {
        let boxes = scores.len();
        mh_dist(held, boxes, corners, x, sigma, work);
        let thresh = settings.det_thresh;
        duo_confidence_boost(frame, thresh, boxes, held, corners, work, scores).unwrap();
    }
}

// Both boosts. Each stores its distances over the front of work. What they leave is in the scores; the score of the box `seen` after the DLO boost is handed back.
pub(crate) fn boost(
    settings: Settings,
    frame: u64,
    floats: &[f32],
    counters: &[u64],
    held: usize,
    corners: &[f32],
    trks: &[f32],
    confs: &[f32],
    x: &[f32],
    sigma: &[f32],
    box_labels: &[u8],
    track_labels: &[u8],
    seen: usize,
    work: &mut [f32],
    scores: &mut [f32],
) -> f32
    requires sizes { Distant (length scores.old) held (length corners.now) (length x.now) (length sigma.now) (length work.old) }
    requires tracks { TrackRoom held (length floats.now) (length counters.now) (length trks.now) (length confs.now) }
    requires low { SinceLow held (predicted_in floats.now counters.now held) }
    ensures { let ts = predicted_in floats.now counters.now held in States held ts x.now sigma.now →
        (let once = Update.after_dlo (alike same_label box_labels.now track_labels.now) settings corners.now trks.now confs.now ts scores.old in
        (result ≡ get_or once seen plus_zero) × (scores.new ≡ Update.after_duo settings frame corners.now ts once)) }
{
    dlo(
        settings,
        floats,
        counters,
        held,
        corners,
        trks,
        confs,
        x,
        sigma,
        box_labels,
        track_labels,
        work,
        scores,
    );
    let once = score_at(scores, seen);
    duo(settings, frame, held, corners, x, sigma, work, scores);
    once
}
