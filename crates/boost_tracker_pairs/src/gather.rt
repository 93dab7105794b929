// What steps 1 to 5 of a frame read of its boxes and of the tracks, in flat lists. A track is predicted as it is read, so that the table is left.
ghost use Rattle.std.specs.Prelude.{◌≡◌, ◌+◌, ◌*◌, ◌≤◌, ◌<◌, length, set};
ghost use Rattle.strack.specs.Strack.{get_state, get_kf_state, get_kf_covariance_diag, get_confidence};
ghost use Rattle.boost_tracker_mh_dist.specs.MhDist.{row, reciprocals};
ghost use Rattle.records.specs.BoxRecord.{box_values};
ghost use Rattle.boost_tracker_table.specs.Table.{capacity};
ghost use Rattle.boost_tracker_emission.specs.Record.{nine_tenths};
ghost use Rattle.boost_tracker_verdict.specs.Verdict.{boxes_in};
ghost use Rattle.boost_tracker_definition.specs.Update as Update;
ghost use Rattle.boost_tracker_definition.specs.Update.{corners_of, xyxy_of, tracker_at};
ghost use Rattle.boost_tracker_pairs.specs.Pairs.{xyxy_at};
ghost use Rattle.boost_tracker_pairs.specs.Private.{four_floats, predicted_in, since_of, SinceLow, LocalRoom, StateRoom, track_lists_with, TracksRead};

use boost_tracker_mh_dist::sigma_inv;
use boost_tracker_seen::since_predicted;
use boost_tracker_table::load;
use records::BOX_VALUES;
use strack::rect::{Rect, Xyxy};
use strack::strack::KalmanBoxTracker;
use strack_filter::kalman_filter::DetectBox;

// Four floats of a flat list: the corners of a box, or a state x, y, h, r.
#[derive(Drop)]
pub(crate) struct Four {
    a: f32,
    b: f32,
    c: f32,
    d: f32,
}

pub(crate) fn of_corners(b: Xyxy) -> Four
    ensures { four_floats result ≡ corners_of b }
{
    Four {
        a: b.x1,
        b: b.y1,
        c: b.x2,
        d: b.y2,
    }
}

fn of_state(z: DetectBox) -> Four
    ensures { four_floats result ≡ row z }
{
    Four {
        a: z.x,
        b: z.y,
        c: z.h,
        d: z.r,
    }
}

pub(crate) fn put_four(out: &mut [f32], v: Four)
    requires { length out.old ≡ 4 }
    ensures { out.new ≡ four_floats v }
{
    out[0] = v.a;
    out[1] = v.b;
    out[2] = v.c;
    out[3] = v.d;
}

// ---- of the boxes

// The corners of object i.
pub(crate) fn xyxy_of(objects: &[f32], i: usize) -> Xyxy
    requires { i * box_values + box_values ≤ length objects.now }
    ensures { result ≡ xyxy_of objects.now i }
{
    let at = i * BOX_VALUES;
    let rect = Rect {
        left: objects[at],
        top: objects[at + 1],
        width: objects[at + 2],
        height: objects[at + 3],
    };
    rect.get_xyxy()
}

// The corners of object i, or zeros where there is none.
pub fn xyxy_at(objects: &[f32], i: usize) -> Xyxy
    ensures { result ≡ xyxy_at objects.now i }
{
    if i < objects.len() / BOX_VALUES {
        return xyxy_of(objects, i);
    }
    Xyxy {
        x1: 0.0,
        y1: 0.0,
        x2: 0.0,
        y2: 0.0,
    }
}

pub(crate) fn bboxes(objects: &[f32], corners: &mut [f32])
    requires { length corners.old ≡ boxes_in objects.now * 4 }
    ensures { corners.new ≡ Update.bboxes objects.now }
{
    for i in 0..objects.len() / BOX_VALUES {
        let at = i * 4;
        put_four(&mut corners[at..at + 4], of_corners(xyxy_of(objects, i)));
    }
}

pub(crate) fn scores(objects: &[f32], out: &mut [f32])
    requires { length out.old ≡ boxes_in objects.now }
    ensures { out.new ≡ Update.scores objects.now }
{
    for (i, score) in out.iter_mut().enumerate() {
        *score = objects[i * BOX_VALUES + 4];
    }
}

// ---- of the tracks

// Track j of those held, predicted.
fn predicted(floats: &[f32], counters: &[u64], held: usize, j: usize) -> KalmanBoxTracker
    requires { (j < held) × (held ≤ capacity (length floats.now) (length counters.now)) }
    ensures { result ≡ tracker_at (predicted_in floats.now counters.now held) j }
{
    let t = load(floats, counters, held, j);
    t.predict()
}

// What is read of a track: a row in each of three lists, and entry j of the fourth.
fn put_track(
    t: KalmanBoxTracker,
    j: usize,
    trk: &mut [f32],
    state: &mut [f32],
    variances: &mut [f32],
    confs: &mut [f32],
)
    requires rows { (length trk.old ≡ 4) × (length state.old ≡ 4) × (length variances.old ≡ 4) }
    requires entry { j < length confs.old }
    ensures trk { trk.new ≡ corners_of (get_state t) }
    ensures state { state.new ≡ row (get_kf_state t) }
    ensures variances { variances.new ≡ row (reciprocals (get_kf_covariance_diag t)) }
    ensures conf { confs.new ≡ set confs.old j (get_confidence t nine_tenths) }
{
    confs[j] = t.get_confidence(0.9);
    put_four(trk, of_corners(t.get_state()));
    put_four(state, of_state(t.get_kf_state()));
    put_four(variances, of_state(sigma_inv(t)));
}

// What the boosts, the distances and the association read of the tracks: corners and confidences, the states, and the reciprocals of their variances.
fn gather_tracks(
    floats: &[f32],
    counters: &[u64],
    held: usize,
    trks: &mut [f32],
    confs: &mut [f32],
    x: &mut [f32],
    sigma: &mut [f32],
)
    requires sizes { ((length trks.old ≡ held * 4) × (length confs.old ≡ held)) × StateRoom held (length x.old) (length sigma.old) }
    requires room { held ≤ capacity (length floats.now) (length counters.now) }
    ensures { TracksRead held (predicted_in floats.now counters.now held) (track_lists_with trks.new confs.new x.new sigma.new) }
{
    for j in 0..held {
        let at = j * 4;
        let t = predicted(floats, counters, held, j);
        put_track(
            t,
            j,
            &mut trks[at..at + 4],
            &mut x[at..at + 4],
            &mut sigma[at..at + 4],
            confs,
        );
    }
}

// What steps 2 to 5 read.
pub(crate) fn gather(
    floats: &[f32],
    counters: &[u64],
    held: usize,
    objects: &[f32],
    corners: &mut [f32],
    probs: &mut [f32],
    trks: &mut [f32],
    confs: &mut [f32],
    x: &mut [f32],
    sigma: &mut [f32],
)
    requires sizes { LocalRoom held (boxes_in objects.now) (length corners.old) (length probs.old) (length trks.old) (length confs.old) × StateRoom held (length x.old) (length sigma.old) }
    requires room { held ≤ capacity (length floats.now) (length counters.now) }
    ensures boxes { (corners.new ≡ Update.bboxes objects.now) × (probs.new ≡ Update.scores objects.now) }
    ensures tracks { TracksRead held (predicted_in floats.now counters.now held) (track_lists_with trks.new confs.new x.new sigma.new) }
{
    bboxes(objects, corners);
    scores(objects, probs);
    gather_tracks(floats, counters, held, trks, confs, x, sigma);
}

fn since_at(floats: &[f32], counters: &[u64], held: usize, j: usize) -> u64
    requires { (j < held) × (held ≤ capacity (length floats.now) (length counters.now)) }
    ensures { result ≡ (tracker_at (predicted_in floats.now counters.now held) j).since }
{
    let t = load(floats, counters, held, j);
    since_predicted(t)
}

// The times since update.
pub(crate) fn since(floats: &[f32], counters: &[u64], held: usize, out: &mut [u32])
    requires sizes { (length out.old ≡ held) × (held ≤ capacity (length floats.now) (length counters.now)) }
    requires low { SinceLow held (predicted_in floats.now counters.now held) }
    ensures { out.new ≡ since_of (predicted_in floats.now counters.now held) }
{
    for j in 0..held {
        let time = since_at(floats, counters, held, j);
        out[j] = time as u32;
    }
}
