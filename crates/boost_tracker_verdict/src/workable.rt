// Whether the floats of held tracks and of the settings can be worked with: document 01's 12 and 13.
ghost use Rattle.std.specs.Prelude.{◌≡◌, [], ◌∷◌};
ghost use Rattle.std.specs.Float.Ieee.Scale.{finite as ieee_finite};
ghost use Rattle.laws.specs.Every.{every};
ghost use Rattle.boost_tracker_table.specs.Table.{pair_floats, tracks};
ghost use Rattle.boost_tracker_verdict.specs.Verdict.{workable, setting_floats};
ghost use Rattle.boost_tracker_verdict.specs.Private.{filter_floats};

use boost_tracker_settings::Settings;
use boost_tracker_table::{load, placed};
use box_verdict::finite;
use strack::strack::KalmanBoxTracker;
use strack_filter::kalman_filter::{KalmanFilter, Pair};

// `&`, so that no test waits for the one before: a frame does this for each held track.
fn six_finite(a: f32, b: f32, c: f32, d: f32, e: f32, f: f32) -> bool
    ensures { result ≡ every ieee_finite (a ∷ b ∷ c ∷ d ∷ e ∷ f ∷ []) }
{
    finite(a) & finite(b) & finite(c) & finite(d) & finite(e) & finite(f)
}

fn finite_pair(s: Pair) -> bool
    ensures { result ≡ every ieee_finite (pair_floats s) }
{
    six_finite(s.p, s.v, s.a, s.b, s.c, s.d)
}

fn finite_filter(kf: KalmanFilter) -> bool
    ensures { result ≡ every ieee_finite (filter_floats kf) }
{
    finite_pair(kf.x) & finite_pair(kf.y) & finite_pair(kf.h) & finite_pair(kf.r)
}

// Every float is finite, and once predicted the track can be corrected.
#[tactic(auto, unfolding(crate::specs::Verdict::workable))]
fn workable(t: KalmanBoxTracker) -> bool
    ensures { result ≡ workable t }
{
    let predicted = t.predict();
    finite_filter(t.kf) && predicted.kf.correctable()
}

// Each of the held tracks is workable.
pub(crate) fn all_workable(floats: &[f32], counters: &[u64], held: usize) -> bool
    ensures { result ≡ every workable (tracks floats.now counters.now held) }
{
    let n = placed(floats.len(), counters.len(), held);
    for i in 0..n {
        if !workable(load(floats, counters, held, i)) {
            return false;
        }
    }
    true
}

pub(crate) fn finite_settings(s: Settings) -> bool
    ensures { result ≡ every ieee_finite (setting_floats s) }
{
    six_finite(
        s.det_thresh,
        s.iou_threshold,
        s.lambda_iou,
        s.lambda_mhd,
        s.lambda_shape,
        s.dlo_boost_coef,
    )
}
