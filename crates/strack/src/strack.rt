// A track, strack.rs: the filter of a box with its id and counters, handed to predict or correct by
// value and handed back; the conversions between corners and a measurement.
ghost use Rattle.std.specs.Prelude.{◌≡◌, if◌then◌else◌, nat_lt};
ghost use Rattle.strack.specs.Strack.{convert_bbox_to_z, convert_z_to_bbox, new as new_track, as_i32, exponent, confidence, get_confidence, update as update_track, track_answer, predict as predict_track, get_state, get_kf_state, get_kf_covariance_diag};

use crate::rect::Xyxy;
use strack_filter::kalman_filter::{DetectBox, KalmanFilter};

#[derive(Clone, Copy, Default)]
pub struct KalmanBoxTracker {
    pub kf: KalmanFilter,
    pub id: u64,
    // frames since the last correction
    pub since: u64,
    // consecutive frames with a correction
    pub streak: u64,
    // frames since the start
    pub age: u64,
}

pub fn convert_bbox_to_z(bbox: Xyxy) -> DetectBox
    ensures { result ≡ convert_bbox_to_z bbox }
{
    let w = bbox.x2 - bbox.x1;
    let h = bbox.y2 - bbox.y1;
    DetectBox {
        x: bbox.x1 + w / 2.0,
        y: bbox.y1 + h / 2.0,
        h,
        r: w / (h + 1e-6),
    }
}

pub fn convert_z_to_bbox(z: DetectBox) -> Xyxy
    ensures { result ≡ convert_z_to_bbox z }
{
    let w = crate::rect::width_of(z.h, z.r);
    Xyxy {
        x1: z.x - w / 2.0,
        y1: z.y - z.h / 2.0,
        x2: z.x + w / 2.0,
        y2: z.y + z.h / 2.0,
    }
}

// The Rust's `as i32`: the 32 lowest bits of n, the highest of them the sign.
#[tactic(auto, unfolding(crate::specs::Strack::as_i32))]
fn as_i32(n: u64) -> i32
    ensures { result ≡ as_i32 n }
{
    ((n % 0x1_0000_0000) as u32).cast_signed()
}

#[tactic(auto, unfolding(crate::specs::Strack::exponent))]
fn exponent(age: u64, since: u64) -> u64
    ensures { result ≡ exponent age since }
{
    if age < 7 {
        7 - age
    } else {
        since.wrapping_sub(1)
    }
}

// get_confidence of a track with these counters.
pub fn confidence(age: u64, since: u64, coef: f32) -> f32
    ensures { result ≡ confidence age since coef }
{
    floats_power::powi(coef, as_i32(exponent(age, since)))
}

// A streak ends where the track has missed a frame.
fn kept_streak(since: u64, streak: u64) -> u64
    ensures { result ≡ (if nat_lt 0 since then 0 else streak) }
{
    if since > 0 { 0 } else { streak }
}

impl KalmanBoxTracker {
    #[tactic(auto, unfolding(crate::specs::Strack::new))]
    pub fn new(bbox: Xyxy, id: u64) -> KalmanBoxTracker
        ensures { result ≡ new_track bbox id }
    {
        KalmanBoxTracker {
            kf: KalmanFilter::new(convert_bbox_to_z(bbox)),
            id,
            since: 0,
            streak: 0,
            age: 0,
        }
    }

    pub fn id(self) -> u64
        ensures { result ≡ self.id }
    {
        self.id
    }

    pub fn time_since_update(self) -> u64
        ensures { result ≡ self.since }
    {
        self.since
    }

    pub fn hit_streak(self) -> u64
        ensures { result ≡ self.streak }
    {
        self.streak
    }

    pub fn age(self) -> u64
        ensures { result ≡ self.age }
    {
        self.age
    }

    pub fn get_confidence(self, coef: f32) -> f32
        ensures { result ≡ get_confidence self coef }
    {
        confidence(self.age, self.since, coef)
    }

    // The Rust's update; the score that it takes besides is not used there. A corrected track, or the track as it was where the filter refuses.
    pub fn correct(self, bbox: Xyxy) -> Result<KalmanBoxTracker, KalmanBoxTracker>
        ensures { track_answer result ≡ update_track self bbox }
    {
        let kf = self.kf.update(convert_bbox_to_z(bbox)).map_err(|_| self)?;
        Ok(KalmanBoxTracker {
            kf,
            since: 0,
            streak: self.streak.wrapping_add(1),
            ..self
        })
    }

    #[tactic(auto, unfolding(crate::specs::Strack::predict))]
    pub fn predict(self) -> KalmanBoxTracker
        ensures { result ≡ predict_track self }
    {
        KalmanBoxTracker {
            kf: self.kf.predict(),
            since: self.since.wrapping_add(1),
            streak: kept_streak(self.since, self.streak),
            age: self.age.wrapping_add(1),
            ..self
        }
    }

    #[tactic(auto, unfolding(crate::specs::Strack::get_state))]
    pub fn get_state(self) -> Xyxy
        ensures { result ≡ get_state self }
    {
        convert_z_to_bbox(self.get_kf_state())
    }

    // The measured half of the state: the four positions.
    pub fn get_kf_state(self) -> DetectBox
        ensures { result ≡ get_kf_state self }
    {
        DetectBox {
            x: self.kf.x.p,
            y: self.kf.y.p,
            h: self.kf.h.p,
            r: self.kf.r.p,
        }
    }

    // The variances of the four positions.
    // Kept: a closure for the field would need a clause for each of the four, where this names them.
    pub fn get_kf_covariance_diag(self) -> DetectBox
        ensures { result ≡ get_kf_covariance_diag self }
    {
        DetectBox {
            x: self.kf.x.a,
            y: self.kf.y.a,
            h: self.kf.h.a,
            r: self.kf.r.a,
        }
    }
}
