// The filter, kalman_filter.rs: its 8 by 8 matrices are four pairs, x, y, h and r, each a position
// and a speed with their four covariances. Each operation rounds once, in document 01's order.
ghost use Rattle.std.specs.Prelude.{◌≡◌};
ghost use Rattle.std.specs.Float.Ieee.Positive.{positive as ieee_positive};
ghost use Rattle.strack_filter.specs.KalmanFilter.{start_pair, predict_pair, correctable, gained, corrected, correct_pair, pair_answer, new as new_filter, predict as predict_filter, updatable, updated, update as update_filter, filter_answer};

// The noise R of a measurement, for x, y, h and r.
const R_X: f32 = 1.0;

const R_Y: f32 = 1.0;

const R_H: f32 = 10.0;

const R_R: f32 = 0.01;

// A measured box: centre x, centre y, height, aspect (width / height).
#[derive(Clone, Copy)]
pub struct DetectBox {
    pub x: f32,
    pub y: f32,
    pub h: f32,
    pub r: f32,
}

// Position p, speed v, covariances (rows: a b, c d).
#[repr(C)]
#[derive(Clone, Copy, Default)]
pub struct Pair {
    pub p: f32,
    pub v: f32,
    pub a: f32,
    pub b: f32,
    pub c: f32,
    pub d: f32,
}

#[derive(Clone, Copy, Default)]
pub struct KalmanFilter {
    pub x: Pair,
    pub y: Pair,
    pub h: Pair,
    pub r: Pair,
}

// Above zero and finite.
fn positive(s: f32) -> bool
    ensures { result ≡ ieee_positive s }
{
    (s > 0.0) & s.is_finite()
}

impl Pair {
    pub fn start(z: f32) -> Pair
        ensures { result ≡ start_pair z }
    {
        Pair {
            p: z,
            v: 0.0,
            a: 10.0,
            b: 0.0,
            c: 0.0,
            d: 10000.0,
        }
    }

    pub fn predict(self) -> Pair
        ensures { result ≡ predict_pair self }
    {
        Pair {
            p: self.p + self.v,
            v: self.v,
            a: ((self.a + self.c) + (self.b + self.d)) + 1.0,
            b: self.b + self.d,
            c: self.c + self.d,
            d: self.d + 0.01,
        }
    }

    // Whether a correction with this noise is accepted.
    fn correctable(self, noise: f32) -> bool
        ensures { result ≡ correctable self noise }
    {
        positive(self.a + noise)
    }

    // The pair after the measurement z, l being the root of a + noise.
    fn gained(self, z: f32, noise: f32, l: f32) -> Pair
        ensures { result ≡ gained self z noise l }
    {
        let k = (self.a / l) / l;
        let g = (self.c / l) / l;
        let a = 1.0 - k;
        let m = 0.0 - g;
        Pair {
            p: self.p + (z - self.p) * k,
            v: self.v + (z - self.p) * g,
            a: (a * self.a) * a + (k * noise) * k,
            b: ((a * self.a) * m + a * self.b) + (k * noise) * g,
            c: (m * self.a + self.c) * a + (g * noise) * k,
            d: ((m * self.a + self.c) * m + (m * self.b + self.d)) + (g * noise) * g,
        }
    }

    #[tactic(auto, unfolding(crate::specs::KalmanFilter::corrected))]
    fn corrected(self, z: f32, noise: f32) -> Pair
        ensures { result ≡ corrected self z noise }
    {
        self.gained(z, noise, floats::sqrt(self.a + noise))
    }

    // A corrected pair, or the pair as it was where A + R is not positive and finite.
    #[tactic(auto, unfolding(crate::specs::KalmanFilter::correct_pair))]
    pub fn correct(self, z: f32, noise: f32) -> Result<Pair, Pair>
        ensures { pair_answer result ≡ correct_pair self z noise }
    {
        if self.correctable(noise) {
            Ok(self.corrected(z, noise))
        } else {
            Err(self)
        }
    }
}

impl KalmanFilter {
    pub fn new(z: DetectBox) -> KalmanFilter
        ensures { result ≡ new_filter z }
    {
        KalmanFilter {
            x: Pair::start(z.x),
            y: Pair::start(z.y),
            h: Pair::start(z.h),
            r: Pair::start(z.r),
        }
    }

    pub fn predict(self) -> KalmanFilter
        ensures { result ≡ predict_filter self }
    {
        KalmanFilter {
            x: self.x.predict(),
            y: self.y.predict(),
            h: self.h.predict(),
            r: self.r.predict(),
        }
    }

    // Whether a correction of all four pairs is accepted.
    #[tactic(auto, unfolding(crate::specs::KalmanFilter::updatable))]
    pub fn correctable(self) -> bool
        ensures { result ≡ updatable self }
    {
        self.x.correctable(R_X)
            & self.y.correctable(R_Y)
            & self.h.correctable(R_H)
            & self.r.correctable(R_R)
    }

    fn updated(self, z: DetectBox) -> KalmanFilter
        ensures { result ≡ updated self z }
    {
        KalmanFilter {
            x: self.x.corrected(z.x, R_X),
            y: self.y.corrected(z.y, R_Y),
            h: self.h.corrected(z.h, R_H),
            r: self.r.corrected(z.r, R_R),
        }
    }

    // A corrected filter, or the filter as it was where one of its pairs is refused.
    #[tactic(auto, unfolding(crate::specs::KalmanFilter::update))]
    pub fn update(self, z: DetectBox) -> Result<KalmanFilter, KalmanFilter>
        ensures { filter_answer result ≡ update_filter self z }
    {
        if self.correctable() {
            Ok(self.updated(z))
        } else {
            Err(self)
        }
    }
}
