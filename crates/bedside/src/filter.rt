// The filter, the conversions and the confidence.
ghost use Rattle.std.specs.Prelude.{◌≡◌};
ghost use Rattle.bedside_answers.specs.Filter as C;
ghost use Rattle.strack_filter.specs.KalmanFilter.{start_pair, predict_pair, correct_pair};
ghost use Rattle.strack.specs.Strack.{convert_bbox_to_z, convert_z_to_bbox, confidence};

use bedside_answers::filter::Corrected;
use strack::rect::Xyxy;
use strack_filter::kalman_filter::{DetectBox, Pair};

// A new pair at z.
#[unsafe(no_mangle)]
pub extern "C" fn bedside_pair_new(z: f32) -> Pair
    ensures { result ≡ start_pair z }
{
    Pair::start(z)
}

#[unsafe(no_mangle)]
pub extern "C" fn bedside_pair_predict(pair: Pair) -> Pair
    ensures { result ≡ predict_pair pair }
{
    pair.predict()
}

// 12 where A + R is not positive and finite.
#[unsafe(no_mangle)]
pub extern "C" fn bedside_pair_correct(pair: Pair, z: f32, r: f32) -> Corrected
    ensures { result ≡ C.in_c (correct_pair pair z r) }
{
    Corrected::from(pair.correct(z, r))
}

#[unsafe(no_mangle)]
pub extern "C" fn bedside_convert_bbox_to_z(bbox: &[f32; 4], z: &mut [f32; 4])
    ensures { z.new ≡ C.measurement_list (convert_bbox_to_z (C.corners bbox.now)) }
{
    let b = Xyxy {
        x1: bbox[0],
        y1: bbox[1],
        x2: bbox[2],
        y2: bbox[3],
    };
    let m = strack::strack::convert_bbox_to_z(b);
    *z = [m.x, m.y, m.h, m.r];
}

#[unsafe(no_mangle)]
pub extern "C" fn bedside_convert_z_to_bbox(z: &[f32; 4], bbox: &mut [f32; 4])
    ensures { bbox.new ≡ C.corner_list (convert_z_to_bbox (C.measurement z.now)) }
{
    let m = DetectBox {
        x: z[0],
        y: z[1],
        h: z[2],
        r: z[3],
    };
    let b = strack::strack::convert_z_to_bbox(m);
    *bbox = [b.x1, b.y1, b.x2, b.y2];
}

// get_confidence of a track with these counters.
#[unsafe(no_mangle)]
pub extern "C" fn bedside_confidence(age: u64, time_since_update: u64, coef: f32) -> f32
    ensures { result ≡ confidence age time_since_update coef }
{
    strack::strack::confidence(age, time_since_update, coef)
}
