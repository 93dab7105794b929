// The distances of boxes and tracks: get_mh_dist_matrix of boost_tracker.rs.
ghost use Rattle.std.specs.Prelude.{◌≡◌, ◌+◌, ◌*◌, ◌≤◌, length};
ghost use Rattle.std.specs.Float.{nan};
ghost use Rattle.laws.specs.Tab.{tab};
ghost use Rattle.laws.specs.Grid.{grid, cell_at};
ghost use Rattle.strack.specs.Strack.{get_kf_covariance_diag};
ghost use Rattle.assoc_similarity.specs.Sizes.{after};
ghost use Rattle.boost_tracker_mh_dist.specs.Sizes.{of_states};
ghost use Rattle.boost_tracker_mh_dist.specs.MhDist as MhDist;
ghost use Rattle.boost_tracker_mh_dist.specs.Private.{distance_to, Stated};

use super::sizes::of_states;
use refusals::Refusal;
use strack::rect::Xyxy;
use strack::strack::KalmanBoxTracker;
use strack_filter::kalman_filter::DetectBox;

#[tactic(auto, unfolding(crate::specs::MhDist::reciprocal))]
fn reciprocal(v: f32) -> f32
    ensures { result ≡ MhDist.reciprocal v }
{
    if v > 1e-10 { 1.0 / v } else { 1e10 }
}

// A row of sigma_inv: the reciprocals of the variances of a track's position.
pub fn sigma_inv(tracker: KalmanBoxTracker) -> DetectBox
    ensures { result ≡ MhDist.reciprocals (get_kf_covariance_diag tracker) }
{
    let v = tracker.get_kf_covariance_diag();
    DetectBox {
        x: reciprocal(v.x),
        y: reciprocal(v.y),
        h: reciprocal(v.h),
        r: reciprocal(v.r),
    }
}

// Box i of a list of corners.
pub fn det(detections: &[f32], i: usize) -> Xyxy
    requires { i * 4 + 4 ≤ length detections.now }
    ensures { result ≡ MhDist.det detections.now i }
{
    let at = i * 4;
    Xyxy {
        x1: detections[at],
        y1: detections[at + 1],
        x2: detections[at + 2],
        y2: detections[at + 3],
    }
}

// The distance of a box's state and track j, with the loop over the four dimensions written out.
fn distance(z: DetectBox, x: &[f32], sigma: &[f32], j: usize) -> f32
    requires { (j * 4 + 4 ≤ length x.now) × (j * 4 + 4 ≤ length sigma.now) }
    ensures { result ≡ distance_to z x.now sigma.now j }
{
    let at = j * 4;
    let dx = z.x - x[at];
    let dy = z.y - x[at + 1];
    let dh = z.h - x[at + 2];
    let dr = z.r - x[at + 3];
    0.0 + dx * dx * sigma[at]
        + dy * dy * sigma[at + 1]
        + dh * dh * sigma[at + 2]
        + dr * dr * sigma[at + 3]
}

// The distances of one box.
fn distance_row(z: DetectBox, x: &[f32], sigma: &[f32], row: &mut [f32])
    requires { (length x.now ≡ length row.old * 4) × (length sigma.now ≡ length row.old * 4) }
    ensures { row.new ≡ tab (distance_to z x.now sigma.now) (length row.old) }
{
    for (j, cell) in row.iter_mut().enumerate() {
        *cell = distance(z, x, sigma, j);
    }
}

// The distances of all boxes, over the front of out.
fn distance_rows(
    boxes: usize,
    tracks: usize,
    detections: &[f32],
    x: &[f32],
    sigma: &[f32],
    out: &mut [f32],
)
    requires { Stated boxes tracks (length detections.now) (length x.now) (length sigma.now) (length out.old) }
    ensures { out.new ≡ grid (MhDist.mh_dist (MhDist.z detections.now) (cell_at nan 4 x.now) (cell_at nan 4 sigma.now)) boxes tracks out.old }
{
    for i in 0..boxes {
        let at = i * tracks;
        distance_row(
            strack::strack::convert_bbox_to_z(det(detections, i)),
            x,
            sigma,
            &mut out[at..at + tracks],
        );
    }
}

// The distance of each box to each track. x and sigma have a row of four for each track: get_kf_state, and what sigma_inv gives.
pub fn get_mh_dist_matrix(
    boxes: usize,
    tracks: usize,
    detections: &[f32],
    x: &[f32],
    sigma: &[f32],
    out: &mut [f32],
) -> Result<(), Refusal>
    ensures answer { result ≡ of_states boxes tracks (length detections.now) (length x.now) (length sigma.now) (length out.old) }
    ensures cells { out.new ≡ after result (MhDist.mh_dist (MhDist.z detections.now) (cell_at nan 4 x.now) (cell_at nan 4 sigma.now)) boxes tracks out.old }
{
    of_states(
        boxes,
        tracks,
        detections.len(),
        x.len(),
        sigma.len(),
        out.len(),
    )?;
    distance_rows(boxes, tracks, detections, x, sigma, out);
    Ok(())
}
