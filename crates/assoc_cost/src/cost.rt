// A cell of the cost matrix of associate of assoc.rs, steps 1 to 4: overlap, confidences, distance and shapes of a detection and a track.
ghost use Rattle.std.specs.Prelude.{◌≡◌, cond, get_or};
ghost use Rattle.floats.specs.Single.{plus_zero};
ghost use Rattle.assoc_similarity.specs.Shape.{shape_v1, shape_v2};
ghost use Rattle.assoc_cost.specs.Cost.{conf_of, cost_cell};
ghost use Rattle.assoc_cost.specs.Private.{sure_cost, unsure_cost};

use assoc_boxes::overlap::{BoundingBox, overlap};
use assoc_boxes::shape::{shape_v1, shape_v2};
use assoc_similarity::confidence_at;

// The weights, and flags for the Rust's Options: where one is false its slice is not looked at.
// Kept: C fills it in, a byte for each flag, as bedside.h's bedside_associate_params.
#[repr(C)]
#[derive(Clone, Copy)]
pub struct AssociateParams {
    pub iou_threshold: f32,
    pub lambda_iou: f32,
    pub lambda_mhd: f32,
    pub lambda_shape: f32,
    pub use_shape_similarity_correction: bool,
    pub has_mahalanobis: bool,
    pub has_confidence: bool,
}

fn shape(corrected: bool, det: BoundingBox, trk: BoundingBox) -> f32
    ensures { result ≡ cond corrected (shape_v2 det trk) (shape_v1 det trk) }
{
    if corrected {
        return shape_v2(det, trk);
    }
    shape_v1(det, trk)
}

fn conf_of(iou_threshold: f32, iou: f32, det_conf: f32, trk_conf: f32) -> f32
    ensures { result ≡ conf_of iou_threshold iou det_conf trk_conf }
{
    if iou >= iou_threshold {
        return det_conf * trk_conf;
    }
    0.0
}

// The cost where there are confidences.
fn sure_cost(
    params: AssociateParams,
    det: BoundingBox,
    trk: BoundingBox,
    iou: f32,
    conf: f32,
    mh: f32,
) -> f32
    ensures { result ≡ sure_cost params det trk iou conf mh }
{
    let weighted = iou + params.lambda_iou * conf * iou;
    if params.has_mahalanobis {
        let likeness = shape(params.use_shape_similarity_correction, det, trk);
        return weighted + params.lambda_mhd * mh + params.lambda_shape * conf * likeness;
    }
    weighted
}

// And where there are none.
fn unsure_cost(params: AssociateParams, iou: f32, mh: f32) -> f32
    ensures { result ≡ unsure_cost params iou mh }
{
    if params.has_mahalanobis {
        return iou + params.lambda_mhd * mh;
    }
    iou
}

// The cost of detection i and track j, whose distance has the similarity mh.
pub fn cost_cell(
    params: AssociateParams,
    det: BoundingBox,
    trk: BoundingBox,
    detection_confidence: &[f32],
    i: usize,
    track_confidence: &[f32],
    j: usize,
    mh: f32,
) -> f32
    ensures { result ≡ cost_cell params det trk (get_or detection_confidence.now i plus_zero) (get_or track_confidence.now j plus_zero) mh }
{
    let iou = overlap(det, trk).ratio;
    if params.has_confidence {
        let det_conf = confidence_at(detection_confidence, i);
        let trk_conf = confidence_at(track_confidence, j);
        let conf = conf_of(params.iou_threshold, iou, det_conf, trk_conf);
        return sure_cost(params, det, trk, iou, conf, mh);
    }
    unsure_cost(params, iou, mh)
}
