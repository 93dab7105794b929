// Similarity of two boxes' shapes: a cell of shape_similarity_v1 and of shape_similarity_v2 of assoc.rs, and its exponent.
ghost use Rattle.std.specs.Prelude.{◌≡◌};
ghost use Rattle.std.specs.Float.Ieee.{neg};
ghost use Rattle.floats.specs.Single.{◌⊕◌, ◌⊖◌, ◌⊘◌};
ghost use Rattle.floats_pick.specs.Pick.{abs};
ghost use Rattle.assoc_boxes.specs.Shape as Shape;

use super::overlap::BoundingBox;

// The differences of the widths and of the heights, each as a part of what is given for it.
fn exponent(det: BoundingBox, trk: BoundingBox, width: f32, height: f32) -> f32
    ensures { result ≡ neg (abs (det.w ⊖ trk.w) ⊘ width ⊕ abs (det.h ⊖ trk.h) ⊘ height) }
{
    let of_widths = floats_pick::abs(det.w - trk.w) / width;
    let of_heights = floats_pick::abs(det.h - trk.h) / height;
    -(of_widths + of_heights)
}

// Both differences by the larger width, as the first BoostTrack has it.
pub fn exponent_v1(det: BoundingBox, trk: BoundingBox) -> f32
    ensures { result ≡ Shape.exponent_v1 det trk }
{
    let width = floats_pick::max(det.w, trk.w);
    exponent(det, trk, width, width)
}

#[tactic(auto, unfolding(crate::specs::Shape::shape_v1))]
pub fn shape_v1(det: BoundingBox, trk: BoundingBox) -> f32
    ensures { result ≡ Shape.shape_v1 det trk }
{
    floats::exp(exponent_v1(det, trk))
}

// Each difference by the larger of its own.
pub fn exponent_v2(det: BoundingBox, trk: BoundingBox) -> f32
    ensures { result ≡ Shape.exponent_v2 det trk }
{
    let width = floats_pick::max(det.w, trk.w);
    let height = floats_pick::max(det.h, trk.h);
    exponent(det, trk, width, height)
}

#[tactic(auto, unfolding(crate::specs::Shape::shape_v2))]
pub fn shape_v2(det: BoundingBox, trk: BoundingBox) -> f32
    ensures { result ≡ Shape.shape_v2 det trk }
{
    floats::exp(exponent_v2(det, trk))
}
