// Two boxes, and what they have in common: a cell of iou_batch and of soft_biou_batch of assoc.rs.
ghost use Rattle.std.specs.Prelude.{◌≡◌};
ghost use Rattle.assoc_boxes.specs.Overlap as Overlap;

// A box by its corners, and what the Rust takes from them: a row of a matrix computes it once.
#[derive(Clone, Copy)]
pub struct BoundingBox {
    pub x1: f32,
    pub y1: f32,
    pub x2: f32,
    pub y2: f32,
    pub w: f32,
    pub h: f32,
    pub area: f32,
}

pub fn bounding_box(x1: f32, y1: f32, x2: f32, y2: f32) -> BoundingBox
    ensures { result ≡ Overlap.bounding_box x1 y1 x2 y2 }
{
    let w = x2 - x1;
    let h = y2 - y1;
    BoundingBox {
        x1,
        y1,
        x2,
        y2,
        w,
        h,
        area: w * h,
    }
}

// The area that two boxes share.
#[tactic(auto, unfolding(crate::specs::Overlap::intersection))]
fn intersection(det: BoundingBox, trk: BoundingBox) -> f32
    ensures { result ≡ Overlap.intersection det trk }
{
    let xx1 = floats_pick::max(det.x1, trk.x1);
    let yy1 = floats_pick::max(det.y1, trk.y1);
    let xx2 = floats_pick::min(det.x2, trk.x2);
    let yy2 = floats_pick::min(det.y2, trk.y2);
    let w = floats_pick::max(xx2 - xx1, 0.0);
    let h = floats_pick::max(yy2 - yy1, 0.0);
    w * h
}

// What two boxes have in common: the numerator of a cell, its denominator, which is given also where it does not divide, and the cell.
#[repr(C)]
#[derive(Clone, Copy)]
pub struct OverlapAreas {
    pub intersection: f32,
    pub union: f32,
    pub ratio: f32,
}

// 0 unless the union is above 0.
#[tactic(auto, unfolding(crate::specs::Overlap::ratio))]
fn ratio(wh: f32, union: f32) -> f32
    ensures { result ≡ Overlap.ratio wh union }
{
    if union > 0.0 { wh / union } else { 0.0 }
}

// The area that two boxes share, that of their union, and the share.
#[tactic(auto, unfolding(crate::specs::Overlap::overlap, crate::specs::Overlap::union))]
pub fn overlap(det: BoundingBox, trk: BoundingBox) -> OverlapAreas
    ensures { result ≡ Overlap.overlap det trk }
{
    let wh = intersection(det, trk);
    let union = det.area + trk.area - wh;
    OverlapAreas {
        intersection: wh,
        union,
        ratio: ratio(wh, union),
    }
}

// The box grown on each side by a part k of its size, the less the surer its track is.
fn buffered(b: BoundingBox, confidence: f32, k: f32) -> BoundingBox
    ensures { result ≡ Overlap.buffered b confidence k }
{
    let dx = b.w * (1.0 - confidence) * k;
    let dy = b.h * (1.0 - confidence) * k;
    bounding_box(b.x1 - dx, b.y1 - dy, b.x2 + dx, b.y2 + dy)
}

// The overlap of a detection and a track that are buffered by the track's confidence.
#[tactic(auto, unfolding(crate::specs::Overlap::soft_biou))]
pub fn soft_biou(det: BoundingBox, trk: BoundingBox, confidence: f32) -> f32
    ensures { result ≡ Overlap.soft_biou det trk confidence }
{
    overlap(
        buffered(det, confidence, 0.25),
        buffered(trk, confidence, 0.5),
    )
    .ratio
}
