// Matrices over two lists of corners: iou_batch, soft_biou_batch, shape_similarity_v1 and shape_similarity_v2 of assoc.rs,
// by one loop over the rows, which takes the measure of a cell as a closure.
ghost use Rattle.std.specs.Prelude.{◌≡◌, ℕ, ◌+◌, ◌*◌, ◌≤◌, ◌<◌, Float, length, get_or};
ghost use Rattle.std.specs.Float.{nan};
ghost use Rattle.laws.specs.Grid.{grid, cell_at};
ghost use Rattle.assoc_boxes.specs.declared.overlap.BoundingBox.{BoundingBox};
ghost use Rattle.cells.specs.Filled.{RowsFilled};
ghost use Rattle.floats.specs.Single.{plus_zero};
ghost use Rattle.floats.specs.Exponential.{exp};
ghost use Rattle.assoc_similarity.specs.Sizes.{of_corners, of_confidences, after};
ghost use Rattle.assoc_similarity.specs.Overlap.{box_at, iou_batch, soft_biou_batch};
ghost use Rattle.assoc_similarity.specs.Shape.{shape_similarity_v1, shape_similarity_v2};

use super::corners::box_at;
use assoc_boxes::overlap::{BoundingBox, overlap, soft_biou};
use assoc_boxes::shape::{exponent_v1, exponent_v2};
use assoc_sizes::{of_confidences, of_corners};
use cells::{fill, fill_rows};
use refusals::Refusal;

// The confidence of track j, 0 where none are lent.
pub fn confidence_at(confidences: &[f32], j: usize) -> f32
    ensures { result ≡ get_or confidences.now j plus_zero }
{
    confidences.get(j).copied().unwrap_or(0.0)
}

// The rows of a matrix over the front of `out`: a cell is what `measure` says of a detection's box and of its track.
// The box is read once for a row.
fn rows<F: Fn(BoundingBox, usize) -> f32>(
    boxes: usize,
    tracks: usize,
    detections: &[f32],
    out: &mut [f32],
    measure: F,
)
    requires corners { boxes * 4 ≤ length detections.now }
    requires room { boxes * tracks ≤ length out.old }
    requires callable { (i j : ℕ) → i < boxes → j < tracks → F.pre measure (box_at detections.now i) j }
    ensures { RowsFilled (λ i j _. F.post measure (box_at detections.now i) j) boxes tracks out.old out.new }
{
    for i in 0..boxes {
        let det = box_at(detections, i);
        let at = i * tracks;
        let row = &mut out[at..at + tracks];
        fill(
            row,
            |j: usize, _held: f32| -> f32
                requires { F.pre measure det j }
                ensures { F.post measure det j result }
            { measure(det, j) },
        );
    }
}

// Intersection over union, 0 unless the union is above 0.
pub fn iou_batch(
    boxes: usize,
    tracks: usize,
    detections: &[f32],
    corners: &[f32],
    out: &mut [f32],
) -> Result<(), Refusal>
    ensures answer { result ≡ of_corners boxes tracks (length detections.now) (length corners.now) (length out.old) }
    ensures cells { out.new ≡ after result (iou_batch detections.now corners.now) boxes tracks out.old }
{
    of_corners(boxes, tracks, detections.len(), corners.len(), out.len())?;
    rows(boxes, tracks, detections, out, |det, j| {
        overlap(det, box_at(corners, j)).ratio
    });
    Ok(())
}

// The same of boxes grown by how unsure their track is.
pub fn soft_biou_batch(
    boxes: usize,
    tracks: usize,
    detections: &[f32],
    corners: &[f32],
    track_confidences: &[f32],
    out: &mut [f32],
) -> Result<(), Refusal>
    ensures answer { result ≡ of_confidences boxes tracks (length detections.now) (length corners.now) (length track_confidences.now) (length out.old) }
    ensures cells { out.new ≡ after result (soft_biou_batch detections.now corners.now track_confidences.now) boxes tracks out.old }
{
    of_confidences(
        boxes,
        tracks,
        detections.len(),
        corners.len(),
        track_confidences.len(),
        out.len(),
    )?;
    rows(boxes, tracks, detections, out, |det, j| {
        soft_biou(det, box_at(corners, j), confidence_at(track_confidences, j))
    });
    Ok(())
}

// The exponentials of a matrix of exponents, in their place. With a loop of its own the exponents' loop is free of
// branches, and the compiler works several cells at a time.
fn exponentials(boxes: usize, tracks: usize, out: &mut [f32])
    requires { boxes * tracks ≤ length out.old }
    ensures { out.new ≡ grid (λ i j. exp (cell_at nan tracks out.old i j)) boxes tracks out.old }
{
    fill_rows(boxes, tracks, out, |_, _, exponent| floats::exp(exponent));
}

// The verdict and the matrix of a shape, by its exponent.
fn shapes<F: Fn(BoundingBox, BoundingBox) -> f32>(
    boxes: usize,
    tracks: usize,
    detections: &[f32],
    corners: &[f32],
    out: &mut [f32],
    exponent: F,
) -> Result<(), Refusal>
    requires { F.IsAlwaysCallable exponent }
    ensures answer { result ≡ of_corners boxes tracks (length detections.now) (length corners.now) (length out.old) }
    ensures cells { (f : BoundingBox → BoundingBox → Float) → ((det trk : BoundingBox) (r : Float) → F.post exponent det trk r → r ≡ f det trk)
        → out.new ≡ after result (λ i j. exp (f (box_at detections.now i) (box_at corners.now j))) boxes tracks out.old }
{
    of_corners(boxes, tracks, detections.len(), corners.len(), out.len())?;
    rows(
        boxes,
        tracks,
        detections,
        out,
        |det: BoundingBox, j: usize| -> f32
            requires corners { j * 4 + 4 ≤ length corners.now }
            requires callable { F.IsAlwaysCallable exponent }
            ensures { F.post exponent det (box_at corners.entry.now j) result }
        { exponent(det, box_at(corners, j)) },
    );
    exponentials(boxes, tracks, out);
    Ok(())
}

// Likeness of widths and heights, both by the larger width.
// Kept: the published tracker has the two by these names, and each is one call.
pub fn shape_similarity_v1(
    boxes: usize,
    tracks: usize,
    detections: &[f32],
    corners: &[f32],
    out: &mut [f32],
) -> Result<(), Refusal>
    ensures answer { result ≡ of_corners boxes tracks (length detections.now) (length corners.now) (length out.old) }
    ensures cells { out.new ≡ after result (shape_similarity_v1 detections.now corners.now) boxes tracks out.old }
{
    shapes(boxes, tracks, detections, corners, out, exponent_v1)
}

// Likeness of widths and heights, each by its larger.
pub fn shape_similarity_v2(
    boxes: usize,
    tracks: usize,
    detections: &[f32],
    corners: &[f32],
    out: &mut [f32],
) -> Result<(), Refusal>
    ensures answer { result ≡ of_corners boxes tracks (length detections.now) (length corners.now) (length out.old) }
    ensures cells { out.new ≡ after result (shape_similarity_v2 detections.now corners.now) boxes tracks out.old }
{
    shapes(boxes, tracks, detections, corners, out, exponent_v2)
}
