// mh_dist_similarity of assoc.rs, worked in place: distances become exponentials, and these their shares of the columns' sums.
#![tactic(auto)]

ghost use Rattle.std.specs.Prelude.{◌≡◌, ◌*◌, ◌≤◌, length};
ghost use Rattle.std.specs.Float.{nan};
ghost use Rattle.laws.specs.Tab.{tab};
ghost use Rattle.laws.specs.Grid.{grid, cell_at};
ghost use Rattle.floats.specs.Single.{plus_zero};
ghost use Rattle.assoc_sizes.specs.Sizes.{of_cells, of_distances, Roomy, after};
ghost use Rattle.assoc_mahalanobis.specs.Mahalanobis.{mh_dist_similarity};
ghost use Rattle.assoc_mahalanobis.specs.Private as Private;

use assoc_sizes::{of_cells, of_distances};
use cells::{fill, fill_rows};
use refusals::Refusal;

// Chi-square with 4 degrees of freedom, 99 percent.
const LIMIT: f32 = 13.2767;

// The exponential of a cell within the limit, and -1, which no exponential is, for one beyond it.
fn exp_of(v: f32, softmax_temp: f32) -> f32
    ensures { result ≡ Private.exp_of v softmax_temp }
{
    if v > LIMIT {
        return -1.0;
    }
    floats::exp((LIMIT - v) / softmax_temp)
}

// What a cell adds to its column's sum; `beyond` is the exponential of a cell beyond the limit.
fn summand(e: f32, beyond: f32) -> f32
    ensures { result ≡ Private.summand e beyond }
{
    if e < 0.0 {
        return beyond;
    }
    e
}

// The sums of the columns, row by row, in `sums`, which is 0 on entry.
fn column_sums(boxes: usize, matrix: &[f32], beyond: f32, sums: &mut [f32])
    requires { (boxes * length sums.old ≤ length matrix.now) × (sums.old ≡ tab (λ _. plus_zero) (length sums.old)) }
    ensures { sums.new ≡ tab (Private.column_sum beyond (cell_at nan (length sums.old) matrix.now) boxes) (length sums.old) }
{
    let tracks = sums.len();
    for i in 0..boxes {
        let at = i * tracks;
        let row = &matrix[at..at + tracks];
        fill(sums, |j, sum| sum + summand(row[j], beyond));
    }
}

// A cell's share e of its column's sum, and none for a cell beyond the limit.
fn share(e: f32, sum: f32) -> f32
    ensures { result ≡ Private.share e sum }
{
    if e < 0.0 {
        return 0.0;
    }
    e / sum
}

// Exponentials, one for each cell within the limit, where the Rust computes two; their sums in `sums`, which is 0 on
// entry; and shares.
fn mh_rows(boxes: usize, tracks: usize, softmax_temp: f32, sums: &mut [f32], cells: &mut [f32])
    requires { (boxes * tracks ≤ length cells.old) × (sums.old ≡ tab (λ _. plus_zero) tracks) }
    ensures { cells.new ≡ grid (mh_dist_similarity cells.old softmax_temp boxes tracks) boxes tracks cells.old }
{
    fill_rows(boxes, tracks, cells, |_, _, v| exp_of(v, softmax_temp));
    column_sums(boxes, cells, floats::exp(0.0 / softmax_temp), sums);
    fill_rows(boxes, tracks, cells, |_, j, e| share(e, sums[j]));
}

// The sums of at most 255 columns are kept here.
fn mh_matrix(boxes: usize, tracks: usize, softmax_temp: f32, cells: &mut [f32])
    requires { Roomy boxes tracks (length cells.old) }
    ensures { cells.new ≡ grid (mh_dist_similarity cells.old softmax_temp boxes tracks) boxes tracks cells.old }
{
    let mut sums = [0.0f32; 255];
    mh_rows(boxes, tracks, softmax_temp, &mut sums[..tracks], cells);
}

// A column's cells are shares of their sum, to which those beyond the limit add.
pub fn mh_dist_similarity(
    boxes: usize,
    tracks: usize,
    distance: &[f32],
    softmax_temp: f32,
    out: &mut [f32],
) -> Result<(), Refusal>
    ensures answer { result ≡ of_distances boxes tracks (length distance.now) (length out.old) }
    ensures cells { out.new ≡ after result (mh_dist_similarity distance.now softmax_temp boxes tracks) boxes tracks out.old }
{
    of_distances(boxes, tracks, distance.len(), out.len())?;
    fill(&mut out[..distance.len()], |k, _| distance[k]);
    mh_matrix(boxes, tracks, softmax_temp, out);
    Ok(())
}

// The same over distances that lie in the front of `cells`.
pub fn mh_dist_similarity_over(
    boxes: usize,
    tracks: usize,
    softmax_temp: f32,
    cells: &mut [f32],
) -> Result<(), Refusal>
    ensures answer { result ≡ of_cells boxes tracks (length cells.old) }
    ensures cells { cells.new ≡ after result (mh_dist_similarity cells.old softmax_temp boxes tracks) boxes tracks cells.old }
{
    of_cells(boxes, tracks, cells.len())?;
    mh_matrix(boxes, tracks, softmax_temp, cells);
    Ok(())
}
