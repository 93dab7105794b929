// The direct path of match_detections: where no row and no column has more than one cost above the threshold,
// these costs are the pairs.
//
// It is decided from the costs with a byte for each column, before anything is written. The pairs are then read
// from the costs again, so that no row's column is held.
ghost use Rattle.std.specs.Prelude.{◌≡◌, ◌+◌, ◌≤◌, ◌<◌, min, leb, length};
ghost use Rattle.std.specs.Float.Ieee.{lt};
ghost use Rattle.std.specs.List.{list_all};
ghost use Rattle.laws.specs.Tab.{tab};
ghost use Rattle.laws.specs.Count.{bit};
ghost use Rattle.assoc_direct.specs.Simple.{pair, mask, simple};
ghost use Rattle.assoc_direct.specs.Rows.{Clean, pairs_of, direct_column, direct_columns, putting, Put, PairRoom, Wrote};
ghost use Rattle.assoc_direct.specs.Direct.{is_matrix, is_direct, direct_call_with, direct_call, fitting, direct_pairs};
ghost use Rattle.assoc_direct.specs.Private.{RowIn, RowOut};

use super::matrix::Matrix;
use refusals::{smaller, too_many};

// ---- decided

fn one_more(c: f32, threshold: f32, sum: u8) -> u8
    requires { sum < 255 }
    ensures { result ≡ sum + bit (lt threshold c) }
{
    if c > threshold {
        return sum + 1;
    }
    sum
}

// How many cells of row i are above the threshold: each is added to the sum of its column.
fn sum_row(cost: Matrix, i: usize, threshold: f32, sums: &mut [u8]) -> u8
    requires row { i < cost.nrows }
    requires columns { RowIn cost.ncols sums.old }
    ensures { RowOut (mask cost.entry.cells.now cost.entry.ncols threshold i) cost.entry.ncols sums.old result sums.new }
{
    let mut sum = 0u8;
    for j in 0..cost.ncols {
        let c = cost.at(i, j);
        sum = one_more(c, threshold, sum);
        sums[j] = one_more(c, threshold, sums[j]);
    }
    sum
}

fn at_most_one(sums: &[u8]) -> bool
    ensures { result ≡ list_all (λ sum. leb sum 1) sums.now }
{
    sums.iter().all(|sum| *sum <= 1)
}

fn is_direct_with(cost: Matrix, threshold: f32, sums: &mut [u8]) -> bool
    requires { Clean cost.ncols 0 sums.old }
    ensures { result ≡ simple cost.entry.cells.now cost.entry.nrows cost.entry.ncols threshold }
{
    for i in 0..cost.nrows {
        let sum = sum_row(cost, i, threshold, sums);
        if 1 < sum {
            return false;
        }
    }
    at_most_one(sums)
}

// Whether there are as many costs as the sides say, and at most 255 rows and 255 columns.
fn is_matrix(nrows: usize, ncols: usize, cells: usize) -> bool
    ensures { result ≡ is_matrix nrows ncols cells }
{
    !too_many(nrows, ncols) && cells == nrows * ncols
}

// Whether no row and no column of the costs has more than one cost above the threshold.
pub fn is_direct(boxes: usize, tracks: usize, cost: &[f32], threshold: f32) -> bool
    ensures { result ≡ is_direct cost.now boxes tracks threshold }
{
    if is_matrix(boxes, tracks, cost.len()) {
        let cost = Matrix {
            cells: cost,
            nrows: boxes,
            ncols: tracks,
        };
        let mut sums = [0u8; 255];
        return is_direct_with(cost, threshold, &mut sums[..tracks]);
    }
    false
}

// ---- written

// The column of row i: the last one above the threshold, or ncols.
fn column_above(cost: Matrix, i: usize, threshold: f32) -> usize
    requires { i < cost.nrows }
    ensures { result ≡ direct_column cost.entry.cells.now cost.entry.ncols threshold i }
{
    for j in (0..cost.ncols).rev() {
        let c = cost.at(i, j);
        if threshold < c {
            return j;
        }
    }
    cost.ncols
}

// Stores the pair i, j at place k, if j is a column and the slices have the place; how many are stored then.
pub fn put_pair(
    boxes: &mut [usize],
    tracks: &mut [usize],
    k: usize,
    i: usize,
    j: usize,
    ncols: usize,
) -> usize
    ensures { Put (putting j ncols k boxes.old tracks.old) k (pair i j) boxes.old tracks.old result boxes.new tracks.new }
{
    if (j < ncols) & (k < boxes.len()) & (k < tracks.len()) {
        boxes[k] = i;
        tracks[k] = j;
        return k + 1;
    }
    k
}

fn write_directly(cost: Matrix, threshold: f32, boxes: &mut [usize], tracks: &mut [usize]) -> usize
    requires { PairRoom (pairs_of cost.ncols (direct_column cost.cells.now cost.ncols threshold) cost.nrows) (length boxes.old) (length tracks.old) }
    ensures { Wrote (pairs_of cost.entry.ncols (direct_column cost.entry.cells.now cost.entry.ncols threshold) cost.entry.nrows) boxes.old tracks.old result boxes.new tracks.new }
{
    let mut k = 0;
    for i in 0..cost.nrows {
        let j = column_above(cost, i, threshold);
        k = put_pair(boxes, tracks, k, i, j, cost.ncols);
    }
    k
}

// Takes the direct path where it is open, and says how many pairs it has: they are then over the fronts of the two
// slices, in row order. Where it is not open nothing is written.
fn match_directly(
    cost: Matrix,
    threshold: f32,
    boxes: &mut [usize],
    tracks: &mut [usize],
) -> Option<usize>
    requires { (min cost.nrows cost.ncols ≤ length boxes.old) × (min cost.nrows cost.ncols ≤ length tracks.old) }
    ensures { direct_call_with result boxes.new tracks.new ≡ direct_call cost.entry.cells.now cost.entry.nrows cost.entry.ncols threshold boxes.old tracks.old }
{
    if is_direct(cost.nrows, cost.ncols, cost.cells, threshold) {
        return Some(write_directly(cost, threshold, boxes, tracks));
    }
    None
}

// Whether the sides are those of the costs, and each slice has as many places as the smaller side.
fn fits(nrows: usize, ncols: usize, cells: usize, boxes: usize, tracks: usize) -> bool
    ensures { result ≡ fitting nrows ncols cells boxes tracks }
{
    let few = smaller(nrows, ncols);
    is_matrix(nrows, ncols, cells) & ((few <= boxes) & (few <= tracks))
}

// The same for any sides and slices: where they do not fit the path is not taken.
pub fn direct_pairs(
    cost: &[f32],
    nrows: usize,
    ncols: usize,
    threshold: f32,
    boxes: &mut [usize],
    tracks: &mut [usize],
) -> Option<usize>
    ensures { direct_call_with result boxes.new tracks.new ≡ direct_pairs cost.now nrows ncols threshold boxes.old tracks.old }
{
    if fits(nrows, ncols, cost.len(), boxes.len(), tracks.len()) {
        let cost = Matrix {
            cells: cost,
            nrows,
            ncols,
        };
        return match_directly(cost, threshold, boxes, tracks);
    }
    None
}

// ---- by rows

fn fill_columns(cost: Matrix, threshold: f32, partner: &mut [u8])
    requires { length partner.old ≡ cost.nrows }
    ensures { partner.new ≡ tab (direct_column cost.entry.cells.now cost.entry.ncols threshold) (length partner.old) }
{
    for (i, place) in partner.iter_mut().enumerate() {
        *place = column_above(cost, i, threshold) as u8;
    }
}

// For each box its track, the last one above the threshold, or `tracks` where it has none: the pairs of the direct
// path, where it is open. What is no matrix leaves the bytes as they were.
pub fn direct_columns(tracks: usize, cost: &[f32], threshold: f32, partner: &mut [u8])
    ensures { partner.new ≡ direct_columns cost.now tracks threshold partner.old }
{
    if is_matrix(partner.len(), tracks, cost.len()) {
        let cost = Matrix {
            cells: cost,
            nrows: partner.len(),
            ncols: tracks,
        };
        fill_columns(cost, threshold, partner);
    }
}
