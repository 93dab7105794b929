// match_detections of assoc.rs: pairs of boxes (rows) and tracks (columns) from a matrix of costs.
//
// The direct path is in assoc_direct. Here is the path by lapjv, which gives a row at most one column, so inside the
// pairs are a list of bytes: for each row its column, or ncols where it has none.
ghost use Rattle.std.specs.Prelude.{◌≡◌, ◌*◌, ◌≤◌, max, length, slice_index, Ok};
ghost use Rattle.laws.specs.Tab.{tab};
ghost use Rattle.assoc_matching.specs.Matching.{cost_cell, cost_vec, match_detections};
ghost use Rattle.assoc_matching.specs.Partners.{Sized, column, held, solved_match, PairRoom, Wrote};
ghost use Rattle.assoc_matching.specs.Answers.{zeroed, partner_lent_with, partner_call_with, partner_verdict, partner_call, match_lent_with, match_lent_after, match_counts, match_call_with, match_verdict, match_call};
ghost use Rattle.assoc_matching.specs.Private.{Whole, Solution, MatchReady};

use assoc_direct::{Matrix, direct_pairs, put_pairs};
use cells::fill_rows;
use refusals::{Refusal, larger, smaller};

// The number of pairs, and of lapjv's row turns and column scans: both 0 on the direct path.
#[derive(Clone, Copy, Debug, PartialEq, Eq)]
pub struct MatchCounts {
    pub pairs: usize,
    pub turns: usize,
    pub scans: usize,
}

// ---- the path by lapjv

// A cell of cost_vec: negated in f32, then widened; 1e6 outside of the costs.
fn cost_cell(cost: Matrix, i: usize, j: usize) -> f64
    requires { i ≤ 255 }
    ensures { result ≡ cost_cell cost.entry.cells.now cost.entry.nrows cost.entry.ncols i j }
{
    if cost.nrows <= i {
        return 1000000.0;
    }
    if cost.ncols <= j {
        return 1000000.0;
    }
    std::num::f32_to_f64_with_nan(-cost.at(i, j)) - 1e-12 * (i as f64)
}

fn cost_square(cost: Matrix, n: usize, work: &mut [f64])
    requires { Sized n n (length work.old) }
    ensures { work.new ≡ cost_vec cost.entry.cells.now cost.entry.nrows cost.entry.ncols n }
{
    fill_rows(n, n, work, |i, j, _| cost_cell(cost, i, j));
}

// The column of a row as the pairs have it: j, or ncols where it is a filling column.
fn column_of(j: usize, ncols: usize) -> u8
    requires { ncols ≤ 255 }
    ensures { result ≡ column ncols j }
{
    if j < ncols {
        return j as u8;
    }
    ncols as u8
}

fn columns(x: &[usize], ncols: usize, partner: &mut [u8])
    requires { (length partner.old ≤ length x.now) × (ncols ≤ 255) }
    ensures { partner.new ≡ tab (λ i. column ncols (slice_index x.now i)) (length partner.old) }
{
    for (i, column) in partner.iter_mut().enumerate() {
        *column = column_of(x[i], ncols);
    }
}

fn solve_with(
    cost: Matrix,
    n: usize,
    work: &mut [f64],
    partner: &mut [u8],
    x: &mut [usize],
    y: &mut [usize],
) -> lapjv::Counts
    requires square { Whole cost.nrows cost.ncols n (length work.old) (length x.old) (length y.old) }
    requires rows { length partner.old ≡ cost.nrows }
    ensures { Solution cost.entry.cells.now cost.entry.nrows cost.entry.ncols result partner.new }
{
    cost_square(cost, n, work);
    let Ok(counts) = lapjv::lapjv(n, work, x, y) else {
        return lapjv::Counts { turns: 0, scans: 0 };
    };
    columns(x, cost.ncols, partner);
    counts
}

fn solve(cost: Matrix, n: usize, work: &mut [f64], partner: &mut [u8]) -> lapjv::Counts
    requires square { Whole cost.nrows cost.ncols n (length work.old) n n }
    requires rows { length partner.old ≡ cost.nrows }
    ensures { Solution cost.entry.cells.now cost.entry.nrows cost.entry.ncols result partner.new }
{
    let mut x = [0usize; 255];
    let mut y = [0usize; 255];
    solve_with(cost, n, work, partner, &mut x[..n], &mut y[..n])
}

// For each row its column in the solved square, or ncols; and lapjv's counts.
fn solve_rows(cost: Matrix, work: &mut [f64], partner: &mut [u8]) -> lapjv::Counts
    requires some { 1 ≤ max cost.nrows cost.ncols }
    requires square { max cost.nrows cost.ncols * max cost.nrows cost.ncols ≤ length work.old }
    requires rows { length partner.old ≡ cost.nrows }
    ensures { Solution cost.entry.cells.now cost.entry.nrows cost.entry.ncols result partner.new }
{
    let n = larger(cost.nrows, cost.ncols);
    let cells = n * n;
    solve(cost, n, &mut work[..cells], partner)
}

fn partner_verdict(
    boxes: usize,
    tracks: usize,
    costs: usize,
    partners: usize,
    work: usize,
) -> Result<(), Refusal>
    ensures { result ≡ partner_verdict boxes tracks costs partners work }
{
    if (255 < boxes) | (255 < tracks) {
        return Err(Refusal::TooMany);
    }
    let n = larger(boxes, tracks);
    if (costs != boxes * tracks) | (partners != boxes) | (n == 0) {
        return Err(Refusal::OtherSize);
    }
    if work < n * n {
        return Err(Refusal::TooShort);
    }
    Ok(())
}

// The pairs of the path by lapjv with a byte for each box: its track, or `tracks` where it has none.
pub fn lapjv_partners(
    boxes: usize,
    tracks: usize,
    cost: &[f32],
    partner: &mut [u8],
    work: &mut [f64],
) -> Result<lapjv::Counts, Refusal>
    ensures { partner_call_with result (partner_lent_with partner.new work.new)
        ≡ partner_call boxes tracks cost.now (partner_lent_with partner.old work.old) }
{
    partner_verdict(boxes, tracks, cost.len(), partner.len(), work.len())?;
    let costs = Matrix {
        cells: cost,
        nrows: boxes,
        ncols: tracks,
    };
    let counts = solve_rows(costs, work, partner);
    work.fill(0.0);
    Ok(counts)
}

// ---- pairs in lent memory

fn write_pairs(partner: &[u8], ncols: usize, boxes: &mut [usize], tracks: &mut [usize]) -> usize
    requires { PairRoom (held ncols partner.now) (length boxes.old) (length tracks.old) }
    ensures { Wrote (held ncols partner.now) boxes.old tracks.old result boxes.new tracks.new }
{
    put_pairs(partner.len(), ncols, |i| partner[i] as usize, boxes, tracks)
}

// ---- match_detections

fn match_verdict(
    boxes: usize,
    tracks: usize,
    costs: usize,
    pairs: usize,
    partners: usize,
    work: usize,
) -> Result<(), Refusal>
    ensures { result ≡ match_verdict boxes tracks costs pairs partners work }
{
    if (255 < boxes) | (255 < tracks) {
        return Err(Refusal::TooMany);
    }
    if costs != boxes * tracks {
        return Err(Refusal::OtherSize);
    }
    let few = smaller(boxes, tracks);
    let n = larger(boxes, tracks);
    if (pairs < few) | (partners < few) | (work < n * n) {
        return Err(Refusal::TooShort);
    }
    Ok(())
}

// Kept: MatchReady is asked in three functions, as a struct of lent `&mut` slices needs a clause for each of them wherever it is lent on.
fn match_by_lapjv_with(
    cost: Matrix,
    boxes: &mut [usize],
    tracks: &mut [usize],
    work: &mut [f64],
    partner: &mut [u8],
) -> MatchCounts
    requires ready { MatchReady cost.nrows cost.ncols (length cost.cells.now) (length boxes.old) (length tracks.old) (length work.old) }
    requires some { 1 ≤ max cost.nrows cost.ncols }
    requires rows { length partner.old ≡ cost.nrows }
    ensures { let a = solved_match cost.entry.cells.now cost.entry.nrows cost.entry.ncols in
        match_call_with (Ok result) (match_lent_with boxes.new tracks.new work.new)
        ≡ match_call_with (Ok (match_counts a)) (match_lent_after a (match_lent_with boxes.old tracks.old work.old)) }
{
    let counts = solve_rows(cost, work, partner);
    work.fill(0.0);
    let pairs = write_pairs(partner, cost.ncols, boxes, tracks);
    MatchCounts {
        pairs,
        turns: counts.turns,
        scans: counts.scans,
    }
}

fn match_by_lapjv(
    cost: Matrix,
    boxes: &mut [usize],
    tracks: &mut [usize],
    work: &mut [f64],
) -> MatchCounts
    requires ready { MatchReady cost.nrows cost.ncols (length cost.cells.now) (length boxes.old) (length tracks.old) (length work.old) }
    requires some { 1 ≤ max cost.nrows cost.ncols }
    ensures { let a = solved_match cost.entry.cells.now cost.entry.nrows cost.entry.ncols in
        match_call_with (Ok result) (match_lent_with boxes.new tracks.new work.new)
        ≡ match_call_with (Ok (match_counts a)) (match_lent_after a (match_lent_with boxes.old tracks.old work.old)) }
{
    let mut partner = [0u8; 255];
    match_by_lapjv_with(cost, boxes, tracks, work, &mut partner[..cost.nrows])
}

// On the direct path the work slice is only cleared.
fn match_with(
    cost: Matrix,
    threshold: f32,
    boxes: &mut [usize],
    tracks: &mut [usize],
    work: &mut [f64],
) -> MatchCounts
    requires ready { MatchReady cost.nrows cost.ncols (length cost.cells.now) (length boxes.old) (length tracks.old) (length work.old) }
    ensures { let a = match_detections cost.entry.cells.now cost.entry.nrows cost.entry.ncols threshold in
        match_call_with (Ok result) (match_lent_with boxes.new tracks.new work.new)
        ≡ match_call_with (Ok (match_counts a)) (match_lent_after a (match_lent_with boxes.old tracks.old work.old)) }
{
    let found = direct_pairs(cost.cells, cost.nrows, cost.ncols, threshold, boxes, tracks);
    if let Some(pairs) = found {
        work.fill(0.0);
        return MatchCounts {
            pairs,
            turns: 0,
            scans: 0,
        };
    }
    match_by_lapjv(cost, boxes, tracks, work)
}

// The pairs of the boxes and tracks of a cost matrix: direct where no row and no column has more than
// one cost above the threshold, and by lapjv elsewhere.
pub fn match_detections(
    boxes: usize,
    tracks: usize,
    cost: &[f32],
    threshold: f32,
    pair_boxes: &mut [usize],
    pair_tracks: &mut [usize],
    work: &mut [f64],
) -> Result<MatchCounts, Refusal>
    ensures { match_call_with result (match_lent_with pair_boxes.new pair_tracks.new work.new)
        ≡ match_call boxes tracks cost.now threshold (match_lent_with pair_boxes.old pair_tracks.old work.old) }
{
    match_verdict(
        boxes,
        tracks,
        cost.len(),
        pair_boxes.len(),
        pair_tracks.len(),
        work.len(),
    )?;
    let costs = Matrix {
        cells: cost,
        nrows: boxes,
        ncols: tracks,
    };
    Ok(match_with(costs, threshold, pair_boxes, pair_tracks, work))
}
