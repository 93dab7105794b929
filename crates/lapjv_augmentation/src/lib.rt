// The second half of `lapjv`, lines 348 to 350 of lapjv.rs, over the first: each free row gets a column along a shortest path. A module for each of its
// functions.
#![tactic(auto)]

ghost use Rattle.std.specs.Prelude.{◌≡◌, length, replicate};
ghost use Rattle.lapjv_definition.specs.Halves.{assigning};
ghost use Rattle.lapjv_definition.specs.Lapjv.{assignment, lapjv};

mod ca;
mod cost;
mod find;
mod path;
mod scan;

use ca::ca_dense;
use lapjv_definition::Counts;
use lapjv_reduction::cost::Costs;
use lapjv_reduction::{fits, reduction};

// Kept: the slices stand one by one, here and in what this calls: a struct of `&mut` slices needs a clause a field wherever it is lent on, and is no plainer.
// Both halves, in work slices of n. With no free row `ca_dense` does nothing and counts nothing, so the test `ret > 0` is left out.
fn solve(
    costs: Costs,
    x: &mut [usize],
    y: &mut [usize],
    free_rows: &mut [usize],
    v: &mut [f64],
    pred: &mut [usize],
    d: &mut [f64],
    cols: &mut [usize],
) -> Counts
    requires { (length x.old ≡ costs.side) × (length y.old ≡ costs.side) × (free_rows.old ≡ replicate costs.side 0) × (length v.old ≡ costs.side)
        × (length pred.old ≡ costs.side) × (length d.old ≡ costs.side) × (length cols.old ≡ costs.side) }
    ensures { assignment 0 x.new y.new result.turns result.scans ≡ lapjv costs.entry.side costs.entry.cells.now }
{
    let b = reduction(costs.side, costs.cells, free_rows, x, y, v);
    let scans = ca_dense(costs, b.ret, free_rows, x, y, v, pred, d, cols);
    Counts {
        turns: b.turns,
        scans,
    }
}

// The assignment. Where the sizes do not fit, nothing is stored.
// Kept: with no heap the work arrays have the largest side, and the first n places are lent.
pub fn assign(n: usize, cost: &[f64], x: &mut [usize], y: &mut [usize]) -> Counts
    ensures { assignment 0 x.new y.new result.turns result.scans ≡ assigning n cost.now x.old y.old }
{
    if fits(n, cost.len(), x.len(), y.len()) {
        let costs = Costs {
            side: n,
            cells: cost,
        };
        let mut free_rows = [0usize; 255];
        let mut v = [0.0f64; 255];
        let mut pred = [0usize; 255];
        let mut d = [0.0f64; 255];
        let mut cols = [0usize; 255];
        return solve(
            costs,
            x,
            y,
            &mut free_rows[..n],
            &mut v[..n],
            &mut pred[..n],
            &mut d[..n],
            &mut cols[..n],
        );
    }
    Counts { turns: 0, scans: 0 }
}
