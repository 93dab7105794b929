// The first half of `lapjv`, lines 340 to 347 of lapjv.rs: column reduction, reduction transfer and two rounds of augmenting row reduction. A module for
// each of its functions, and two for what they share.
#![tactic(auto)]

ghost use Rattle.std.specs.Prelude.{◌≡◌, true, length, replicate};
ghost use Rattle.lapjv_definition.specs.Halves.{sized, rounds_over, reduction};
ghost use Rattle.lapjv_definition.specs.Invariant.{Square};
ghost use Rattle.lapjv_definition.specs.Lapjv.{rounds_at};

mod carr;
mod ccrt;
pub mod cost;
pub mod entry;

use carr::carr_dence;
use ccrt::ccrt_dense;
use cost::Costs;

// The rows that are still free, and the row turns.
#[derive(Drop)]
pub struct Rounds {
    pub ret: usize,
    pub turns: usize,
}

// Whether the side is 1 to 255, the costs are n x n, and two slices n long.
// Kept: `lapjv` makes these tests too, and says which one fails. `reduction` and `assign` ask nothing of their callers, so they test for themselves.
#[tactic(auto, unfolding(lapjv_definition::specs::Halves::sized))]
pub fn fits(n: usize, costs: usize, a: usize, b: usize) -> bool
    ensures { result ≡ sized n costs a b }
{
    0 < n && n <= 255 && costs == n * n && a == n && b == n
}

// Lines 340 to 347, in a work slice of n. With no free row a round does nothing and counts nothing, so the test `ret > 0` is left out.
fn reduce(
    costs: Costs,
    free_rows: &mut [usize],
    x: &mut [usize],
    y: &mut [usize],
    v: &mut [f64],
    unique: &mut [bool],
) -> Rounds
    requires { (length free_rows.old ≡ costs.side) × (length x.old ≡ costs.side) × (length y.old ≡ costs.side) × (length v.old ≡ costs.side) × (unique.old ≡ replicate costs.side true) }
    ensures { rounds_at result.ret result.turns free_rows.new x.new y.new v.new ≡ rounds_over costs.entry.side costs.entry.cells.now free_rows.old }
{
    let ret = ccrt_dense(costs, free_rows, x, y, v, unique);
    let a = carr_dence(costs, ret, free_rows, x, y, v);
    let b = carr_dence(costs, a.new_free_rows, free_rows, x, y, v);
    Rounds {
        ret: b.new_free_rows,
        turns: a.rr_cnt + b.rr_cnt,
    }
}

// The rows and columns paired so far in x and y, the prices in v, and the free rows first in `free_rows`. Where the sizes do not fit, nothing is stored.
pub fn reduction(
    n: usize,
    cost: &[f64],
    free_rows: &mut [usize],
    x: &mut [usize],
    y: &mut [usize],
    v: &mut [f64],
) -> Rounds
    ensures { rounds_at result.ret result.turns free_rows.new x.new y.new v.new
        ≡ reduction n cost.now free_rows.old x.old y.old v.old }
{
    if fits(n, cost.len(), x.len(), y.len()) {
        if fits(n, cost.len(), free_rows.len(), v.len()) {
            let costs = Costs {
                side: n,
                cells: cost,
            };
            let mut unique = [true; 255];
            return reduce(costs, free_rows, x, y, v, &mut unique[..n]);
        }
        return Rounds { ret: 0, turns: 0 };
    }
    Rounds { ret: 0, turns: 0 }
}
