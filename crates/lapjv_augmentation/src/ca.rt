// `ca_dense`, lines 284 to 317 of lapjv.rs.
ghost use Rattle.std.specs.Prelude.{◌≡◌, ℕ, ◌<◌, ◌≤◌, length, get_or};
ghost use Rattle.lapjv_definition.specs.Ca.{augmented, augment_from, assigned, ca_dense};
ghost use Rattle.lapjv_definition.specs.Invariant.{Holed, CaOk};

use crate::path::find_path_dense;
use lapjv_reduction::cost::Costs;
use lapjv_reduction::entry::row_of;

// Lines 303 to 314. A path has at most n rows: `Holed` says that it ends within n passes.
fn augment(n: usize, free_row: usize, j0: usize, pred: &[usize], x: &mut [usize], y: &mut [usize])
    requires { (length pred.now ≡ n) × (length x.old ≡ n) × (length y.old ≡ n) × Holed n free_row pred.now n j0 x.old y.old }
    ensures { augmented free_row x.new y.new ≡ augment_from n pred.now free_row n n j0 x.old y.old }
{
    let mut j = j0;
    for k in 0..n {
        let i = pred[j];
        let xi = x[i];
        let next = row_of(n, xi);
        y[j] = i;
        x[i] = j;
        if i == free_row {
            return;
        }
        j = next;
    }
}

pub(crate) fn ca_dense(
    costs: Costs,
    n_free_rows: usize,
    free_rows: &[usize],
    x: &mut [usize],
    y: &mut [usize],
    v: &mut [f64],
    pred: &mut [usize],
    d: &mut [f64],
    cols: &mut [usize],
) -> usize
    requires { (n_free_rows ≤ costs.side) × ((k : ℕ) → k < n_free_rows → get_or free_rows.now k 0 < costs.side) × (length free_rows.now ≡ costs.side) × (length v.old ≡ costs.side) × (length pred.old ≡ costs.side) × (length d.old ≡ costs.side) × (length cols.old ≡ costs.side)
        × CaOk costs.side n_free_rows free_rows.now 0 (assigned x.old y.old v.old 0) }
    ensures { assigned x.new y.new v.new result
        ≡ ca_dense costs.entry.side costs.entry.cells.now n_free_rows free_rows.now x.old y.old v.old }
{
    let mut scans = 0;
    for row_n in 0..n_free_rows {
        let free_row = free_rows[row_n];
        let p = find_path_dense(costs, free_row, y, v, pred, d, cols);
        scans += p.scans;
        augment(costs.side, free_row, p.final_j, pred, x, y);
    }
    scans
}
