// `ccrt_dense`, lines 15 to 82 of lapjv.rs.
ghost use Rattle.std.specs.Prelude.{◌≡◌, true, ◌<◌, length, replicate};
ghost use Rattle.lapjv_definition.specs.Ccrt.{prices, row_step, row_from, rows_from, taken, col_step, cols_from, min_step, min_from, reduced, reduce_step, reduce_from, ccrt_at, ccrt_dense};
ghost use Rattle.lapjv_definition.specs.Cost.{large};
ghost use Rattle.laws.specs.Below.{Below};
ghost use Rattle.laws.specs.Tab.{tab};

use crate::cost::{Costs, LARGE};
use crate::entry::{is_free, owner_of, row_of};

// Lines 29 to 33.
fn ccrt_init(n: usize, x: &mut [usize], y: &mut [usize], v: &mut [f64])
    requires { (length x.old ≡ n) × (length y.old ≡ n) × (length v.old ≡ n) }
    ensures { (x.new ≡ tab (λ i. n) n) × (y.new ≡ tab (λ i. 0) n) × (v.new ≡ tab (λ i. large) n) }
{
    for i in 0..n {
        x[i] = n;
        v[i] = LARGE;
        y[i] = 0;
    }
}

// Lines 37 to 40: row i at column j, whose cost is c.
fn row_step(i: usize, j: usize, c: f64, y: &mut [usize], v: &mut [f64])
    requires { (j < length y.old) × (j < length v.old) }
    ensures { prices y.new v.new ≡ row_step i j c y.old v.old }
{
    if c < v[j] {
        v[j] = c;
        y[j] = i;
    }
}

// Lines 35 to 41: row i.
fn ccrt_row(costs: Costs, i: usize, y: &mut [usize], v: &mut [f64])
    requires { (i < costs.side) × (length y.old ≡ costs.side) × (length v.old ≡ costs.side) }
    ensures { prices y.new v.new ≡ row_from costs.entry.side costs.entry.cells.now i costs.entry.side 0 (prices y.old v.old) }
{
    for j in 0..costs.side {
        row_step(i, j, costs.at(i, j), y, v);
    }
}

// Lines 34 to 42.
fn ccrt_rows(costs: Costs, y: &mut [usize], v: &mut [f64])
    requires { (length y.old ≡ costs.side) × (length v.old ≡ costs.side) }
    ensures { prices y.new v.new ≡ rows_from costs.entry.side costs.entry.cells.now costs.entry.side 0 (prices y.old v.old) }
{
    for i in 0..costs.side {
        ccrt_row(costs, i, y, v);
    }
}

// Lines 51 to 56: column j, whose row is i.
fn col_step(n: usize, j: usize, i: usize, x: &mut [usize], y: &mut [usize], unique: &mut [bool])
    requires { (i < length x.old) × (j < length y.old) × (i < length unique.old) }
    ensures { taken x.new y.new unique.new ≡ col_step n j i x.old y.old unique.old }
{
    if is_free(n, x[i]) {
        x[i] = j;
    } else {
        unique[i] = false;
        y[j] = n;
    }
}

// Lines 45 to 57, from the last column down.
fn ccrt_cols(n: usize, x: &mut [usize], y: &mut [usize], unique: &mut [bool])
    requires { Below n y.old × (length x.old ≡ n) × (length y.old ≡ n) × (length unique.old ≡ n) }
    ensures { taken x.new y.new unique.new ≡ cols_from n n (taken x.old y.old unique.old) }
{
    for j in (0..n).rev() {
        col_step(n, j, row_of(n, y[j]), x, y, unique);
    }
}

// Lines 70 to 76: column j2, whose reduced cost is c.
fn min_step(j: usize, j2: usize, c: f64, min: f64) -> f64
    ensures { result ≡ min_step j j2 c min }
{
    if j2 != j && c < min { c } else { min }
}

// Lines 68 to 77: the least reduced cost of row i, column j left out.
fn ccrt_min(costs: Costs, i: usize, j: usize, v: &[f64]) -> f64
    requires { (i < costs.side) × (length v.now ≡ costs.side) }
    ensures { result ≡ min_from costs.entry.side costs.entry.cells.now i j v.now costs.entry.side 0 large }
{
    let mut min = LARGE;
    for j2 in 0..costs.side {
        min = min_step(j, j2, costs.at(i, j2) - v[j2], min);
    }
    min
}

// Lines 63 to 79: row i, where xi is x[i] and u is unique[i].
fn reduce_step(
    costs: Costs,
    i: usize,
    xi: usize,
    u: bool,
    n_free_rows: usize,
    free_rows: &mut [usize],
    v: &mut [f64],
) -> usize
    requires { (i < costs.side) × (n_free_rows < costs.side) × (length free_rows.old ≡ costs.side) × (length v.old ≡ costs.side) }
    ensures { reduced free_rows.new result v.new ≡ reduce_step costs.entry.side costs.entry.cells.now i xi u free_rows.old n_free_rows v.old }
{
    let Some(j) = owner_of(costs.side, xi) else {
        free_rows[n_free_rows] = i;
        return n_free_rows + 1;
    };
    if u {
        v[j] -= ccrt_min(costs, i, j, v);
    }
    n_free_rows
}

// Lines 60 to 81.
fn ccrt_reduce(
    costs: Costs,
    free_rows: &mut [usize],
    x: &[usize],
    v: &mut [f64],
    unique: &[bool],
) -> usize
    requires { (length free_rows.old ≡ costs.side) × (length x.now ≡ costs.side) × (length v.old ≡ costs.side) × (length unique.now ≡ costs.side) }
    ensures { reduced free_rows.new result v.new ≡ reduce_from costs.entry.side costs.entry.cells.now x.now unique.now costs.entry.side 0 (reduced free_rows.old 0 v.old) }
{
    let mut n_free_rows = 0;
    for i in 0..costs.side {
        n_free_rows = reduce_step(costs, i, x[i], unique[i], n_free_rows, free_rows, v);
    }
    n_free_rows
}

pub(crate) fn ccrt_dense(
    costs: Costs,
    free_rows: &mut [usize],
    x: &mut [usize],
    y: &mut [usize],
    v: &mut [f64],
    unique: &mut [bool],
) -> usize
    requires { (length free_rows.old ≡ costs.side) × (length x.old ≡ costs.side) × (length y.old ≡ costs.side) × (length v.old ≡ costs.side) × (unique.old ≡ replicate costs.side true) }
    ensures { ccrt_at x.new y.new v.new free_rows.new result ≡ ccrt_dense costs.entry.side costs.entry.cells.now free_rows.old }
{
    ccrt_init(costs.side, x, y, v);
    ccrt_rows(costs, y, v);
    ccrt_cols(costs.side, x, y, unique);
    ccrt_reduce(costs, free_rows, x, v, unique)
}
