// `scan_dense`, lines 183 to 233 of lapjv.rs.
ghost use Rattle.std.specs.Prelude.{◌≡◌, ◌<◌, ◌≤◌, length, get_or};
ghost use Rattle.lapjv_definition.specs.Invariant.{Searching};
ghost use Rattle.lapjv_definition.specs.Private.{Scanned, AllScanned};
ghost use Rattle.lapjv_definition.specs.Scan.{scanning, scans_at, scan_step, scan_row, scan_dense};
ghost use Rattle.laws.specs.Below.{Below};

use crate::cost::reduced_cost;
use crate::find::swap;
use lapjv_reduction::cost::Costs;
use lapjv_reduction::entry::{is_free, row_of};

// hi after some passes of the inner loop, and the free column that was found, if any.
#[derive(Drop)]
struct RowScan {
    hi: usize,
    found: Option<usize>,
}

// Lines 214 to 227.
fn scan_step(
    costs: Costs,
    i: usize,
    h: f64,
    mind: f64,
    k: usize,
    hi: usize,
    d: &mut [f64],
    cols: &mut [usize],
    pred: &mut [usize],
    y: &[usize],
    v: &[f64],
) -> RowScan
    requires { (i < costs.side) × (k < costs.side) × (hi ≤ k) × (get_or cols.old k 0 < costs.side)
        × (length d.old ≡ costs.side) × (length cols.old ≡ costs.side) × (length pred.old ≡ costs.side) × (length y.now ≡ costs.side) × (length v.now ≡ costs.side) }
    ensures { let t = scan_step costs.entry.side costs.entry.cells.now y.now v.now i h mind k d.old cols.old pred.old hi in
        Scanned costs.entry.side t d.new cols.new pred.new result.hi result.found }
{
    let j = cols[k];
    let cred_ij = reduced_cost(costs, v, i, j) - h;
    if cred_ij < d[j] {
        d[j] = cred_ij;
        pred[j] = i;
        if cred_ij == mind {
            if is_free(costs.side, y[j]) {
                return RowScan { hi, found: Some(j) };
            }
            swap(cols, k, hi);
            return RowScan {
                hi: hi + 1,
                found: None,
            };
        }
    }
    RowScan { hi, found: None }
}

// Lines 213 to 228.
fn scan_row(
    costs: Costs,
    i: usize,
    h: f64,
    mind: f64,
    hi0: usize,
    d: &mut [f64],
    cols: &mut [usize],
    pred: &mut [usize],
    y: &[usize],
    v: &[f64],
) -> RowScan
    requires { (i < costs.side) × (hi0 ≤ costs.side) × Below costs.side cols.old
        × (length d.old ≡ costs.side) × (length cols.old ≡ costs.side) × (length pred.old ≡ costs.side) × (length y.now ≡ costs.side) × (length v.now ≡ costs.side) }
    ensures { let t = scan_row costs.entry.side costs.entry.cells.now y.now v.now i h mind d.old cols.old pred.old hi0 in
        Scanned costs.entry.side t d.new cols.new pred.new result.hi result.found }
{
    let mut hi = hi0;
    for k in hi0..costs.side {
        let r = scan_step(costs, i, h, mind, k, hi, d, cols, pred, y, v);
        if r.found.is_some() {
            return r;
        }
        hi = r.hi;
    }
    RowScan { hi, found: None }
}

// What `scan_dense` leaves of lo and hi, the free column that it found, if any, and its scans.
#[derive(Drop)]
pub(crate) struct DenseScan {
    pub(crate) lo: usize,
    pub(crate) hi: usize,
    pub(crate) found: Option<usize>,
    pub(crate) scans: usize,
}

// The Rust leaves lo and hi as they were where it returns a column; here the caller does.
pub(crate) fn scan_dense(
    costs: Costs,
    lo0: usize,
    hi0: usize,
    d: &mut [f64],
    cols: &mut [usize],
    pred: &mut [usize],
    y: &[usize],
    v: &[f64],
) -> DenseScan
    requires { (length d.old ≡ costs.side) × (length y.now ≡ costs.side) × (length v.now ≡ costs.side) × Searching costs.side y.now lo0 hi0 cols.old pred.old }
    ensures { let n = costs.entry.side in
        let a = scan_dense n costs.entry.cells.now lo0 y.now v.now (scanning d.old cols.old pred.old hi0 n) in
        AllScanned n a (λ f. scans_at (scanning d.new cols.new pred.new result.hi f) result.lo result.scans) result.found }
{
    let mut lo = lo0;
    let mut hi = hi0;
    let mut scans = 0;
    // Kept: hi grows while the loop runs, which a range can't. lo never passes it, so this is the Rust's `lo != hi`.
    while lo < hi {
        let j = cols[lo];
        let i = row_of(costs.side, y[j]);
        let mind = d[j];
        let h = reduced_cost(costs, v, i, j) - mind;
        let r = scan_row(costs, i, h, mind, hi, d, cols, pred, y, v);
        lo += 1;
        scans += 1;
        hi = r.hi;
        if r.found.is_some() {
            return DenseScan {
                lo,
                hi,
                found: r.found,
                scans,
            };
        }
    }
    DenseScan {
        lo,
        hi,
        found: None,
        scans,
    }
}
