// `find_path_dense`, lines 235 to 282 of lapjv.rs.
ghost use Rattle.std.specs.Prelude.{◌≡◌, ℕ, ◌-◌, ◌<◌, ◌≤◌, length, get_or};
ghost use Rattle.std.specs.Float.{nan};
ghost use Rattle.lapjv_definition.specs.Invariant.{Searching};
ghost use Rattle.lapjv_definition.specs.Entry.{owner_of};
ghost use Rattle.lapjv_definition.specs.Private.{Searched};
ghost use Rattle.lapjv_definition.specs.Path.{first_d, last_free, raise_from, search_at, search_step, search_from, pathed, find_path_dense};
ghost use Rattle.lapjv_definition.specs.Scan.{scanning};
ghost use Rattle.laws.specs.Below.{Below};
ghost use Rattle.laws.specs.Tab.{tab};
ghost use Rattle.laws.specs.Total.{total};
ghost use Rattle.lapjv_definition.specs.Invariant as Invariant;

use crate::cost::reduced_cost;
use crate::find::find_dense;
use crate::scan::scan_dense;
use lapjv_reduction::cost::Costs;
use lapjv_reduction::entry::is_free;

// Lines 250 to 254.
fn path_init(
    costs: Costs,
    start_i: usize,
    v: &[f64],
    d: &mut [f64],
    cols: &mut [usize],
    pred: &mut [usize],
)
    requires { (start_i < costs.side) × (length v.now ≡ costs.side) × (length d.old ≡ costs.side) × (length cols.old ≡ costs.side) × (length pred.old ≡ costs.side) }
    ensures { (d.new ≡ first_d costs.entry.side costs.entry.cells.now start_i v.now) × (cols.new ≡ tab (λ i. i) costs.entry.side) × (pred.new ≡ tab (λ i. start_i) costs.entry.side) }
{
    for i in 0..costs.side {
        cols[i] = i;
        pred[i] = start_i;
        d[i] = reduced_cost(costs, v, start_i, i);
    }
}

// Lines 260 to 265: the last free column among those found.
fn last_free(n: usize, lo: usize, hi: usize, cols: &[usize], y: &[usize]) -> Option<usize>
    requires { (lo ≤ hi) × (hi ≤ n) × Below n cols.now × (length cols.now ≡ n) × (length y.now ≡ n) }
    ensures { result ≡ owner_of n (last_free n cols.now y.now (hi - lo) lo n) }
{
    let mut found = None;
    for k in lo..hi {
        let j = cols[k];
        if is_free(n, y[j]) {
            found = Some(j);
        }
    }
    found
}

// Lines 275 to 279.
fn raise(n: usize, lo: usize, n_ready: usize, d: &[f64], cols: &[usize], v: &mut [f64])
    requires { (lo < n) × (n_ready ≤ n) × Below n cols.now × (length cols.now ≡ n) × (length d.now ≡ n) × (length v.old ≡ n) }
    ensures { v.new ≡ raise_from cols.now d.now (get_or d.now (get_or cols.now lo 0) nan) n_ready 0 v.old }
{
    let mind = d[cols[lo]];
    for k in 0..n_ready {
        let j = cols[k];
        v[j] += d[j] - mind;
    }
}

// The variables of the search that are no lists: the free column is found, or not yet, and scans are those of all calls of `scan_dense`.
#[derive(Drop)]
struct Passing {
    lo: usize,
    hi: usize,
    n_ready: usize,
    found: Option<usize>,
    scans: usize,
}

// Lines 257 to 271: one pass. `scan_dense` ends with lo == hi unless it returns a column, so the Rust's test `lo == hi` holds at the start of each.
fn search_step(
    costs: Costs,
    s: Passing,
    d: &mut [f64],
    cols: &mut [usize],
    pred: &mut [usize],
    y: &[usize],
    v: &[f64],
) -> Passing
    requires { (length d.old ≡ costs.side) × (length y.now ≡ costs.side) × (length v.now ≡ costs.side) × (s.lo ≡ s.hi) × (s.scans ≡ s.lo)
        × Searching costs.side y.now s.lo s.lo cols.old pred.old × (total (Invariant.taken costs.side) y.now costs.side 0 < costs.side) }
    ensures { (f : ℕ) →
        let t = search_step costs.entry.side costs.entry.cells.now y.now v.now (search_at (scanning d.old cols.old pred.old s.hi f) s.lo s.n_ready s.scans) in
        Searched costs.entry.side t (λ f. search_at (scanning d.new cols.new pred.new result.hi f) result.lo result.n_ready result.scans) result.found }
{
    let lo = s.lo;
    let hi = find_dense(costs.side, lo, d, cols);
    let free = last_free(costs.side, lo, hi, cols, y);
    if free.is_some() {
        return Passing {
            hi,
            n_ready: lo,
            found: free,
            ..s
        };
    }
    let a = scan_dense(costs, lo, hi, d, cols, pred, y, v);
    let scans = s.scans + a.scans;
    if a.found.is_some() {
        return Passing {
            hi,
            n_ready: lo,
            found: a.found,
            scans,
            ..s
        };
    }
    Passing {
        lo: a.lo,
        hi: a.hi,
        n_ready: lo,
        found: None,
        scans,
    }
}

// Lines 256 to 272.
fn search(
    costs: Costs,
    d: &mut [f64],
    cols: &mut [usize],
    pred: &mut [usize],
    y: &[usize],
    v: &[f64],
) -> Passing
    requires { (length d.old ≡ costs.side) × (length y.now ≡ costs.side) × (length v.now ≡ costs.side)
        × Searching costs.side y.now 0 0 cols.old pred.old × (total (Invariant.taken costs.side) y.now costs.side 0 < costs.side) }
    ensures { let n = costs.entry.side in
        let t = search_from n costs.entry.cells.now y.now v.now n (search_at (scanning d.old cols.old pred.old 0 n) 0 0 0) in
        Searched n t (λ f. search_at (scanning d.new cols.new pred.new result.hi f) result.lo result.n_ready result.scans) result.found }
{
    let mut s = Passing {
        lo: 0,
        hi: 0,
        n_ready: 0,
        found: None,
        scans: 0,
    };
    // Kept: no index counts here, since lo goes on by as many columns as a pass scans.
    while s.found.is_none() {
        s = search_step(costs, s, d, cols, pred, y, v);
    }
    s
}

// The free column that a search found, and its scans.
#[derive(Drop)]
pub(crate) struct Found {
    pub(crate) final_j: usize,
    pub(crate) scans: usize,
}

pub(crate) fn find_path_dense(
    costs: Costs,
    start_i: usize,
    y: &[usize],
    v: &mut [f64],
    pred: &mut [usize],
    d: &mut [f64],
    cols: &mut [usize],
) -> Found
    requires { (start_i < costs.side) × (length y.now ≡ costs.side) × (length v.old ≡ costs.side) × (length pred.old ≡ costs.side) × (length d.old ≡ costs.side) × (length cols.old ≡ costs.side)
        × (total (Invariant.taken costs.side) y.now costs.side 0 < costs.side) }
    ensures { pathed v.new pred.new result.final_j result.scans ≡ find_path_dense costs.entry.side costs.entry.cells.now start_i y.now v.old }
{
    path_init(costs, start_i, v, d, cols, pred);
    let s = search(costs, d, cols, pred, y, v);
    raise(costs.side, s.lo, s.n_ready, d, cols, v);
    Found {
        final_j: s.found.unwrap(),
        scans: s.scans,
    }
}
