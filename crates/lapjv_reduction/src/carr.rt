// `carr_dence`, lines 84 to 153 of lapjv.rs.
ghost use Rattle.std.specs.Prelude.{◌≡◌, cond, List, ℕ, ◌<◌, ◌≤◌, ltb, length, get_or, set, Float};
ghost use Rattle.std.specs.Float.Ieee.{lt};
ghost use Rattle.lapjv_definition.specs.Carr.{two_step, carr_two, carrying, carr_turn, carr_dence};
ghost use Rattle.lapjv_definition.specs.Private.{carr_take, carr_pick};

use crate::cost::{Costs, LARGE};
use crate::entry::{is_free, owner_of};
use lapjv_definition::{Pick, Two};

// Lines 109 to 119: column j, whose reduced cost is c.
fn two_step(c: f64, j: usize, t: Two) -> Two
    ensures { result ≡ two_step c j t }
{
    if c < t.v2 {
        if c >= t.v1 {
            return Two { j2: j, v2: c, ..t };
        }
        return Two {
            j1: j,
            j2: t.j1,
            v1: c,
            v2: t.v1,
        };
    }
    t
}

// Lines 102 to 120: the least reduced cost of row i and the next one.
fn carr_two(costs: Costs, i: usize, v: &[f64]) -> Two
    requires { (i < costs.side) × (length v.now ≡ costs.side) }
    ensures { result ≡ carr_two costs.entry.side costs.entry.cells.now i v.now }
{
    let mut t = Two {
        j1: 0,
        j2: costs.side,
        v1: costs.at(i, 0) - v[0],
        v2: LARGE,
    };
    for j in 1..costs.side {
        t = two_step(costs.at(i, j) - v[j], j, t);
    }
    t
}

// The Rust's counters; rr_cnt is the row turns of the call.
#[derive(Drop)]
pub(crate) struct Turned {
    pub(crate) current: usize,
    pub(crate) new_free_rows: usize,
    pub(crate) rr_cnt: usize,
}

// Lines 134 to 150: row i takes column j, and the row that had it is free again.
fn carr_take(
    n: usize,
    retry: bool,
    i: usize,
    j: usize,
    s: Turned,
    free_rows: &mut [usize],
    x: &mut [usize],
    y: &mut [usize],
) -> Turned
    requires { (i < n) × (j < n) × (s.current < n) × (s.new_free_rows ≤ s.current) × (s.rr_cnt < 65536)
        × (length free_rows.old ≡ n) × (length x.old ≡ n) × (length y.old ≡ n) }
    ensures { (v : List Float) → carrying result.current result.new_free_rows result.rr_cnt free_rows.new x.new y.new v
        ≡ carr_take n retry i j v (carrying s.current s.new_free_rows s.rr_cnt free_rows.old x.old y.old v) }
{
    let rr_cnt = s.rr_cnt + 1;
    let owner = owner_of(n, y[j]);
    x[i] = j;
    y[j] = i;
    let Some(r) = owner else {
        return Turned {
            current: s.current + 1,
            rr_cnt,
            ..s
        };
    };
    if retry {
        free_rows[s.current] = r;
        return Turned { rr_cnt, ..s };
    }
    free_rows[s.new_free_rows] = r;
    Turned {
        current: s.current + 1,
        new_free_rows: s.new_free_rows + 1,
        rr_cnt,
    }
}

// Lines 126 to 132 without the store of line 128, where early is the test of line 126: the column that the row takes, and whether the row that had it
// has the next turn.
fn carr_pick(n: usize, early: bool, v1_new: f64, vj1: f64, i0: usize, j1: usize, j2: usize) -> Pick
    ensures { result ≡ carr_pick early (lt v1_new vj1) (ltb i0 n) (ltb j2 n) j1 j2 }
{
    if early {
        if v1_new < vj1 {
            return Pick { j: j1, retry: true };
        }
        if !is_free(n, i0) && j2 < n {
            return Pick {
                j: j2,
                retry: false,
            };
        }
    }
    Pick {
        j: j1,
        retry: false,
    }
}

// Lines 98 to 150: one row turn.
fn carr_turn(
    costs: Costs,
    s: Turned,
    free_rows: &mut [usize],
    x: &mut [usize],
    y: &mut [usize],
    v: &mut [f64],
) -> Turned
    requires { (s.current < costs.side) × (s.new_free_rows ≤ s.current) × (s.rr_cnt < 65536) × (get_or free_rows.old s.current 0 < costs.side)
        × (length free_rows.old ≡ costs.side) × (length x.old ≡ costs.side) × (length y.old ≡ costs.side) × (length v.old ≡ costs.side) }
    ensures { carrying result.current result.new_free_rows result.rr_cnt free_rows.new x.new y.new v.new
        ≡ carr_turn costs.entry.side costs.entry.cells.now (carrying s.current s.new_free_rows s.rr_cnt free_rows.old x.old y.old v.old) }
{
    let free_i = free_rows[s.current];
    let t = carr_two(costs, free_i, v);
    let vj1 = v[t.j1];
    let v1_new = vj1 - (t.v2 - t.v1);
    let early = s.rr_cnt + 1 < (s.current + 1) * costs.side;
    let p = carr_pick(costs.side, early, v1_new, vj1, y[t.j1], t.j1, t.j2);
    if p.retry {
        v[p.j] = v1_new;
    }
    carr_take(costs.side, p.retry, free_i, p.j, s, free_rows, x, y)
}

pub(crate) fn carr_dence(
    costs: Costs,
    n_free_rows: usize,
    free_rows: &mut [usize],
    x: &mut [usize],
    y: &mut [usize],
    v: &mut [f64],
) -> Turned
    requires { (n_free_rows ≤ costs.side) × ((k : ℕ) → k < n_free_rows → get_or free_rows.old k 0 < costs.side)
        × (length free_rows.old ≡ costs.side) × (length x.old ≡ costs.side) × (length y.old ≡ costs.side) × (length v.old ≡ costs.side) }
    ensures { carrying result.current result.new_free_rows result.rr_cnt free_rows.new x.new y.new v.new
        ≡ carr_dence costs.entry.side costs.entry.cells.now n_free_rows free_rows.old x.old y.old v.old }
{
    let mut s = Turned {
        current: 0,
        new_free_rows: 0,
        rr_cnt: 0,
    };
    // Kept: no index counts here, since a turn may leave current where it is.
    while s.current < n_free_rows {
        s = carr_turn(costs, s, free_rows, x, y, v);
    }
    s
}
