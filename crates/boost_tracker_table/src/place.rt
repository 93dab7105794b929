// A track in its place of the lent table, read and stored by parts.
ghost use Rattle.std.specs.Prelude.{◌≡◌, ◌+◌, ◌*◌, ◌≤◌, length};
ghost use Rattle.laws.specs.Splice.{splice};
ghost use Rattle.boost_tracker_table.specs.Table.{place_floats, place_counters, pair_at, pair_floats, counters_of, floats_of, track_of, track_at};

use strack::strack::KalmanBoxTracker;
use strack_filter::kalman_filter::{KalmanFilter, Pair};

// The floats of the four pairs, six of each.
pub const PLACE_FLOATS: usize = 24;

// Id, time since update, streak and age.
pub const PLACE_COUNTERS: usize = 4;

// The pair in the six floats from `at` on.
fn pair_at(f: &[f32], at: usize) -> Pair
    requires { at + 6 ≤ length f.now }
    ensures { result ≡ pair_at f.now at }
{
    Pair {
        p: f[at],
        v: f[at + 1],
        a: f[at + 2],
        b: f[at + 3],
        c: f[at + 4],
        d: f[at + 5],
    }
}

// Not by `copy_from_slice`, which first tests whether the two slices overlap: with it a drop of one id of many took about twice the instructions.
fn put_array<T: Copy, const N: usize>(part: &mut [T], cells: [T; N])
    requires { length part.old ≡ N }
    ensures { part.new ≡ cells }
{
    *part.as_mut_array().unwrap() = cells;
}

fn put_pair(f: &mut [f32], at: usize, pair: Pair)
    requires { at + 6 ≤ length f.old }
    ensures { f.new ≡ splice f.old at (pair_floats pair) }
{
    put_array(
        &mut f[at..at + 6],
        [pair.p, pair.v, pair.a, pair.b, pair.c, pair.d],
    );
}

// The track in the floats and the counters of a place.
fn track_of(f: &[f32], c: &[u64]) -> KalmanBoxTracker
    requires { (length f.now ≡ place_floats) × (length c.now ≡ place_counters) }
    ensures { result ≡ track_of f.now c.now }
{
    let kf = KalmanFilter {
        x: pair_at(f, 0),
        y: pair_at(f, 6),
        h: pair_at(f, 12),
        r: pair_at(f, 18),
    };
    KalmanBoxTracker {
        kf,
        id: c[0],
        since: c[1],
        streak: c[2],
        age: c[3],
    }
}

// The track at place i.
pub(crate) fn track_at(f: &[f32], c: &[u64], i: usize) -> KalmanBoxTracker
    requires { (i * place_floats + place_floats ≤ length f.now) × (i * place_counters + place_counters ≤ length c.now) }
    ensures { result ≡ track_at f.now c.now i }
{
    let at = i * PLACE_FLOATS;
    let k = i * PLACE_COUNTERS;
    track_of(&f[at..at + PLACE_FLOATS], &c[k..k + PLACE_COUNTERS])
}

pub(crate) fn put_track(f: &mut [f32], c: &mut [u64], i: usize, t: KalmanBoxTracker)
    requires { (i * place_floats + place_floats ≤ length f.old) × (i * place_counters + place_counters ≤ length c.old) }
    ensures floats { f.new ≡ splice f.old (i * place_floats) (floats_of t) }
    ensures counters { c.new ≡ splice c.old (i * place_counters) (counters_of t) }
{
    let at = i * PLACE_FLOATS;
    let k = i * PLACE_COUNTERS;
    put_pair(f, at, t.kf.x);
    put_pair(f, at + 6, t.kf.y);
    put_pair(f, at + 12, t.kf.h);
    put_pair(f, at + 18, t.kf.r);
    put_array(
        &mut c[k..k + PLACE_COUNTERS],
        [t.id, t.since, t.streak, t.age],
    );
}
