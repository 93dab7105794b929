// Replays fixed matrices through lapjv and prints a line for each: kind, side, checksum of the costs;
// refusal, turns, scans; x; y. The file stdout has the lines that the published lapjv.rs gives on the
// same matrices (oracle/lapjv/run).
#![tactic(auto)]

ghost use Rattle.std.specs.Prelude.{◌<◌, ◌≤◌};

mod matrices;
mod text;

use matrices::{KINDS, Kind};
use vectors_digest::digest;

// What lapjv answers, and the slices as it leaves them.
fn call(n: usize, cost: &[f64], x: &mut [usize], y: &mut [usize]) {
    text::answer(lapjv::lapjv(n, cost, x, y));
    text::numbers(x);
    text::numbers(y);
    text::end();
}

// The matrix of a kind and a side.
fn replay(kind: Kind, n: usize, cost: &mut [f64], x: &mut [usize], y: &mut [usize])
    requires { 0 < n }
{
    matrices::fill(kind, n, cost);
    text::head(kind, n, digest::doubles(digest::START, cost));
    call(n, cost, x, y);
}

fn every_kind(n: usize, cost: &mut [f64], x: &mut [usize], y: &mut [usize])
    requires { 0 < n }
{
    for kind in KINDS {
        replay(kind, n, cost, x, y);
    }
}

// Every kind at one side.
fn side(n: usize)
    requires { (0 < n) × (n ≤ 255) }
{
    let mut cost = [0.0f64; 65025];
    let mut x = [0usize; 255];
    let mut y = [0usize; 255];
    let cells = n * n;
    every_kind(n, &mut cost[..cells], &mut x[..n], &mut y[..n]);
}

// A call that is turned down, with slices of the given lengths.
fn refuse(n: usize, cells: usize, rows: usize, columns: usize)
    requires { (cells ≤ 16) × (rows ≤ 4) × (columns ≤ 4) }
{
    let cost = [0.5f64; 16];
    let mut x = [7usize; 4];
    let mut y = [8usize; 4];
    text::lengths(n, cells, rows, columns);
    call(n, &cost[..cells], &mut x[..rows], &mut y[..columns]);
}

fn refusals() {
    refuse(0, 0, 0, 0);
    refuse(0, 16, 4, 4);
    refuse(256, 16, 4, 4);
    refuse(4294967296, 0, 0, 0);
    refuse(4, 15, 4, 4);
    refuse(4, 16, 3, 4);
    refuse(4, 16, 4, 3);
    refuse(3, 16, 3, 3);
    refuse(3, 9, 4, 3);
    refuse(3, 9, 3, 4);
    refuse(1, 0, 0, 0);
}

fn main() {
    for n in 1..41 {
        side(n);
    }
    side(64);
    side(255);
    refusals();
}
