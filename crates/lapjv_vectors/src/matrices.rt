// The matrices: a kind and a side give one, each cell made from its place and a random number.
// oracle/lapjv/matrices.rs makes the same.
ghost use Rattle.std.specs.Prelude.{◌<◌};

use vectors_digest::random::next;

#[derive(Clone, Copy)]
pub(crate) enum Kind {
    Uniform,
    Tied,
    Integers,
    Product,
    Nans,
    NanLines,
    Infinities,
    Zeros,
    MoreBoxes,
    MoreTracks,
    Worst,
    Scans,
    Equal,
    NearLarge,
    Wide,
    Any,
    AllNan,
}

pub(crate) const KINDS: [Kind; 17] = [
    Kind::Uniform,
    Kind::Tied,
    Kind::Integers,
    Kind::Product,
    Kind::Nans,
    Kind::NanLines,
    Kind::Infinities,
    Kind::Zeros,
    Kind::MoreBoxes,
    Kind::MoreTracks,
    Kind::Worst,
    Kind::Scans,
    Kind::Equal,
    Kind::NearLarge,
    Kind::Wide,
    Kind::Any,
    Kind::AllNan,
];

// Where the random numbers of a matrix start: not at 0, which the generator never leaves.
fn seed(kind: Kind, n: usize) -> u64 {
    next(88172645463325252 ^ ((n as u64) << 8) ^ (kind as u64))
}

fn real(k: usize) -> f64 {
    std::num::nearest_u64_to_f64(k as u64)
}

// A random number from 0 up to 1.
fn unit(r: u64) -> f64 {
    std::num::nearest_u64_to_f64(r >> 11) / 9007199254740992.0
}

// A random whole number below `most`.
fn whole(r: u64, most: u64) -> f64
    requires { 0 < most }
{
    std::num::nearest_u64_to_f64((r >> 11) % most)
}

fn nan() -> f64 {
    0.0 / 0.0
}

fn infinity() -> f64 {
    1.0 / 0.0
}

// `rare` in one of eight cells.
fn sprinkled(r: u64, rare: f64, other: f64) -> f64 {
    if (r >> 11) % 8 == 0 { rare } else { other }
}

// `line` in a whole row and a whole column.
fn on_lines(n: usize, i: usize, j: usize, line: f64, other: f64) -> f64 {
    if i == n / 2 || j == n / 3 {
        line
    } else {
        other
    }
}

fn zero(r: u64) -> f64 {
    match (r >> 11) % 4 {
        0 => 0.0,
        1 => -0.0,
        2 => 0.25,
        _ => -0.25,
    }
}

// A cost of any sort: a NaN, an infinity, a zero, about LARGE, very large, very small, or from 0 up
// to 1.
fn any(r: u64) -> f64 {
    match (r >> 11) % 12 {
        0 => nan(),
        1 => infinity(),
        2 => -infinity(),
        3 => 0.0,
        4 => -0.0,
        5 => 1000000.0,
        6 => 999999.0,
        7 => 1e300,
        8 => -1e300,
        9 => 5e-324,
        _ => unit(next(r)),
    }
}

// A square as match_detections makes it of `rows` boxes and `columns` tracks: a similarity is
// negated, less a trifle for each row above it, and the rest is filled.
fn padded(rows: usize, columns: usize, i: usize, j: usize, similarity: f64) -> f64 {
    if i < rows && j < columns {
        -similarity - 1e-12 * real(i)
    } else {
        1000000.0
    }
}

// A cost that no row bids for, higher in a later column, and in a later row more so.
fn dear(i: usize, j: usize) -> f64 {
    2000000.0 + (real(i) + 1.0) * (real(j) + 1.0)
}

// The most turns and scans that we know of, in one matrix (docs/LIMITS.md).
fn worst(n: usize, i: usize, j: usize) -> f64
    requires { 0 < n }
{
    if j == n - 1 {
        real(i) / 1024.0
    } else if j == 0 {
        0.0
    } else {
        dear(i, j)
    }
}

// As many scans, and hardly a turn.
fn scans(n: usize, i: usize, j: usize) -> f64
    requires { 0 < n }
{
    if j == n - 1 { 2000000.0 } else { dear(i, j) }
}

fn cell(kind: Kind, n: usize, i: usize, j: usize, r: u64) -> f64
    requires { 0 < n }
{
    match kind {
        Kind::Uniform => unit(r),
        Kind::Tied => whole(r, 4) / 4.0,
        Kind::Integers => whole(r, 21) - 10.0,
        Kind::Product => (real(i) + 1.0) * (real(j) + 1.0),
        Kind::Nans => sprinkled(r, nan(), unit(next(r))),
        Kind::NanLines => on_lines(n, i, j, nan(), unit(r)),
        Kind::Infinities => sprinkled(r, infinity(), sprinkled(next(r), -infinity(), unit(r))),
        Kind::Zeros => zero(r),
        Kind::MoreBoxes => padded(n, n - n / 3, i, j, whole(r, 9) / 8.0),
        Kind::MoreTracks => padded(n - n / 3, n, i, j, whole(r, 1025) / 1024.0),
        Kind::Worst => worst(n, i, j),
        Kind::Scans => scans(n, i, j),
        Kind::Equal => 0.5,
        Kind::NearLarge => 1000000.0 + whole(r, 5) - 2.0,
        Kind::Wide => 1.0 / unit(r) - 1.0 / unit(next(r)),
        Kind::Any => any(r),
        Kind::AllNan => nan(),
    }
}

// Fills a square of side n, row by row, with the matrix of a kind.
pub(crate) fn fill(kind: Kind, n: usize, cost: &mut [f64])
    requires { 0 < n }
{
    let mut r = seed(kind, n);
    for (k, c) in cost.iter_mut().enumerate() {
        r = next(r);
        *c = cell(kind, n, k / n, k % n, r);
    }
}
