// The pairs of rows and their columns, written one behind the other.
ghost use Rattle.std.specs.Prelude.{◌≡◌, ℕ, ◌<◌, length};
ghost use Rattle.assoc_direct.specs.Rows.{pairs_of, PairRoom, Wrote};

use super::direct::put_pair;

// A pair for each of nrows rows whose `column` is one, which ncols is not; how many there are.
pub fn put_pairs<F: Fn(usize) -> usize>(
    nrows: usize,
    ncols: usize,
    column: F,
    boxes: &mut [usize],
    tracks: &mut [usize],
) -> usize
    requires { (i : ℕ) → i < nrows → F.pre column i }
    ensures { (f : ℕ → ℕ) → ((i j : ℕ) → i < nrows → F.post column i j → j ≡ f i) → PairRoom (pairs_of ncols f nrows) (length boxes.old) (length tracks.old)
        → Wrote (pairs_of ncols f nrows) boxes.old tracks.old result boxes.new tracks.new }
{
    let mut k = 0;
    for i in 0..nrows {
        k = put_pair(boxes, tracks, k, i, column(i), ncols);
    }
    k
}
