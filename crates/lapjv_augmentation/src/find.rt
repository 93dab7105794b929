// `find_dense`, lines 155 to 181 of lapjv.rs.
ghost use Rattle.std.specs.Prelude.{◌≡◌, ◌<◌, ◌≤◌, length};
ghost use Rattle.lapjv_definition.specs.Find.{finding, find_step, find_dense};
ghost use Rattle.laws.specs.Below.{Below};
ghost use Rattle.laws.specs.Swap.{swapped};

// The columns from lo to hi are those nearest so far, at distance mind.
#[derive(Drop)]
struct Finding {
    hi: usize,
    mind: f64,
}

// cols[k] and cols[h] change places.
// Kept: with the slice's own `swap`, which first tests the order of the two places, the run of lapjv_vectors takes 5 % longer.
pub(crate) fn swap(cols: &mut [usize], k: usize, h: usize)
    requires { (k < length cols.old) × (h < length cols.old) }
    ensures { cols.new ≡ swapped cols.old k h }
{
    let j = cols[k];
    cols[k] = cols[h];
    cols[h] = j;
}

// Lines 168 to 178, where dj is d[cols[k]].
fn find_step(lo: usize, dj: f64, k: usize, hi: usize, mind: f64, cols: &mut [usize]) -> Finding
    requires { (k < length cols.old) × (hi ≤ k) × (lo < k) }
    ensures { finding result.hi result.mind cols.new ≡ find_step lo dj k hi mind cols.old }
{
    if dj <= mind {
        if dj < mind {
            swap(cols, k, lo);
            return Finding {
                hi: lo + 1,
                mind: dj,
            };
        }
        swap(cols, k, hi);
        return Finding { hi: hi + 1, mind };
    }
    Finding { hi, mind }
}

pub(crate) fn find_dense(n: usize, lo: usize, d: &[f64], cols: &mut [usize]) -> usize
    requires { (lo < n) × (length d.now ≡ n) × (length cols.old ≡ n) × Below n cols.old }
    ensures { (result ≡ (find_dense n lo d.now cols.old).hi)
        × (cols.new ≡ (find_dense n lo d.now cols.old).cols) }
{
    let mut hi = lo + 1;
    let mut mind = d[cols[lo]];
    for k in lo + 1..n {
        let s = find_step(lo, d[cols[k]], k, hi, mind, cols);
        hi = s.hi;
        mind = s.mind;
    }
    hi
}
