// The cells of a matrix that is too large to be given float by float: each is drawn by its place.
ghost use Rattle.std.specs.Prelude.{◌≡◌, length, get_or};
ghost use Rattle.std.specs.Float.{nan};
ghost use Rattle.laws.specs.Tab.{tab};
ghost use Rattle.vectors.specs.Cells as Cells;

use vectors_digest::floats::float_of;
use vectors_digest::random::next;

// The random number of place k.
fn number_of(seed: u64, k: u64) -> u64
    ensures { result ≡ Cells.number_of seed k }
{
    next(next(next(seed ^ (k % 0x1_0000_0000 * 0x9e37_79b9))))
}

// Word i of a list; 0 where it has none.
fn word_at(list: &[u64], i: usize) -> u64
    ensures { result ≡ get_or list.now i 0 }
{
    list.get(i).copied().unwrap_or(0)
}

// One of 16 patterns, or one up to `spread` above it.
fn pattern(r: u64, spread: u64, from: &[u64]) -> u32
    ensures { result ≡ Cells.pattern r spread from.now }
{
    let first = word_at(from, (r % 16) as usize) % 0x1_0000_0000;
    let above = r / 0x1_0000_0000 % (spread % 0x1_0000_0000 + 1) % 0x1_0000_0000;
    ((first + above) % 0x1_0000_0000) as u32
}

// Cell k, which held `old`.
#[tactic(auto, unfolding(crate::specs::Cells::cell))]
fn cell(seed: u64, spread: u64, step: u64, from: &[u64], k: u64, old: f32) -> f32
    ensures { result ≡ Cells.cell seed spread step from.now k old }
{
    let rest = k % (step % 0x1_0000_0000 + 1);
    if rest != 0 {
        return old;
    }
    float_of(pattern(number_of(seed, k), spread, from))
}

// Draws the cells whose places are multiples of `step` + 1; the others stay.
pub fn draw(seed: u64, spread: u64, step: u64, from: &[u64], out: &mut [f32])
    ensures { out.new ≡ tab (λ k. Cells.cell seed spread step from.now k (get_or out.old k nan)) (length out.old) }
{
    for (k, held) in out.iter_mut().enumerate() {
        *held = cell(seed, spread, step, from, k as u64, *held);
    }
}
