// Floats that a program holds for the calls of later records.
ghost use Rattle.vectors.specs.Held.{KeepsOutside};

use crate::part::{at_most, whole};
use crate::{cells, input};

// The floats follow in the input; or they are drawn, by the seed in two halves, the spread, the step and 16 patterns.
fn fill(follow: bool, w: &[u64; 25], out: &mut [f32]) {
    let all: &[u64] = w;
    if follow {
        input::floats(out.len(), 0.0, out);
        return;
    }
    cells::draw(whole(w[2], w[3]), w[4], w[5], &all[6..22], out);
}

// Holds floats from one place to another: `w` starts with the two.
pub fn hold(follow: bool, w: &[u64; 25], held: &mut [f32])
    ensures { KeepsOutside w.now held.old held.new }
{
    let end = at_most(held.len(), w[1]);
    let start = at_most(end, w[0]);
    fill(follow, w, &mut held[start..end]);
}
