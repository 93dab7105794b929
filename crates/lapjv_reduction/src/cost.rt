// The costs of a call, one slice row by row, and the Rust's LARGE.
ghost use Rattle.std.specs.Prelude.{◌≡◌, ◌<◌};
ghost use Rattle.lapjv_definition.specs.Invariant.{Square};
ghost use Rattle.lapjv_definition.specs.Cost as Cost;

pub(crate) const LARGE: f64 = 1000000.0;

// `side` rows of as many costs; the side is 1 to 255.
#[derive(Clone, Copy)]
pub struct Costs<'a> {
    pub side: usize,
    pub cells: &'a [f64],
    ghost square: { Square side cells.now },
}

impl<'a> Costs<'a> {
    // cost[i][j]
    pub fn at(self, i: usize, j: usize) -> f64
        requires { (i < self.side) × (j < self.side) }
        ensures { result ≡ Cost.at self.entry.cells.now self.entry.side i j }
    {
        self.cells[i * self.side + j]
    }
}
