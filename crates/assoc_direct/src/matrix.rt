// A matrix of costs or of overlaps over a lent slice.
ghost use Rattle.std.specs.Prelude.{◌≡◌, ◌+◌, ◌*◌, ◌<◌, length, get_or};
ghost use Rattle.std.specs.Float.{nan};
ghost use Rattle.assoc_direct.specs.Rows.{Sized};

// Row by row, at most 255 rows and 255 columns.
#[derive(Clone, Copy)]
pub struct Matrix<'a> {
    pub cells: &'a [f32],
    pub nrows: usize,
    pub ncols: usize,
    ghost sized: { Sized nrows ncols (length cells.now) },
}

impl<'a> Matrix<'a> {
    pub fn at(self, i: usize, j: usize) -> f32
        requires { (i < self.nrows) × (j < self.ncols) }
        ensures { result ≡ get_or self.entry.cells.now (i * self.entry.ncols + j) nan }
    {
        self.cells[i * self.ncols + j]
    }
}
