// The cells of a lent slice, or of a matrix that lies in it row by row, each made by a closure of its place and of what is there.
#![tactic(auto)]

ghost use Rattle.std.specs.Prelude.{◌≡◌, ℕ, ◌*◌, ◌≤◌, ◌<◌, length, get_or};
ghost use Rattle.laws.specs.Grid.{cell_at};
ghost use Rattle.cells.specs.Filled.{Filled, RowsFilled};

// Puts into each cell what `cell` makes of its place and of what the cell held.
pub fn fill<T: Copy, F: Fn(usize, T) -> T>(cells: &mut [T], cell: F)
    requires { (j : ℕ) (d : T) → j < length cells.old → F.pre cell j (get_or cells.old j d) }
    ensures { Filled (F.post cell) cells.old cells.new }
{
    for (j, held) in cells.iter_mut().enumerate() {
        *held = cell(j, *held);
    }
}

// The same over the front of `cells`, where the rows of a matrix lie one behind the other.
pub fn fill_rows<T: Copy, F: Fn(usize, usize, T) -> T>(
    rows: usize,
    columns: usize,
    cells: &mut [T],
    cell: F,
)
    requires room { rows * columns ≤ length cells.old }
    requires callable { (i j : ℕ) (d : T) → i < rows → j < columns → F.pre cell i j (cell_at d columns cells.old i j) }
    ensures { RowsFilled (F.post cell) rows columns cells.old cells.new }
{
    for i in 0..rows {
        let at = i * columns;
        let row = &mut cells[at..at + columns];
        fill(
            row,
            |j: usize, held: T| -> T
                requires { F.pre cell i j held }
                ensures { F.post cell i j held result }
            { cell(i, j, held) },
        );
    }
}
