// The largest of a row, where a not-a-number gives way to a number.
ghost use Rattle.std.specs.Prelude.{◌≡◌, length, get_or};
ghost use Rattle.std.specs.Float.{nan};
ghost use Rattle.laws.specs.Fold.{fold};
ghost use Rattle.floats_pick.specs.Pick.{larger};

// The largest of `start` and the row's cells, in this order.
pub fn largest(start: f32, row: &[f32]) -> f32
    ensures { result ≡ fold (λ most j. larger most (get_or row.now j nan)) start (length row.now) }
{
    let mut most = start;
    for cell in row {
        most = floats_pick::max(most, *cell);
    }
    most
}
