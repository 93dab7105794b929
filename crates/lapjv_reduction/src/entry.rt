// The entries of x and y, as options.
// Kept: C lends x and y to `bedside_lapjv` as slices of numbers, so there an entry is an index, or n where the Rust has -1. It is looked at only here.
ghost use Rattle.std.specs.Prelude.{◌≡◌};
ghost use Rattle.lapjv_definition.specs.Entry.{owner_of, is_free, row_of};

// The entry r of x or y.
pub fn owner_of(n: usize, r: usize) -> Option<usize>
    ensures { result ≡ owner_of n r }
{
    if r < n { Some(r) } else { None }
}

// `r < 0` of the Rust.
pub fn is_free(n: usize, r: usize) -> bool
    ensures { result ≡ is_free (owner_of n r) }
{
    owner_of(n, r).is_none()
}

// `r as usize` of the Rust.
pub fn row_of(n: usize, r: usize) -> usize
    ensures { result ≡ row_of n (owner_of n r) }
{
    owner_of(n, r).unwrap_or(n)
}
