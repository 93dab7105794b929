// The first n elements of a slice, lent: all of it where it has fewer.
ghost use Rattle.std.specs.Prelude.{◌≡◌, take};

use crate::part::at_most;

pub fn first<T>(s: &mut [T], n: u64) -> &mut [T]
    ensures { result.now ≡ take n s.old }
{
    let end = at_most(s.len(), n);
    &mut s[..end]
}
