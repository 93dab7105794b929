// Places in a buffer.
ghost use Rattle.std.specs.Prelude.{◌≡◌, ◌+◌, min};

// Where n bytes end that begin at `start`: no further than the buffer of `size` bytes.
pub fn end_of(start: usize, n: usize, size: usize) -> usize
    ensures { result ≡ min (start + n) size }
{
    start.saturating_add(n).min(size)
}
