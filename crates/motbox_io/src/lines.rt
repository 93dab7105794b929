// The lines in the buffer.
ghost use Rattle.std.specs.Prelude.{◌≡◌, ◌++◌, ◌-◌, ◌≤◌, length, take, drop};
ghost use Rattle.motbox_io.specs.Text as Text;

use mot_number::find;

// There is a line feed.
pub(crate) fn has_line(rest: &[u8]) -> bool
    ensures { result ≡ Text.has_line rest.now }
{
    find(rest, b'\n') < rest.len()
}

// How long the first line is, its line feed included; without one it is all that is there.
pub(crate) fn line_length(rest: &[u8]) -> usize
    ensures { result ≡ Text.line_length rest.now }
{
    let n = rest.len();
    let end = find(rest, b'\n');
    if end < n {
        return end + 1;
    }
    n
}

// Moves the bytes from `next` to `got` to the front.
pub(crate) fn shift(input: &mut [u8], next: usize, got: usize)
    requires fact_1 { next ≤ got }
    requires fact_2 { got ≤ length input.old }
    ensures { input.new ≡ take (got - next) (drop next input.old) ++ drop (got - next) input.old }
{
    for i in 0..got - next {
        input[i] = input[next + i];
    }
}
