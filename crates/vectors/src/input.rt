// Words of standard input: numbers of four bytes, the lowest first, which also stand for the bits of floats. Behind
// the end of the input every word is 0.
ghost use Rattle.std.specs.Prelude.{◌≡◌, ◌<◌, length, take};
ghost use Rattle.std.specs.Float.{nan};
ghost use Rattle.vectors.specs.Words.{word_of, RestIs};

use crate::lent;
use crate::part::whole;
use vectors_digest::floats::float_of;

// The number of four bytes.
fn word_of(a: u8, b: u8, c: u8, d: u8) -> u32
    ensures { result ≡ word_of a b c d }
{
    a as u32 + 256 * (b as u32 + 256 * (c as u32 + 256 * (d as u32)))
}

// The next word; `end` where the input ends before it.
pub fn word_or(end: u32) -> u32
    ensures { result < 4294967296 }
{
    let mut b = [0u8; 4];
    if io::read_full(0, &mut b) < 4 {
        return end;
    }
    word_of(b[0], b[1], b[2], b[3])
}

// The next number of two words, the lower first.
fn long() -> u64 {
    let low = word_or(0);
    whole(low as u64, word_or(0) as u64)
}

// ---- the next elements fill the front of a slice, `given` of them, and `rest` what is left of it

fn fill<T: Copy, F: Fn() -> T>(given: usize, rest: T, next: F, out: &mut [T])
    requires { F.IsAlwaysCallable next }
    ensures { (z : T) → RestIs z rest given out.new }
{
    for (k, element) in out.iter_mut().enumerate() {
        *element = if k < given { next() } else { rest };
    }
}

pub fn floats(given: usize, rest: f32, out: &mut [f32])
    ensures { RestIs nan rest given out.new }
{
    fill(given, rest, || float_of(word_or(0)), out);
}

pub fn words(given: usize, rest: u32, out: &mut [u64])
    ensures { RestIs 0 rest given out.new }
{
    fill(given, rest as u64, || word_or(0) as u64, out);
}

pub fn counts(given: usize, rest: u32, out: &mut [u32])
    ensures { RestIs 0 rest given out.new }
{
    fill(given, rest, || word_or(0), out);
}

// Numbers of two words; 0 in what is left of the slice.
pub fn longs(given: usize, out: &mut [u64])
    ensures { RestIs 0 0 given out.new }
{
    fill(given, 0, long, out);
}

// The next n bytes, in the front of a slice: that part, lent. Which bytes they are no contract can say.
pub fn bytes(s: &mut [u8], n: u64) -> &mut [u8]
    ensures { length result.now ≡ length (take n s.old) }
{
    let part = lent::first(s, n);
    io::read_full(0, part);
    part
}
