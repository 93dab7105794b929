// Digests of slices, one after the other: each goes on from the digest before it.
ghost use Rattle.std.specs.Prelude.{◌≡◌};
ghost use Rattle.vectors_digest.specs.Digest.{joined, digest, digest_of_numbers};
ghost use Rattle.vectors_digest.specs.Floats as Floats;

use crate::floats::{wide_word, word};
use crate::random::next;

// Where a digest starts.
pub const START: u64 = 1;

// ---- one word

pub fn join(sum: u64, w: u64) -> u64
    ensures { result ≡ joined sum w }
{
    next(sum ^ w)
}

pub fn float(sum: u64, x: f32) -> u64
    ensures { result ≡ joined sum (Floats.word x) }
{
    join(sum, word(x))
}

// ---- a slice

pub fn floats(start: u64, s: &[f32]) -> u64
    ensures { result ≡ digest Floats.word start s.now }
{
    s.iter().fold(start, |sum, &x| join(sum, word(x)))
}

pub fn doubles(start: u64, s: &[f64]) -> u64
    ensures { result ≡ digest Floats.wide_word start s.now }
{
    s.iter().fold(start, |sum, &x| join(sum, wide_word(x)))
}

// Kept: a fold for each kind of element is one line, where one over a closure would need a clause of what the closure answers.
pub fn numbers(start: u64, s: &[usize]) -> u64
    ensures { result ≡ digest_of_numbers start s.now }
{
    s.iter().fold(start, |sum, &n| join(sum, n as u64))
}

pub fn words(start: u64, s: &[u64]) -> u64
    ensures { result ≡ digest_of_numbers start s.now }
{
    s.iter().fold(start, |sum, &w| join(sum, w))
}

pub fn bytes(start: u64, s: &[u8]) -> u64
    ensures { result ≡ digest_of_numbers start s.now }
{
    s.iter().fold(start, |sum, &b| join(sum, b as u64))
}
