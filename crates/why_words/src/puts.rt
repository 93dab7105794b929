// Texts one behind the other. Each of these writes from `at` on and answers where it ended.
ghost use Rattle.std.specs.Prelude.{◌≡◌, ◌+◌, ◌<◌, ◌≤◌, ◌++◌, length};
ghost use Rattle.records_line.specs.Text.{decimal};
ghost use Rattle.why_words.specs.Words as Words;
ghost use Rattle.why_words.specs.Private.{Puts};

use crate::value::{Value, value_of};
use records::put_bytes;
use records_line::write_decimal;

pub(crate) fn put_word(text: &mut [u8], at: usize, word: &[u8]) -> usize
    requires { at + length word.now ≤ length text.old }
    ensures { Puts (length word.now) at word.now text.old result text.new }
{
    put_bytes(text, at, word)
}

fn put_decimal(text: &mut [u8], at: usize, n: u64) -> usize
    requires { at + 20 ≤ length text.old }
    ensures { Puts 20 at (decimal n) text.old result text.new }
{
    at + write_decimal(n, &mut text[at..]).unwrap()
}

// A word, and a number behind it.
pub(crate) fn put_count(text: &mut [u8], at: usize, word: &[u8], n: u64) -> usize
    requires { at + (length word.now + 20) ≤ length text.old }
    ensures { Puts (length word.now + 20) at (word.now ++ decimal n) text.old result text.new }
{
    let then = put_word(text, at, word);
    put_decimal(text, then, n)
}

fn digit(d: u64) -> u8
    requires { d < 10 }
    ensures { result ≡ 48 + d }
{
    b'0' + d as u8
}

// The point and at most three digits behind it.
fn put_fraction(text: &mut [u8], at: usize, f: u64) -> usize
    requires fact_1 { at + 4 ≤ length text.old }
    requires fact_2 { f < 1000 }
    ensures { Puts 4 at (Words.fraction f) text.old result text.new }
{
    let n = fraction_bytes(f);
    let mut cells = [b'.'; 4];
    cells[1] = digit(f / 100);
    cells[2] = digit(f / 10 % 10);
    cells[3] = digit(f % 10);
    put_word(text, at, &cells[..n])
}

// How many bytes a fraction has without the zeros at its end.
fn fraction_bytes(f: u64) -> usize
    ensures { result ≡ Words.fraction_bytes f }
{
    if f == 0 {
        return 0;
    }
    if f % 100 == 0 {
        return 2;
    }
    if f % 10 == 0 {
        return 3;
    }
    4
}

// n thousandths.
fn put_fixed(text: &mut [u8], at: usize, n: u64) -> usize
    requires { at + 24 ≤ length text.old }
    ensures { Puts 24 at (Words.fixed n) text.old result text.new }
{
    let point = put_decimal(text, at, n / 1000);
    put_fraction(text, point, n % 1000)
}

fn put_below_zero(text: &mut [u8], at: usize, n: u64) -> usize
    requires { at + 25 ≤ length text.old }
    ensures { Puts 25 at (Words.minus ++ Words.fixed n) text.old result text.new }
{
    let from = put_word(text, at, b"-");
    put_fixed(text, from, n)
}

fn put_value(text: &mut [u8], at: usize, v: Value) -> usize
    requires { at + 25 ≤ length text.old }
    ensures { Puts 25 at (Words.value_text v) text.old result text.new }
{
    match v {
        Value::Above(n) => put_fixed(text, at, n),
        Value::Below(n) => put_below_zero(text, at, n),
        Value::Beyond => put_word(text, at, b"out of range"),
    }
}

// A word, and an f32 behind it.
pub(crate) fn put_float(text: &mut [u8], at: usize, word: &[u8], x: f32) -> usize
    requires { at + (length word.now + 25) ≤ length text.old }
    ensures { Puts (length word.now + 25) at (word.now ++ Words.number x) text.old result text.new }
{
    let then = put_word(text, at, word);
    put_value(text, then, value_of(x))
}
