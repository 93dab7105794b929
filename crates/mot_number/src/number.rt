// A number of MOTChallenge text: an optional minus, one to six digits, and optionally a point with one to six digits.
ghost use Rattle.std.specs.Prelude.{◌≡◌, ◌<◌};
ghost use Rattle.mot_number.specs.Number as Spec;
ghost use Rattle.mot_number.specs.Private as Private;

use crate::fraction::magnitude;
use crate::scan::find;

const POWERS: [u64; 7] = [1, 10, 100, 1000, 10000, 100000, 1000000];

fn is_digit(b: u8) -> bool
    ensures { result ≡ Spec.is_digit b }
{
    (b'0' <= b) & (b <= b'9')
}

// The number that one to six digits make behind those that make `before`; none where the text is anything else.
fn digits_of(text: &[u8], before: u64) -> Option<u64>
    requires { before < 1000000 }
    ensures { result ≡ Private.digits_of before text.now }
{
    let n = text.len();
    if n == 0 {
        return None;
    }
    if 6 < n {
        return None;
    }
    let mut value = before;
    for &b in text {
        if !is_digit(b) {
            return None;
        }
        value = value * 10 + (b - b'0') as u64;
    }
    Some(value)
}

// The frame number of a text that is one and nothing else: one to six digits alone.
pub fn frame_of(text: &[u8]) -> Option<u32>
    ensures { result ≡ Spec.frame_number text.now }
{
    let value = digits_of(text, 0)?;
    Some(value as u32)
}

// m / 10 ^ k to the nearest f32, with that sign.
fn rounded(negative: bool, m: u64, k: usize) -> f32
    requires { k < 7 }
    ensures { result ≡ Spec.rounded negative m k }
{
    let size = magnitude(m, POWERS[k]);
    if negative { -size } else { size }
}

// A number behind its sign.
fn unsigned(text: &[u8], negative: bool) -> Option<f32>
    ensures { result ≡ Private.unsigned_of negative text.now }
{
    let n = text.len();
    let point = find(text, b'.');
    let whole = digits_of(&text[..point], 0)?;
    if point == n {
        return Some(rounded(negative, whole, 0));
    }
    let next = point + 1;
    let behind = &text[next..];
    let places = behind.len();
    let m = digits_of(behind, whole)?;
    Some(rounded(negative, m, places))
}

// A minus stands first.
fn minus(text: &[u8]) -> bool
    ensures { result ≡ Spec.is_negative text.now }
{
    if text.len() == 0 {
        return false;
    }
    text[0] == b'-'
}

// The f32 of a text that is a number and nothing else.
pub fn number_of(text: &[u8]) -> Option<f32>
    ensures { result ≡ Spec.number_of text.now }
{
    if minus(text) {
        return unsigned(&text[1..], true);
    }
    unsigned(text, false)
}
