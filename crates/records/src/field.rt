// A field of a record: a number or an f32 in bytes, the lowest first.
ghost use Rattle.std.specs.Prelude.{◌≡◌, ◌+◌, ◌≤◌, ◌<◌, length};
ghost use Rattle.records.specs.Field as Field;
ghost use Rattle.records.specs.Written.{Put};

use std::num::f32_from_bits_with_nan;

// The bits of x; of every NaN, those of the one that is written.
pub fn bits(x: f32) -> u32
    ensures { result ≡ Field.bits x }
{
    if x.is_nan() {
        return 0x7fc0_0000;
    }
    x.to_bits()
}

// The number in one byte.
pub(crate) fn u8_of(b: &[u8]) -> u8
    requires { length b.now ≡ 1 }
    ensures { result ≡ Field.value b.now }
{
    b[0]
}

// The number in four bytes.
pub(crate) fn u32_of(b: &[u8]) -> u32
    requires { length b.now ≡ 4 }
    ensures { result ≡ Field.value b.now }
{
    u32::from_le_bytes([b[0], b[1], b[2], b[3]])
}

// The number in eight bytes.
pub(crate) fn u64_of(b: &[u8]) -> u64
    requires { length b.now ≡ 8 }
    ensures { result ≡ Field.value b.now }
{
    u64::from_le_bytes([b[0], b[1], b[2], b[3], b[4], b[5], b[6], b[7]])
}

// The f32 in four bytes.
pub(crate) fn f32_of(b: &[u8]) -> f32
    requires { length b.now ≡ 4 }
    ensures { result ≡ Field.float (Field.value b.now) }
{
    f32_from_bits_with_nan(u32_of(b))
}

// Writes the bytes from `at` on, and answers where they end. So each of those below.
pub fn put_bytes(out: &mut [u8], at: usize, bytes: &[u8]) -> usize
    requires { at + length bytes.now ≤ length out.old }
    ensures { Put at bytes.now out.old result out.new }
{
    let end = at + bytes.len();
    out[at..end].copy_from_slice(bytes);
    end
}

pub(crate) fn put_u8(out: &mut [u8], at: usize, n: u8) -> usize
    requires { at + 1 ≤ length out.old }
    ensures { Put at (Field.little_endian 1 n) out.old result out.new }
{
    put_bytes(out, at, &[n])
}

fn put_f32(out: &mut [u8], at: usize, x: f32) -> usize
    requires { at + 4 ≤ length out.old }
    ensures { Put at (Field.little_endian 4 (Field.bits x)) out.old result out.new }
{
    put_bytes(out, at, &bits(x).to_le_bytes())
}

pub(crate) fn put_five(out: &mut [u8], at: usize, a: f32, b: f32, c: f32, d: f32, e: f32) -> usize
    requires { at + 20 ≤ length out.old }
    ensures { Put at (Field.five a b c d e) out.old result out.new }
{
    let at1 = put_f32(out, at, a);
    let at2 = put_f32(out, at1, b);
    let at3 = put_f32(out, at2, c);
    let at4 = put_f32(out, at3, d);
    put_f32(out, at4, e)
}
