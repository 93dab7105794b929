// Numbers as text, in ASCII.
ghost use Rattle.std.specs.Prelude.{◌≡◌, ◌+◌, ◌≤◌, ◌<◌, length};
ghost use Rattle.records_line.specs.Text as Text;
ghost use Rattle.records.specs.Written.{WritesText, Put};

use records::bits;

// How many decimal digits n has.
pub(crate) fn places(n: u64) -> usize
    ensures { result ≡ Text.places n }
{
    n.max(1).ilog10() as usize + 1
}

fn glyph(d: u64) -> u8
    requires { d < 16 }
    ensures { result ≡ Text.glyph d }
{
    if d < 10 {
        return b'0' + d as u8;
    }
    b'a' + (d - 10) as u8
}

// Fills the cells with n's last digits, from the last one back.
fn spell(cells: &mut [u8], base: u64, n: u64)
    requires base_positive { 0 < base }
    requires base_at_most_16 { base ≤ 16 }
    ensures { cells.new ≡ Text.digits base (length cells.old) n }
{
    let mut rest = n;
    for i in (0..cells.len()).rev() {
        cells[i] = glyph(rest % base);
        rest /= base;
    }
}

// Each of these writes at `at` and answers where it ended. Here k digits.
fn put_digits(out: &mut [u8], at: usize, k: usize, base: u64, n: u64) -> usize
    requires fits { at + k ≤ length out.old }
    requires base_positive { 0 < base }
    requires base_at_most_16 { base ≤ 16 }
    ensures { Put at (Text.digits base k n) out.old result out.new }
{
    let end = at + k;
    spell(&mut out[at..end], base, n);
    end
}

// k digits, and the byte that follows them.
fn put_number(out: &mut [u8], at: usize, k: usize, base: u64, n: u64, then: u8) -> usize
    requires fits { at + k < length out.old }
    requires base_positive { 0 < base }
    requires base_at_most_16 { base ≤ 16 }
    ensures { Put at (Text.ended (Text.digits base k n) then) out.old result out.new }
{
    let end = put_digits(out, at, k, base, n);
    out[end] = then;
    end + 1
}

pub(crate) fn put_decimal(out: &mut [u8], at: usize, n: u64, then: u8) -> usize
    requires { at + length (Text.decimal n) < length out.old }
    ensures { Put at (Text.ended (Text.decimal n) then) out.old result out.new }
{
    put_number(out, at, places(n), 10, n, then)
}

pub(crate) fn put_hex(out: &mut [u8], at: usize, x: f32, then: u8) -> usize
    requires { at + 8 < length out.old }
    ensures { Put at (Text.ended (Text.hex x) then) out.old result out.new }
{
    put_number(out, at, 8, 16, bits(x) as u64, then)
}

// Writes n in decimal at the front of out, and answers how many bytes that is. None: there is no room, and no byte is written. So of each line.
pub fn write_decimal(n: u64, out: &mut [u8]) -> Option<usize>
    ensures { WritesText (Text.decimal n) out.old result out.new }
{
    let k = places(n);
    if out.len() < k {
        return None;
    }
    put_digits(out, 0, k, 10, n);
    Some(k)
}
