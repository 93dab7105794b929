// The square root, to the nearest f32.
ghost use Rattle.std.specs.Prelude.{◌≡◌, ◌*◌, ◌^◌, ◌<◌};
ghost use Rattle.floats.specs.Root as Root;
ghost use Rattle.floats.specs.Private.{Significant};

// The square root of x.
pub fn sqrt(x: f32) -> f32
    ensures { result ≡ Root.root x }
{
    if x.is_nan() {
        return x;
    }
    if x == 0.0 {
        return x;
    }
    if x < 0.0 {
        return 0.0 / 0.0;
    }
    if x == f32::from_bits(0x7f80_0000) {
        return x;
    }
    let p = super::packing::parts(x);
    rooted(p.digits, p.place)
}

// The root of `digits` * 2 ^ `place` units, that is, of 2 ^ 149 times as many squares of the unit.
fn rooted(digits: u32, place: u32) -> f32
    requires { Significant digits place }
    ensures { result ≡ Root.root_of_squares (digits * 2 ^ place * 2 ^ 149) }
{
    let length = 32 - digits.leading_zeros();
    let dropped = (length + place + 150) / 2 - 24;
    let n = (digits as u64) << (place + 149 - 2 * dropped);
    let q = whole_root(n);
    if n - q * q <= q {
        super::packing::packed(q, dropped as u64)
    } else {
        super::packing::packed(q + 1, dropped as u64)
    }
}

// The whole part of the root of n. Whatever the guess, the tests on whole numbers alone decide; a close guess keeps them few.
fn whole_root(n: u64) -> u64
    requires { n < 2 ^ 48 }
    ensures { result ≡ Root.whole_root 24 n }
{
    let mut r = guess(n);
    // Kept: it goes down or up from the guess, and counts nothing, so that there is no range to go over.
    loop {
        if n < r * r {
            r -= 1;
        } else if (r + 1) * (r + 1) <= n {
            r += 1;
        } else {
            return r;
        }
    }
}

// About the root of n, for an n of 47 or 48 digits. It is promised only to be short.
// With x for n / 2 ^ 48, from 1/4 to 1, a straight line in each eighth is y near the reciprocal root of x. A step of Newton's, y * (3 - x * y * y) / 2, gives it nearer,
// and a little below. Then s = x * y is the root, a little below, and the rest n - s * s times y / 2 is what it lacks.
// In fixed point: x at 2 ^ 32, the lines at 2 ^ 12, the first y at 2 ^ 30, the second at 2 ^ 27, s at 2 ^ 24.
fn guess(n: u64) -> u64
    ensures { result < 2 ^ 24 }
{
    let x = ((n >> 16) % 0x1_0000_0000) as u32;
    let eighth = (x >> 29) as usize;
    let line = (HEIGHTS[eighth] << 18).wrapping_sub(high(SLOPES[eighth] << 18, x));
    let y = high(
        line,
        0x2fff_fffe_u32.wrapping_sub(high(high(line, line), x)),
    );
    let s = high(x, y) >> 3;
    let rest = n.wrapping_sub(product(s, s));
    let root = s + (high(((rest >> 8) % 0x1_0000_0000) as u32, y) >> 12);
    if root < 0x100_0000 {
        root as u64
    } else {
        0xff_ffff
    }
}

// The line of an eighth is its height at 0 less its slope times x. The first two are not needed: n has its top digit or the next.
const HEIGHTS: [u32; 8] = [0, 0, 11113, 9341, 8220, 7427, 6827, 6353];

const SLOPES: [u32; 8] = [0, 0, 11934, 7141, 4881, 3606, 2804, 2261];

// The upper half of a * b.
fn high(a: u32, b: u32) -> u32 {
    (product(a, b) >> 32) as u32
}

// The whole of a * b.
fn product(a: u32, b: u32) -> u64 {
    a as u64 * b as u64
}
