// The exponential, in whole numbers.
ghost use Rattle.std.specs.Prelude.{◌≡◌, ◌+◌, ◌-◌, ◌*◌, ◌/◌, ◌^◌, ◌<◌, ◌≤◌};
ghost use Rattle.floats.specs.Exponential as Exponential;
ghost use Rattle.floats.specs.Private.{Splits, Summed};

// e to the power a.
pub fn exp(a: f32) -> f32
    ensures { result ≡ Exponential.exp a }
{
    if a.is_nan() {
        return a;
    }
    if a >= 89.0 {
        return f32::from_bits(0x7f80_0000);
    }
    if a <= -104.0 {
        return 0.0;
    }
    let p = super::packing::parts(a);
    let z = scaled(p.negative, p.digits, p.place);
    let d = split(z);
    let q = d.quotient;
    // q is -151 at least; S has 30 places, so that the divisor is 2 ^ 181.
    super::packing::rounded(summed(d.rest), (q + 151) as u64)
}

// Q: a * 2 ^ 30 rounded down, of a's parts.
fn scaled(negative: bool, digits: u32, place: u32) -> i64
    requires fact_1 { digits < 2 ^ 24 }
    requires fact_2 { place ≤ 132 }
    ensures { result ≡ Exponential.quotient (Exponential.signed negative (digits * 2 ^ 13)) (2 ^ (132 - place)) }
{
    let wide = digits as u64 * 8192;
    let far = 132 - place;
    if negative {
        if wide == 0 {
            0
        } else {
            -1 - (right(wide - 1, far) as i64)
        }
    } else {
        right(wide, far) as i64
    }
}

// n / 2 ^ by, for any `by`.
fn right(n: u64, by: u32) -> u64
    requires { n < 2 ^ 63 }
    ensures { result ≡ n / 2 ^ by }
{
    if by < 64 { n >> by } else { 0 }
}

// q and r.
#[derive(Drop)]
struct Divided {
    quotient: i64,
    rest: u64,
}

const L: u64 = 744261118;

// z divided by L, rounding down also below zero, and the remainder.
fn split(z: i64) -> Divided
    ensures { Splits z result.quotient result.rest }
{
    if z < 0 {
        let n = (-1 - z) as u64;
        let q = -1 - ((n / L) as i64);
        Divided {
            quotient: q,
            rest: L - 1 - n % L,
        }
    } else {
        let n = z as u64;
        Divided {
            quotient: (n / L) as i64,
            rest: n % L,
        }
    }
}

// t(k), and the sum of t(1) to t(k).
#[derive(Drop)]
struct Sum {
    last: u64,
    above: u64,
}

// S: the sum of the terms t(0) to t(12) of r. From step 7 on the terms are small; step 8 divides by a shift in any case, and steps 11 and 12 add 0.
fn summed(r: u64) -> u64
    requires { r < Exponential.L }
    ensures { result ≡ Exponential.S r 12 }
{
    let s = Sum {
        last: 0x4000_0000,
        above: 0,
    };
    let s = one_more(1, s, r);
    let s = one_more(2, s, r);
    let s = one_more(3, s, r);
    let s = one_more(4, s, r);
    let s = one_more(5, s, r);
    let s = one_more(6, s, r);
    let s = one_small(7, s, r);
    let s = one_more(8, s, r);
    let s = one_small(9, s, r);
    let s = one_small(10, s, r);
    let s = one_more(11, s, r);
    let s = one_more(12, s, r);
    // S is below 2 ^ 31, so that the remainder changes nothing; it lets the compiler see where the top bit of S is.
    0x4000_0000 + s.above % 0x4000_0000
}

// The sum with t(k) = t(k - 1) * r / (k * 2 ^ 30). The shift divides by 2 ^ 30; k is a literal where this is called, so that the compiler divides by multiplying.
fn one_more(k: u64, s: Sum, r: u64) -> Sum
    requires fact_1 { 0 < k }
    requires fact_2 { k ≤ 12 }
    requires fact_3 { Summed r (k - 1) s.last (2 ^ 30 + s.above) }
    ensures { Summed r k result.last (2 ^ 30 + result.above) }
{
    let last = ((s.last * r) >> 30) / k;
    Sum {
        last,
        above: s.above + last,
    }
}

// The same where t(k - 1) is so small that r / k with 20 more places, rounded up, gives the same t(k).
// That factor does not wait for t(k - 1): one multiplication follows it, where `one_more` has two.
// The first bound on t(k - 1) is for what rounding up adds, the second keeps the product below 2 ^ 64.
fn one_small(k: u64, s: Sum, r: u64) -> Sum
    requires fact_1 { 0 < k }
    requires fact_2 { k ≤ 12 }
    requires fact_3 { Summed r (k - 1) s.last (2 ^ 30 + s.above) }
    requires fact_4 { s.last * (k - 1) < 2 ^ 20 }
    requires fact_5 { s.last * r < k * 2 ^ 44 }
    ensures { Summed r k result.last (2 ^ 30 + result.above) }
{
    let factor = (r * 0x10_0000 + (k - 1)) / k;
    let last = (s.last * factor) >> 50;
    Sum {
        last,
        above: s.above + last,
    }
}
