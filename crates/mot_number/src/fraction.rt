// A fraction of whole numbers to the nearest f32, ties to even.
ghost use Rattle.std.specs.Prelude.{◌≡◌, false, ◌≤◌, ◌<◌, ◌^◌};
ghost use Rattle.std.specs.Float.{binary32};
ghost use Rattle.std.specs.Float.Ieee.{units, round};
ghost use Rattle.std.specs.Float.Ieee.Nearest.{closest};

// num / den. Both are shifted to the top of their 64 bits, so that one comparison tells where the quotient's top bit is. Then the quotient by a shifted den has the
// 24 bits that an f32 keeps, and the remainder says which way it is rounded: one division, and nothing is lost before it.
pub(crate) fn magnitude(num: u64, den: u64) -> f32
    requires fact_1 { 0 < den }
    requires fact_2 { den < 2 ^ 40 }
    ensures { result ≡ round binary32 false num den }
{
    if num == 0 {
        return 0.0;
    }
    let zeros = u64::leading_zeros(num);
    let spare = u64::leading_zeros(den);
    let top = num << zeros;
    let more = u32::from(den << spare <= top);
    let unit = den << (spare - 24 + more);
    packed(nearest(top, unit), 125 + spare + more - zeros)
}

// n / unit to the nearest whole number, a tie to the even one: the remainder is above a half, or is a half and the quotient odd.
fn nearest(n: u64, unit: u64) -> u64
    requires fact_1 { 1 < unit }
    requires fact_2 { unit < 2 ^ 42 }
    ensures { result ≡ closest n unit }
{
    let kept = n / unit;
    kept + u64::from(unit < 2 * (n % unit) + kept % 2)
}

// `kept` * 2 ^ `dropped` units of 2^-149, the smallest f32. A `kept` of 2^24 carries into the exponent's field by itself.
fn packed(kept: u64, dropped: u32) -> f32
    requires fact_1 { 2 ^ 23 ≤ kept }
    requires fact_2 { kept ≤ 2 ^ 24 }
    requires fact_3 { dropped < 200 }
    ensures { result ≡ units binary32 false kept dropped }
{
    f32::from_bits(dropped * 0x80_0000 + kept as u32)
}
