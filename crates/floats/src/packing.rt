// An f32 taken apart into whole numbers, and put together from them by rounding.
// A unit is the smallest f32, 2^-149: a finite f32 is `digits` * 2 ^ `place` units.
ghost use Rattle.std.specs.Prelude.{◌≡◌, ◌-◌, ◌*◌, ◌^◌, ◌<◌, ◌≤◌, false, T};
ghost use Rattle.std.specs.Float.{binary32};
ghost use Rattle.std.specs.Float.Ieee.{units, round};
ghost use Rattle.std.specs.Float.Ieee.Scale.{finite};
ghost use Rattle.std.specs.Float.Ieee.Nearest.{closest};
ghost use Rattle.floats.specs.Private.{Parts};

// Kept: `negative` is a part of the number, its sign, and says nothing of the other two, so that no Option or Result holds it.
#[derive(Drop)]
pub(crate) struct Unpacked {
    pub(crate) negative: bool,
    pub(crate) digits: u32,
    pub(crate) place: u32,
}

// a taken apart.
pub(crate) fn parts(a: f32) -> Unpacked
    requires { T (finite a) }
    ensures { Parts a result.negative result.digits result.place }
{
    let bits = a.to_bits();
    let field = bits % 0x8000_0000 / 0x80_0000;
    let low = bits % 0x80_0000;
    if field == 0 {
        Unpacked {
            negative: 0x8000_0000 <= bits,
            digits: low,
            place: 0,
        }
    } else {
        Unpacked {
            negative: 0x8000_0000 <= bits,
            digits: 0x80_0000 + low,
            place: field - 1,
        }
    }
}

// `kept` * 2 ^ `dropped` units. A `kept` of 2^24 carries into the exponent's field by itself.
pub(crate) fn packed(kept: u64, dropped: u64) -> f32
    requires fact_1 { kept ≤ 2 ^ 24 }
    requires fact_2 { (0 < dropped → 2 ^ 23 ≤ kept) }
    requires fact_3 { dropped < 1024 }
    ensures { result ≡ units binary32 false kept dropped }
{
    let bits = dropped * 0x80_0000 + kept;
    if bits < 0x7f80_0000 {
        f32::from_bits(bits as u32)
    } else {
        f32::from_bits(0x7f80_0000)
    }
}

// s * 2 ^ p / 2 ^ 181 to the nearest f32. The leading zeros of s give its top bit, and that the shift.
pub(crate) fn rounded(s: u64, p: u64) -> f32
    requires fact_1 { 2 ^ 30 ≤ s }
    requires fact_2 { s < 2 ^ 34 }
    requires fact_3 { p < 512 }
    ensures { result ≡ round binary32 false (s * 2 ^ p) (2 ^ 181) }
{
    let top = (64 - s.leading_zeros()) as u64 + p;
    let dropped = top.saturating_sub(56);
    packed(shifted(s, 32 + dropped - p), dropped)
}

// s / 2 ^ shift to the nearest whole number, a tie to the even one. Half a unit less one is added, and one more where what is kept is odd:
// the sum carries into the kept digits exactly where s is rounded up, and no branch depends on it.
fn shifted(s: u64, shift: u64) -> u64
    requires fact_1 { s < 2 ^ 62 }
    requires fact_2 { 0 < shift }
    requires fact_3 { shift < 62 }
    ensures { result ≡ closest s (2 ^ shift) }
{
    let kept = s >> shift;
    let half = 1u64 << (shift - 1);
    (s + (half - 1 + kept % 2)) >> shift
}
